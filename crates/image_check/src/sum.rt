//! The bytes under the pairs of a node.

ghost use Rattle.std.specs.Prelude.{◌≡◌, ◌↔◌, IsTrue};
ghost use Rattle.tree_model.specs.Tree.{bytes_of};

use tree_model::Pair;

/// Have these pairs just so many bytes under them? A sum that no number holds is none.
pub fn have_bytes(pairs: &[Pair], bytes: u64) -> bool
    ensures { IsTrue result ↔ (bytes_of pairs.now ≡ bytes) }
{
    let mut left = bytes;
    for pair in pairs {
        if pair.bytes > left {
            return false;
        }
        left -= pair.bytes;
    }
    left == 0
}
