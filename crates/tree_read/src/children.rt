//! The pairs of a node that a search goes on with.

ghost use Rattle.std.specs.Prelude.{◌≡◌, ◌+◌, ◌^◌, ◌<◌, ◌≤◌, [], ◌∷◌, ◌++◌, OnOk};
ghost use Rattle.tree_model.specs.Tree.{bytes_of};
ghost use Rattle.tree_model.specs.Range.{in_range};

use node_codec::{Pair, Placed};
use std::alloc::AllocError;

/// Adds those pairs of a node that have a byte from `from` on and before `to`, each with its place.
/// The node's first byte stands at `start`.
pub fn push_children(
    pairs: &[Pair],
    start: u64,
    from: u64,
    to: u64,
    into: &mut Vec<Placed>,
) -> Result<(), AllocError>
    requires { start + bytes_of pairs.now < 2 ^ 64 }
    ensures { OnOk result (into.new.items ≡ into.old.items ++ in_range from to start pairs.now) }
{
    let mut place = start;
    for pair in pairs {
        push_child(*pair, place, from, to, into)?;
        place += pair.bytes;
    }
    Ok(())
}

/// Adds a pair that begins at `place` where it has a byte in the range.
fn push_child(
    pair: Pair,
    place: u64,
    from: u64,
    to: u64,
    into: &mut Vec<Placed>,
) -> Result<(), AllocError>
    requires { place + pair.bytes < 2 ^ 64 }
    ensures { OnOk result (into.new.items ≡ into.old.items ++ in_range from to place (pair ∷ [])) }
{
    if from.max(place) < to.min(place + pair.bytes) {
        into.push(Placed { start: place, pair })?;
    }
    Ok(())
}

/// The pair of a node under which byte `at` lies, with its place. The node's first byte stands at
/// `start`.
pub fn child_at(pairs: &[Pair], start: u64, at: u64) -> Placed
    requires fits { start + bytes_of pairs.now < 2 ^ 64 }
    requires from { start ≤ at }
    requires to { at < start + bytes_of pairs.now }
    ensures { in_range at (at + 1) start pairs.now ≡ result ∷ [] }
{
    let mut place = start;
    for pair in pairs {
        if at - place < pair.bytes {
            return Placed {
                start: place,
                pair: *pair,
            };
        }
        place += pair.bytes;
    }
    unreachable!()
}
