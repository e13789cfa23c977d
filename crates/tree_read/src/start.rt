//! Where a search starts: the root as one pair that has the whole object.

ghost use Rattle.std.specs.Prelude.{◌≡◌};
ghost use Rattle.tree_read.specs.Search.{EndsInside};

use node_codec::{Pair, Placed};
use tree_model::Root;

/// The root as a pair that begins at the object's first byte.
pub fn root_pair(root: Root) -> Placed
    ensures start { result.start ≡ 0 }
    ensures bytes { result.pair.bytes ≡ root.length }
    ensures page { result.pair.page ≡ root.page }
    ensures fits { EndsInside result }
{
    Placed {
        start: 0,
        pair: Pair {
            bytes: root.length,
            page: root.page,
        },
    }
}
