//! Where an exchange takes place: the number of an entry from the byte at which it begins.

ghost use Rattle.std.specs.Prelude.{◌≡◌, ◌+◌, ◌-◌, ◌^◌, ◌<◌};
ghost use Rattle.layout_model.specs.Parts.{count_ended};
ghost use Rattle.local_laws.specs.Path.{PathLevel};
ghost use Rattle.tree_splice.specs.Way.{lowest_pairs};

use crate::path_level::PathLevel;
use node_codec::Pair;

/// A run of the entries of a tree: the number of the first, and how many there are.
#[derive(Clone, Copy)]
pub struct Place {
    pub from: usize,
    pub count: usize,
}

/// The entries that begin at byte `from` or behind it and before byte `to`, by their numbers among
/// those of the lowest level of a way.
pub fn place_between(path: &[PathLevel], from: u64, to: u64) -> Place
    ensures from { result.from ≡ count_ended from (lowest_pairs path.now) }
    ensures count { result.count ≡ count_ended to (lowest_pairs path.now) - result.from }
    ensures small { result.from + result.count < 2 ^ 64 }
{
    let [lowest, ..] = path else {
        return Place { from: 0, count: 0 };
    };
    let first = count_ended(lowest.nodes().pairs(), from);
    let end = count_ended(lowest.nodes().pairs(), to);
    Place {
        from: first,
        count: end.saturating_sub(first),
    }
}

/// How many of these entries end at byte `at` or before it.
pub fn count_ended(pairs: &[Pair], at: u64) -> usize
    ensures count { result ≡ count_ended at pairs.now }
    ensures small { result < 2 ^ 63 }
{
    let mut left = at;
    let mut count = 0;
    for pair in pairs {
        if left < pair.bytes {
            return count;
        }
        left -= pair.bytes;
        count += 1;
    }
    count
}
