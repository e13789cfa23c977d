//! Which nodes of a level the way down looks at: those that have the deciding bytes, and two beside
//! them.

ghost use Rattle.std.specs.Prelude.{◌≡◌, ◌^◌, ◌<◌, ◌-◌, take, drop};
ghost use Rattle.tree_splice.specs.Down.{deciding_bytes, first_byte, reach, section_of};

use crate::place::count_ended;
use crate::slices::{front, rest};
use node_codec::Pair;

/// The bytes that decide where an exchange takes place: the first and the last of those that are
/// replaced, or the one before the place where there is none.
#[derive(Clone, Copy)]
pub struct Deciding {
    pub first: u64,
    pub last: u64,
}

/// So many names of a run stand before those of the nodes that are looked at, and so many before
/// the end of these.
#[derive(Clone, Copy)]
pub struct Section {
    pub first: usize,
    pub end: usize,
}

/// The bytes that decide where those from `from` on and before `to` are exchanged.
pub fn deciding_bytes(from: u64, to: u64) -> Deciding
    ensures { result ≡ deciding_bytes from to }
{
    Deciding {
        first: first_byte(from, to),
        last: to.saturating_sub(1),
    }
}

/// The first of the bytes from `from` on and before `to`, or the one before them where there is
/// none.
fn first_byte(from: u64, to: u64) -> u64
    ensures { result ≡ first_byte from to }
{
    if from < to {
        from
    } else {
        from.saturating_sub(1)
    }
}

/// The nodes that are looked at where these pairs name those of a run, whose first byte is `start`:
/// two before the ones that have the deciding bytes, and two behind where fewer than two are
/// before. A node that joins may lie under another parent than the one that it joins, and that one
/// wants a neighbour too.
pub fn section_of(bytes: Deciding, start: u64, run: &[Pair]) -> Section
    ensures { result ≡ section_of bytes start run.now }
{
    let at = count_ended(run, bytes.first.saturating_sub(start));
    let last = count_ended(run, bytes.last.saturating_sub(start));
    Section {
        first: at.saturating_sub(2),
        end: run.len().min(last + reach(at)),
    }
}

/// How far behind the start of the last node that has a deciding byte a run reaches, where so many
/// names of the run stand before the first.
fn reach(before: usize) -> usize
    ensures reach { result ≡ reach before }
    ensures small { result < 4 }
{
    if before < 2 { 3 } else { 1 }
}

/// The names of the section.
pub fn names_in<'a>(run: &'a [Pair], section: Section) -> &'a [Pair]
    ensures { result.now ≡ take (section.end - section.first) (drop section.first run.now) }
{
    front(
        rest(run, section.first),
        section.end.saturating_sub(section.first),
    )
}
