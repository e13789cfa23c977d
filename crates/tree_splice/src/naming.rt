//! The pairs that name nodes in the level above.

ghost use Rattle.std.specs.Prelude.{◌≡◌, ◌+◌, ◌^◌, ◌<◌, ◌≤◌, [], ◌∷◌, ◌++◌, length, map, take};
ghost use Rattle.std.specs.Prelude.{drop, sum_by, IfOk, OnOk, SomeIff};
ghost use Rattle.tree_model.specs.Tree.{bytes_of};
ghost use Rattle.layout_model.specs.Levels.{pair_of, on_pages, cut_into};
ghost use Rattle.tree_splice.specs.Remade.{AreCounted, rebuilt};
ghost use Rattle.tree_splice.specs.declared.naming.UpFail.TheVariants.{Memory};

use crate::node_run::NodeRun;
use crate::remade::Remade;
use crate::slices::{front, rest, total};
use node_codec::Pair;
use std::alloc::{AllocError, Global};

/// Why no new levels were made.
#[derive(Clone, Copy, PartialEq, Eq, Debug)]
pub enum UpFail {
    /// There was no memory.
    Memory,
    /// The bytes under a node pass what a pair can count.
    Wide,
}

impl From<AllocError> for UpFail {
    ghost from_gives = { λ _ e. e ≡ Memory };

    fn from(_error: AllocError) -> UpFail {
        UpFail::Memory
    }
}

/// The pairs that name all nodes of a run.
pub fn names_of(alloc: Global, run: &NodeRun) -> Result<Vec<Pair>, UpFail>
    ensures named { IfOk result (λ names. names.items ≡ map pair_of run.now) }
    ensures wide { (result ≡ Err UpFail.Wide) → AreCounted run.now → ⊥ }
{
    let mut names = Vec::new(alloc);
    push_back_names(run, 0, &mut names)?;
    Ok(names)
}

/// The pairs that name all nodes of a level that was made anew: the old ones that stay before the
/// made ones, these, and the old ones behind them.
pub fn names_around(alloc: Global, run: &NodeRun, level: &Remade) -> Result<Vec<Pair>, UpFail>
    requires { level.now.from + level.now.count < 2 ^ 64 }
    ensures named { IfOk result (λ names. names.items
        ≡ map pair_of (rebuilt run.now level.now).nodes) }
    ensures wide { (result ≡ Err UpFail.Wide) → AreCounted (rebuilt run.now level.now).nodes → ⊥ }
{
    let mut names = Vec::new(alloc);
    push_front_names(run, level.from, &mut names)?;
    push_back_names(&level.made, 0, &mut names)?;
    push_back_names(run, level.from + level.count, &mut names)?;
    Ok(names)
}

/// Appends the pairs that name the first `n` nodes of a run.
fn push_front_names(run: &NodeRun, n: usize, into: &mut Vec<Pair>) -> Result<(), UpFail>
    ensures named { OnOk result (into.new.items ≡ into.old.items ++ map pair_of (take n run.now)) }
    ensures wide { (result ≡ Err UpFail.Wide) → AreCounted (take n run.now) → ⊥ }
{
    let counts = front(run.counts(), n);
    let pairs = front(run.pairs(), total(counts));
    push_names(front(run.pages(), n), counts, pairs, into)
}

/// Appends the pairs that name the nodes of a run behind the first `n`.
fn push_back_names(run: &NodeRun, n: usize, into: &mut Vec<Pair>) -> Result<(), UpFail>
    ensures named { OnOk result (into.new.items ≡ into.old.items ++ map pair_of (drop n run.now)) }
    ensures wide { (result ≡ Err UpFail.Wide) → AreCounted (drop n run.now) → ⊥ }
{
    let pairs = rest(run.pairs(), total(front(run.counts(), n)));
    push_names(rest(run.pages(), n), rest(run.counts(), n), pairs, into)
}

/// Appends the pairs that name nodes with these pages, numbers of pairs, and pairs.
fn push_names(
    pages: &[u32],
    counts: &[usize],
    pairs: &[Pair],
    into: &mut Vec<Pair>,
) -> Result<(), UpFail>
    requires same { length pages.now ≡ length counts.now }
    requires whole { sum_by (λ n. n) counts.now ≤ length pairs.now }
    ensures named { OnOk result (into.new.items
        ≡ into.old.items ++ map pair_of (on_pages pages.now (cut_into counts.now pairs.now))) }
    ensures wide { (result ≡ Err UpFail.Wide)
        → AreCounted (on_pages pages.now (cut_into counts.now pairs.now)) → ⊥ }
{
    let mut left = pairs;
    for number in 0..pages.len() {
        let (here, behind) = left.split_at(counts[number]);
        let Some(bytes) = bytes_under(here) else {
            return Err(UpFail::Wide);
        };
        let page = pages[number];
        push_pair(into, Pair { bytes, page })?;
        left = behind;
    }
    Ok(())
}

/// Appends a pair.
fn push_pair(into: &mut Vec<Pair>, pair: Pair) -> Result<(), AllocError>
    ensures { OnOk result (into.new.items ≡ into.old.items ++ pair ∷ []) }
{
    into.push(pair)?;
    Ok(())
}

/// The bytes under these pairs, where their number fits.
pub fn bytes_under(pairs: &[Pair]) -> Option<u64>
    ensures { SomeIff result (bytes_of pairs.now < 2 ^ 64) (bytes_of pairs.now) }
{
    let mut sum: u64 = 0;
    for pair in pairs {
        let Some(more) = sum.checked_add(pair.bytes) else {
            return None;
        };
        sum = more;
    }
    Some(sum)
}
