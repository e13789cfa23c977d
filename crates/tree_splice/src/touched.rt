//! Which nodes of a run are made anew: those that an exchange touches, and one that joins them.

ghost use Rattle.std.specs.Prelude.{◌≡◌, ◌+◌, ◌^◌, ◌<◌, ◌≤◌};
ghost use Rattle.layout_model.specs.Levels.{node_at, first_touched, count_touched, touched_site};
ghost use Rattle.layout_model.specs.Levels.{joined, site_of};
ghost use Rattle.tree_splice.specs.Remade.{as_site, number_at};

use crate::exchange::pairs_left;
use crate::node_run::NodeRun;
use crate::site::Site;
use node_codec::Pair;

/// The node that has pair number `at`, where nodes have these numbers of pairs.
fn number_at(counts: &[usize], at: usize) -> usize
    ensures number { result ≡ number_at counts.now at }
    ensures small { result < 2 ^ 63 }
{
    let mut left = at;
    let mut number = 0;
    for count in counts {
        if left < *count {
            return number;
        }
        left -= *count;
        number += 1;
    }
    number
}

/// The node of the run that has pair number `at`.
#[tactic(auto, using(crate::proofs::RunLemmas::node_at_number))]
fn node_at(run: &NodeRun, at: usize) -> usize
    ensures number { result ≡ node_at run.now at }
    ensures small { result < 2 ^ 63 }
{
    number_at(run.counts(), at)
}

/// The first node that an exchange of `count` pairs from number `from` on touches: it has the first
/// that is replaced, or the one before the place where none is.
fn first_touched(run: &NodeRun, from: usize, count: usize) -> usize
    ensures number { result ≡ first_touched run.now from count }
    ensures small { result < 2 ^ 63 }
{
    if count == 0 {
        node_at(run, from.saturating_sub(1))
    } else {
        node_at(run, from)
    }
}

/// How many nodes it touches.
fn count_touched(run: &NodeRun, from: usize, count: usize) -> usize
    requires { from + count < 2 ^ 64 }
    ensures number { result ≡ count_touched run.now from count }
    ensures small { first_touched run.now from count + result ≤ 2 ^ 63 }
{
    let last = node_at(run, (from + count).saturating_sub(1));
    (last + 1).saturating_sub(first_touched(run, from, count))
}

/// The nodes that it touches.
fn touched_site(run: &NodeRun, from: usize, count: usize) -> Site
    requires { from + count < 2 ^ 64 }
    ensures site { as_site result ≡ touched_site run.now from count }
    ensures small { result.before + result.nodes ≤ 2 ^ 63 }
{
    Site {
        before: first_touched(run, from, count),
        nodes: count_touched(run, from, count),
    }
}

/// The nodes of the run that are made anew where the exchange brings these pairs: where fewer than
/// half of `f` pairs are left, but some, one more node joins.
pub fn site_of(f: usize, run: &NodeRun, from: usize, count: usize, fresh: &[Pair]) -> Site
    requires { from + count < 2 ^ 64 }
    ensures site { as_site result ≡ site_of f run.now from count fresh.now }
    ensures small { result.before + result.nodes ≤ 2 ^ 63 + 1 }
{
    let site = touched_site(run, from, count);
    let pairs = pairs_left(run, site, from, count, fresh);
    if 0 < pairs && pairs < f / 2 && site.nodes < run.len() {
        joined(run, site)
    } else {
        site
    }
}

/// The site with the node before it, or where none is before with the one behind it.
fn joined(run: &NodeRun, site: Site) -> Site
    requires { site.nodes < 2 ^ 63 }
    ensures { as_site result ≡ joined run.now (as_site site) }
{
    if 0 < site.before {
        Site {
            before: site.before - 1,
            nodes: site.nodes + 1,
        }
    } else {
        Site {
            before: 0,
            nodes: site.nodes + 1,
        }
    }
}
