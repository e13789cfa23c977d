//! The pairs of a site with the replaced ones exchanged for the fresh ones.

ghost use Rattle.std.specs.Prelude.{◌≡◌, ◌+◌, ◌-◌, ◌^◌, ◌<◌, length, take, drop, IfOk};
ghost use Rattle.layout_model.specs.Levels.{pairs_of_level, nodes_at, exchanged};
ghost use Rattle.tree_splice.specs.Remade.{as_site};

use crate::node_run::NodeRun;
use crate::site::Site;
use crate::slices::{front, rest, total};
use node_codec::Pair;
use std::alloc::{AllocError, Global};

/// How many pairs the nodes before a site have.
fn start_of(run: &NodeRun, site: Site) -> usize
    ensures { result ≡ length (pairs_of_level (take site.before run.now)) }
{
    total(front(run.counts(), site.before))
}

/// The pairs of the nodes of a site.
fn site_pairs<'a>(run: &'a NodeRun, site: Site) -> &'a [Pair]
    ensures { result.now ≡ pairs_of_level (nodes_at run.now (as_site site)) }
{
    let start = start_of(run, site);
    let count = total(front(rest(run.counts(), site.before), site.nodes));
    front(rest(run.pairs(), start), count)
}

/// The pairs of a site before pair number `from` of the run.
fn kept_before<'a>(run: &'a NodeRun, site: Site, from: usize) -> &'a [Pair]
    ensures { result.now ≡ take (from - length (pairs_of_level (take site.before run.now)))
        (pairs_of_level (nodes_at run.now (as_site site))) }
{
    front(
        site_pairs(run, site),
        from.saturating_sub(start_of(run, site)),
    )
}

/// The pairs of a site behind `count` pairs from number `from` of the run on.
fn kept_behind<'a>(run: &'a NodeRun, site: Site, from: usize, count: usize) -> &'a [Pair]
    requires { from + count < 2 ^ 64 }
    ensures { result.now
        ≡ drop ((from - length (pairs_of_level (take site.before run.now))) + count)
        (pairs_of_level (nodes_at run.now (as_site site))) }
{
    let skipped = from.saturating_sub(start_of(run, site));
    rest(site_pairs(run, site), skipped + count)
}

/// How many pairs a site has where `count` pairs of the run, from number `from` on, are exchanged
/// for the fresh ones.
pub fn pairs_left(run: &NodeRun, site: Site, from: usize, count: usize, fresh: &[Pair]) -> usize
    requires { from + count < 2 ^ 64 }
    ensures { result ≡ length (exchanged run.now (as_site site) from count fresh.now) }
{
    let before = kept_before(run, site, from).len();
    before + (fresh.len() + kept_behind(run, site, from, count).len())
}

/// The pairs of a site where `count` pairs of the run, from number `from` on, are exchanged for the
/// fresh ones.
pub fn exchanged(
    alloc: Global,
    run: &NodeRun,
    site: Site,
    from: usize,
    count: usize,
    fresh: &[Pair],
) -> Result<Vec<Pair>, AllocError>
    requires { from + count < 2 ^ 64 }
    ensures { IfOk result (λ pairs. pairs.items
        ≡ exchanged run.now (as_site site) from count fresh.now) }
{
    let mut pairs = Vec::with_capacity(alloc, pairs_left(run, site, from, count, fresh))?;
    pairs.extend_from_slice(kept_before(run, site, from))?;
    pairs.extend_from_slice(fresh)?;
    pairs.extend_from_slice(kept_behind(run, site, from, count))?;
    Ok(pairs)
}
