//! Which nodes of a level are made anew.

ghost use Rattle.std.specs.Prelude.{◌≡◌, IfOk};
ghost use Rattle.layout_model.specs.Levels.{node_at, first_touched, count_touched, touched_site};
ghost use Rattle.layout_model.specs.Levels.{nodes_at, exchanged, joins, joined, site_of};

use crate::node::{Node, pairs_of_level};
use crate::site::Site;
use plain_plan::{Fail, add, front, join, rest};
use std::alloc::Global;
use tree_model::Pair;

/// The node of a level that has pair number `at`.
fn node_at(nodes: &[Node], at: u64) -> Result<u64, Fail>
    ensures { IfOk result (λ number. number ≡ node_at nodes.now at) }
{
    match nodes {
        [] => Ok(0),
        [node, others @ ..] => {
            let count = node.pairs().len() as u64;
            if at < count {
                Ok(0)
            } else {
                add(node_at(others, at - count)?, 1)
            }
        }
    }
}

/// The first node that is touched.
fn first_touched(nodes: &[Node], from: u64, count: u64) -> Result<u64, Fail>
    ensures { IfOk result (λ number. number ≡ first_touched nodes.now from count) }
{
    if count == 0 {
        node_at(nodes, from.saturating_sub(1))
    } else {
        node_at(nodes, from)
    }
}

/// The number of touched nodes.
fn count_touched(nodes: &[Node], from: u64, count: u64) -> Result<u64, Fail>
    ensures { IfOk result (λ number. number ≡ count_touched nodes.now from count) }
{
    let last = node_at(nodes, add(from, count)?.saturating_sub(1))?;
    Ok(add(last, 1)?.saturating_sub(first_touched(nodes, from, count)?))
}

fn touched_site(nodes: &[Node], from: u64, count: u64) -> Result<Site, Fail>
    ensures { IfOk result (λ site. site ≡ touched_site nodes.now from count) }
{
    Ok(Site {
        before: first_touched(nodes, from, count)?,
        nodes: count_touched(nodes, from, count)?,
    })
}

/// The nodes of a site.
pub fn nodes_at<'a>(nodes: &'a [Node], site: &Site) -> &'a [Node]
    ensures { result.now ≡ nodes_at nodes.now site.now }
{
    front(site.nodes, rest(site.before, nodes))
}

/// The pairs of a site with the replaced ones exchanged for the fresh ones.
pub fn exchanged(
    alloc: Global,
    nodes: &[Node],
    site: &Site,
    from: u64,
    count: u64,
    fresh: &[Pair],
) -> Result<Vec<Pair>, Fail>
    ensures { IfOk result (λ pairs. pairs.items
        ≡ exchanged nodes.now site.now from count fresh.now) }
{
    let before = pairs_of_level(alloc, front(site.before, nodes))?;
    let skipped = from.saturating_sub(before.len() as u64);
    let here = pairs_of_level(alloc, nodes_at(nodes, site))?;
    let behind = join(
        Vec::from_slice(alloc, fresh)?,
        rest(add(skipped, count)?, &here),
    )?;
    join(Vec::from_slice(alloc, front(skipped, &here))?, &behind)
}

/// Whether an untouched node joins.
fn joins(f: u64, nodes: &[Node], site: &Site, pairs: u64) -> bool
    ensures { result ≡ joins f nodes.now site.now pairs }
{
    0 < pairs && pairs < f / 2 && site.nodes < nodes.len() as u64
}

/// The site with the node that joins.
fn joined(nodes: &[Node], site: &Site) -> Result<Site, Fail>
    ensures { IfOk result (λ wider. wider ≡ joined nodes.now site.now) }
{
    let wider = add(site.nodes, 1)?;
    if 0 < site.before {
        Ok(Site {
            before: site.before - 1,
            nodes: wider,
        })
    } else {
        Ok(Site {
            before: 0,
            nodes: wider,
        })
    }
}

/// The nodes that are made anew on a level.
pub fn site_of(
    alloc: Global,
    f: u64,
    nodes: &[Node],
    from: u64,
    count: u64,
    fresh: &[Pair],
) -> Result<Site, Fail>
    ensures { IfOk result (λ site. site ≡ site_of f nodes.now from count fresh.now) }
{
    let site = touched_site(nodes, from, count)?;
    let pairs = exchanged(alloc, nodes, &site, from, count, fresh)?;
    if joins(f, nodes, &site, pairs.len() as u64) {
        joined(nodes, &site)
    } else {
        Ok(site)
    }
}
