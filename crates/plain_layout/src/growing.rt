//! The new levels of a tree, from the lowest up to the root's.

ghost use Rattle.std.specs.Prelude.{◌≡◌, IfOk, length, map, drop};
ghost use Rattle.layout_model.specs.Levels.{pair_of, level_with, level_after, is_top};
ghost use Rattle.layout_model.specs.Levels.{raised_levels, new_levels_from, spliced};
ghost use Rattle.layout_model.specs.Levels.{nodes_of_levels, count_made};

use crate::cutting::{on_pages, sizes_of};
use crate::level::Level;
use crate::new_level::NewLevel;
use crate::node::{Node, copy_before, copy_nodes, names_of};
use crate::site::Site;
use crate::touching::{exchanged, site_of};
use plain_plan::{Fail, add, cons, front, one, rest};
use std::alloc::Global;
use tree_model::Pair;

/// A level of which a site is exchanged for made nodes.
fn level_with(alloc: Global, nodes: &[Node], site: &Site, made: Vec<Node>) -> Result<NewLevel, Fail>
    ensures { IfOk result (λ level. level ≡ level_with nodes.now site.now made.items) }
{
    let end = add(site.before, site.nodes)?;
    let behind = copy_before(alloc, &made, copy_nodes(alloc, rest(end, nodes))?)?;
    let all = copy_before(alloc, front(site.before, nodes), behind)?;
    Ok(NewLevel::new(all, site.before, site.nodes, made))
}

/// The level after the exchange.
fn level_after(
    alloc: Global,
    f: u64,
    nodes: &[Node],
    from: u64,
    count: u64,
    fresh: &[Pair],
    pages: &[u32],
) -> Result<NewLevel, Fail>
    ensures { IfOk result (λ level. level
        ≡ level_after f nodes.now from count fresh.now pages.now) }
{
    let site = site_of(alloc, f, nodes, from, count, fresh)?;
    let pairs = exchanged(alloc, nodes, &site, from, count, fresh)?;
    let sizes = sizes_of(alloc, f, pairs.len() as u64)?;
    let made = on_pages(alloc, pages, &sizes, &pairs)?;
    level_with(alloc, nodes, &site, made)
}

fn is_top(level: &NewLevel) -> bool
    ensures { result ≡ is_top level.now }
{
    level.nodes().len() <= 1
}

/// The levels above the old root, from a new one on.
#[tactic(auto, using(crate::proofs::Steps::raised_more))]
fn raised_levels(
    alloc: Global,
    steps: u64,
    f: u64,
    below: NewLevel,
    pages: &[u32],
) -> Result<Vec<NewLevel>, Fail>
    ensures { IfOk result (λ levels. levels.items ≡ raised_levels steps f below pages.now) }
{
    if steps == 0 {
        return one(alloc, below);
    }
    if is_top(&below) {
        return one(alloc, below);
    }
    let left = rest(below.made().len() as u64, pages);
    let names = names_of(alloc, below.nodes())?;
    let level = level_after(alloc, f, &[], 0, 0, &names, left)?;
    let above = raised_levels(alloc, steps - 1, f, level, left)?;
    cons(below, above)
}

/// The level above a new one, in which the made nodes of that one are named.
fn level_above(
    alloc: Global,
    f: u64,
    nodes: &[Node],
    below: &NewLevel,
    pages: &[u32],
) -> Result<NewLevel, Fail>
    ensures { IfOk result (λ level. level
        ≡ level_after f nodes.now below.now.from below.now.count (map pair_of below.now.made)
        (drop (length below.now.made) pages.now)) }
{
    let names = names_of(alloc, below.made())?;
    let left = rest(below.made().len() as u64, pages);
    level_after(alloc, f, nodes, below.from(), below.count(), &names, left)
}

/// The levels from a new one on, above which these old levels stand.
fn new_levels_from(
    alloc: Global,
    f: u64,
    below: NewLevel,
    old: &[Level],
    pages: &[u32],
) -> Result<Vec<NewLevel>, Fail>
    ensures { IfOk result (λ levels. levels.items ≡ new_levels_from f below old.now pages.now) }
{
    match old {
        [] => {
            let steps = below.nodes().len() as u64;
            raised_levels(alloc, steps, f, below, pages)
        }
        [nodes, others @ ..] => {
            if is_top(&below) {
                return one(alloc, below);
            }
            let level = level_above(alloc, f, nodes.nodes(), &below, pages)?;
            let left = rest(below.made().len() as u64, pages);
            let above = new_levels_from(alloc, f, level, others, left)?;
            cons(below, above)
        }
    }
}

/// The new levels where `count` entries from number `from` on are exchanged for the fresh ones.
#[tactic(auto, unfolding(layout_model::specs::Levels::spliced))]
pub fn spliced(
    alloc: Global,
    f: u64,
    old: &[Level],
    from: u64,
    count: u64,
    fresh: &[Pair],
    pages: &[u32],
) -> Result<Vec<NewLevel>, Fail>
    ensures { IfOk result (λ levels. levels.items
        ≡ spliced f old.now from count fresh.now pages.now) }
{
    match old {
        [] => {
            let level = level_after(alloc, f, &[], 0, 0, fresh, pages)?;
            new_levels_from(alloc, f, level, &[], pages)
        }
        [nodes, above @ ..] => {
            let level = level_after(alloc, f, nodes.nodes(), from, count, fresh, pages)?;
            new_levels_from(alloc, f, level, above, pages)
        }
    }
}

/// The levels as nodes on pages; an empty tree has none.
pub fn nodes_of_levels(alloc: Global, levels: &[NewLevel]) -> Result<Vec<Level>, Fail>
    ensures { IfOk result (λ all. all.items ≡ nodes_of_levels levels.now) }
{
    match levels {
        [] => Ok(Vec::new(alloc)),
        [level, ..] => {
            if level.nodes().is_empty() {
                Ok(Vec::new(alloc))
            } else {
                node_levels(alloc, levels)
            }
        }
    }
}

fn node_levels(alloc: Global, levels: &[NewLevel]) -> Result<Vec<Level>, Fail>
    ensures { IfOk result (λ all. all.items ≡ map (λ level. level.nodes) levels.now) }
{
    match levels {
        [] => Ok(Vec::new(alloc)),
        [level, others @ ..] => cons(
            Level::new(copy_nodes(alloc, level.nodes())?),
            node_levels(alloc, others)?,
        ),
    }
}

/// How many nodes are made.
pub fn count_made(levels: &[NewLevel]) -> Result<u64, Fail>
    ensures { IfOk result (λ count. count ≡ count_made levels.now) }
{
    match levels {
        [] => Ok(0),
        [level, others @ ..] => add(level.made().len() as u64, count_made(others)?),
    }
}
