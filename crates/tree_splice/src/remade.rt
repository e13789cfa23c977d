//! A level in which nodes were made anew.

ghost use Rattle.std.specs.Prelude.{◌≡◌, ◌+◌, ◌-◌, ◌^◌, ◌<◌, ◌≤◌, min, IfOk};
ghost use Rattle.layout_model.specs.Levels.{level_after};
ghost use Rattle.tree_splice.specs.Remade.{rebuilt, remade};

use crate::exchange::exchanged;
use crate::node_run::NodeRun;
use crate::touched::site_of;
use node_codec::Pair;
use std::alloc::{AllocError, Global};

/// What an exchange makes of the nodes of a level: made ones stand in the place of old ones.
#[derive(Drop)]
pub struct Remade {
    /// How many old nodes stay before the made ones.
    pub from: usize,
    /// How many old nodes the made ones replace.
    pub count: usize,
    /// How many nodes there are afterwards.
    pub size: usize,
    /// The made nodes.
    pub made: NodeRun,
}

/// Makes nodes of a run anew where `count` of its pairs, from number `from` on, are exchanged for
/// the fresh ones. A node has at most `f` pairs. The made nodes stand on the first of the pages.
pub fn remake(
    alloc: Global,
    f: usize,
    run: &NodeRun,
    from: usize,
    count: usize,
    fresh: &[Pair],
    pages: &[u32],
) -> Result<Remade, AllocError>
    requires some { 0 < f }
    requires fits { f < 2 ^ 32 }
    requires place { from + count < 2 ^ 64 }
    ensures level { IfOk result (λ level. level
        ≡ remade (level_after f run.now from count fresh.now pages.now)) }
    ensures rebuilt { IfOk result (λ level. rebuilt run.now level
        ≡ level_after f run.now from count fresh.now pages.now) }
    ensures kept { IfOk result (λ level. level ≡ remade (rebuilt run.now level)) }
    ensures small { IfOk result (λ level. level.from + level.count ≤ 2 ^ 63 + 1) }
{
    let site = site_of(f, run, from, count, fresh);
    let pairs = exchanged(alloc, run, site, from, count, fresh)?;
    let made = NodeRun::cut(alloc, f, pairs, pages)?;
    let size = size_with(run.len(), site.before, site.nodes, made.len());
    Ok(Remade {
        from: site.before,
        count: site.nodes,
        size,
        made,
    })
}

/// How many nodes there are where `count` of `nodes` nodes, from number `from` on, make way for
/// `made` ones.
fn size_with(nodes: usize, from: usize, count: usize, made: usize) -> usize
    requires nodes { nodes < 2 ^ 63 }
    requires made { made < 2 ^ 63 }
    ensures { result ≡ min from nodes + (made + (nodes - (from + count))) }
{
    from.min(nodes) + (made + nodes.saturating_sub(from).saturating_sub(count))
}
