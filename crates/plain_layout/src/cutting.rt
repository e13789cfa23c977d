//! Pairs cut into nodes.

ghost use Rattle.std.specs.Prelude.{◌≡◌, ◌+◌, ◌-◌, ◌/◌, ◌%◌, ◌++◌, IfOk, replicate};
ghost use Rattle.layout_model.specs.Levels.{sizes_of, cut_into, on_pages};

use crate::node::Node;
use plain_plan::{Fail, add, cons, div, front, join, rem, rest};
use std::alloc::Global;
use tree_model::Pair;

/// The numbers of pairs of the nodes that n pairs are cut into.
#[tactic(auto, using(crate::proofs::Steps::sizes_of_none))]
pub fn sizes_of(alloc: Global, f: u64, n: u64) -> Result<Vec<u64>, Fail>
    ensures { IfOk result (λ sizes. sizes.items ≡ sizes_of f n) }
{
    if n == 0 {
        return Ok(Vec::new(alloc));
    }
    let nodes = div(add(n, f.saturating_sub(1))?, f)?;
    even_sizes(alloc, nodes, n)
}

/// So many nodes as even as possible, the larger ones first.
fn even_sizes(alloc: Global, nodes: u64, n: u64) -> Result<Vec<u64>, Fail>
    ensures { IfOk result (λ sizes. sizes.items ≡ replicate (n % nodes) (n / nodes + 1)
        ++ replicate (nodes - n % nodes) (n / nodes)) }
{
    let least = div(n, nodes)?;
    let larger = rem(n, nodes)?;
    let first = vec![in alloc; add(least, 1)?; larger as usize]?;
    let others = vec![in alloc; least; nodes.saturating_sub(larger) as usize]?;
    join(first, &others)
}

/// Nodes of these sizes on the first of these pages, on page 0 where none is left.
pub fn on_pages(
    alloc: Global,
    pages: &[u32],
    sizes: &[u64],
    pairs: &[Pair],
) -> Result<Vec<Node>, Fail>
    ensures { IfOk result (λ nodes. nodes.items
        ≡ on_pages pages.now (cut_into sizes.now pairs.now)) }
{
    let [size, others @ ..] = sizes else {
        return Ok(Vec::new(alloc));
    };
    let own = Vec::from_slice(alloc, front(*size, pairs))?;
    let left = rest(*size, pairs);
    match pages {
        [] => cons(Node::new(0, own), on_pages(alloc, pages, others, left)?),
        [page, more @ ..] => cons(Node::new(*page, own), on_pages(alloc, more, others, left)?),
    }
}
