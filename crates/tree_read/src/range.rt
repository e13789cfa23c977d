//! The segments of a range, level by level from the root down.

ghost use Rattle.std.specs.Prelude.{◌≡◌, ◌+◌, ◌*◌, ◌/◌, ◌≤◌, length, IsTrue, IfOk, OnOk};
ghost use Rattle.std.specs.List.{AllByRecursion};
ghost use Rattle.fault_count.specs.Counts.{HasCause};
ghost use Rattle.tree_model.specs.Node.{room_of};
ghost use Rattle.tree_model.specs.Tree.{IsTree, entries_of};
ghost use Rattle.tree_model.specs.Range.{in_range};
ghost use Rattle.tree_read.specs.Cost.{AreKept, below, nodes_in_range};
ghost use Rattle.span_store.specs.Held.{bytes_on};
ghost use Rattle.tree_read.specs.Search.{AsksSearch, IsNamed, Reaches, Searches, Visits};
ghost use Rattle.tree_read.specs.Search.{top as top_of};

use crate::children::push_children;
use crate::failure::TreeFail;
use crate::load::{load, pairs_of};
use crate::start::root_pair;
use node_codec::Placed;
use page_cache::Cache;
use page_port::Port;
use span_store::Holdings;
use std::alloc::{AllocError, Global};
use tree_model::Root;

/// The segments that have a byte from `from` on and before `to`, in order, each with its place.
///
/// It reads each node with a byte in the range once, and from the device only where the cache
/// doesn't keep it: no more nodes a level than it finds segments, and none where the cache keeps
/// them all. The segments stand one after the other and have every byte of the range, whatever the
/// device gives. A root of height 0 is taken as a segment itself: no tree has one with a byte under
/// it.
///
/// # Errors
/// `Fault` where the device failed or gave a page that isn't the node that was written: the port's count
/// of faults rose. `Memory` where there was no memory: the device didn't fail.
pub fn entries<P: Port>(
    alloc: Global,
    root: &Root,
    held: &Holdings<P::S>,
    cache: &mut Cache,
    port: &mut P,
    from: u64,
    to: u64,
) -> Result<Vec<Placed>, TreeFail>
    requires order { from ≤ to }
    requires inside { to ≤ root.now.length }
    requires asks { AsksSearch P.S.tells (P.meter port.old).page held.now cache.old
        (IsTree (bytes_on held.now) (room_of (P.meter port.old).page / 2) root.now.height
        root.now.page root.now.length) }
    ensures told { IfOk result (λ segments. IsTrue P.S.tells → segments.items
        ≡ in_range from to 0 (entries_of (bytes_on held.now) root.now.height root.now.page)) }
    ensures reaches { IfOk result (λ segments. Reaches from to segments.items) }
    ensures level { IfOk result (λ segments. IsTrue P.S.tells → (P.meter port.new).read
        ≤ (P.meter port.old).read + root.now.height * length segments.items) }
    ensures searches { Searches P.S.tells (P.meter port.old).page (bytes_on held.now)
        (nodes_in_range (bytes_on held.now) from to root.now.height (top_of root.now from to))
        cache.old cache.new (P.meter port.old) (P.meter port.new) }
    ensures cause { HasCause (P.meter port.old).faults (P.meter port.new).faults
        (result ≡ Err TreeFail.Fault) }
{
    let mut children = top(alloc, root, from, to)?;
    let mut level = root.height;
    while level > 0 {
        children = level_below(
            alloc,
            held,
            cache,
            port,
            level,
            children.as_slice(),
            from,
            to,
        )?;
        level -= 1;
    }
    Ok(children)
}

/// The root as one pair, where the range has a byte.
fn top(alloc: Global, root: &Root, from: u64, to: u64) -> Result<Vec<Placed>, AllocError>
    requires inside { to ≤ root.now.length }
    ensures top { IfOk result (λ pairs. pairs.items ≡ top_of root.now from to) }
    ensures reaches { IfOk result (λ pairs. Reaches from to pairs.items) }
{
    let mut pairs = Vec::new(alloc);
    if from < to {
        pairs.push(root_pair(*root))?;
    }
    Ok(pairs)
}

/// One level down: those pairs of these nodes that have a byte in the range, each with its place.
/// They have every byte of the range where the nodes have.
fn level_below<P: Port>(
    alloc: Global,
    held: &Holdings<P::S>,
    cache: &mut Cache,
    port: &mut P,
    level: u8,
    nodes: &[Placed],
    from: u64,
    to: u64,
) -> Result<Vec<Placed>, TreeFail>
    requires asks { AsksSearch P.S.tells (P.meter port.old).page held.now cache.old
        (AllByRecursion (IsNamed (bytes_on held.now) level) nodes.now) }
    requires reaches { Reaches from to nodes.now }
    ensures told { IfOk result (λ v. IsTrue P.S.tells
        → v.items ≡ below (bytes_on held.now) from to nodes.now) }
    ensures reaches { IfOk result (λ v. Reaches from to v.items) }
    ensures visits { Visits P.S.tells (P.meter port.old).page (bytes_on held.now)
        (length nodes.now) (AreKept cache.old nodes.now) cache.old cache.new (P.meter port.old)
        (P.meter port.new) }
    ensures cause { HasCause (P.meter port.old).faults (P.meter port.new).faults
        (result ≡ Err TreeFail.Fault) }
{
    let mut children = Vec::new(alloc);
    for parent in nodes {
        let node = load(alloc, held, cache, port, level, parent.pair)?;
        push_children(
            pairs_of(&node, cache, parent.pair.page),
            parent.start,
            from,
            to,
            &mut children,
        )?;
    }
    Ok(children)
}
