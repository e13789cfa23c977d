//! The segment that has one byte: one node a level, from the root down.

ghost use Rattle.std.specs.Prelude.{◌≡◌, ◌+◌, ◌/◌, ◌<◌, [], ◌∷◌, IsTrue, IfOk};
ghost use Rattle.fault_count.specs.Counts.{HasCause};
ghost use Rattle.tree_model.specs.Node.{room_of};
ghost use Rattle.tree_model.specs.Tree.{IsTree, entries_of};
ghost use Rattle.tree_model.specs.Range.{in_range};
ghost use Rattle.span_store.specs.Held.{bytes_on};
ghost use Rattle.tree_read.specs.Cost.{AreKept, nodes_in_range};
ghost use Rattle.tree_read.specs.Search.{AsksSearch, HasByte, Visits, top};

use crate::children::child_at;
use crate::failure::TreeFail;
use crate::load::{load, pairs_of};
use crate::start::root_pair;
use node_codec::Placed;
use page_cache::Cache;
use page_port::Port;
use span_store::Holdings;
use std::alloc::Global;
use tree_model::Root;

/// The bytes of an object.
pub fn length(root: &Root) -> u64
    ensures { result ≡ root.now.length }
{
    root.length
}

/// The segment that has byte `at`, with its place. It reads one node a level.
///
/// # Errors
/// `Fault` where the device failed or gave a page that isn't the node that was written: the port's count
/// of faults rose. `Memory` where there was no memory: the device didn't fail.
pub fn find<P: Port>(
    alloc: Global,
    root: &Root,
    held: &Holdings<P::S>,
    cache: &mut Cache,
    port: &mut P,
    at: u64,
) -> Result<Placed, TreeFail>
    requires inside { at < root.now.length }
    requires asks { AsksSearch P.S.tells (P.meter port.old).page held.now cache.old
        (IsTree (bytes_on held.now) (room_of (P.meter port.old).page / 2) root.now.height
        root.now.page root.now.length) }
    ensures told { IfOk result (λ segment. IsTrue P.S.tells
        → in_range at (at + 1) 0 (entries_of (bytes_on held.now) root.now.height root.now.page)
        ≡ segment ∷ []) }
    ensures holds { IfOk result (HasByte at) }
    ensures visits { Visits P.S.tells (P.meter port.old).page (bytes_on held.now)
        root.now.height (IsTrue P.S.tells × AreKept cache.old (nodes_in_range (bytes_on held.now)
        at (at + 1) root.now.height (top root.now at (at + 1)))) cache.old cache.new
        (P.meter port.old) (P.meter port.new) }
    ensures cause { HasCause (P.meter port.old).faults (P.meter port.new).faults
        (result ≡ Err TreeFail.Fault) }
{
    let mut child = root_pair(*root);
    let mut level = root.height;
    while level > 0 {
        let node = load(alloc, held, cache, port, level, child.pair)?;
        child = child_at(pairs_of(&node, cache, child.pair.page), child.start, at);
        drop(node);
        level -= 1;
    }
    Ok(child)
}
