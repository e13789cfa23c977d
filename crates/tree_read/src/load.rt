//! One node: from the cache or from its page, and checked against the pair that names it.

ghost use Rattle.std.specs.Prelude.{◌≡◌, ℕ, ◌+◌, ◌^◌, ◌<◌, ◌≤◌, ◌↔◌, Bool, length, IsTrue, IsErr};
ghost use Rattle.std.specs.Prelude.{IsSome, SomeIff, IfOk, OnOk, OnErr};
ghost use Rattle.fault_count.specs.Counts.{HasCause, Reads};
ghost use Rattle.tree_model.specs.Node.{HoldsNode, NodeBytes, room_of};
ghost use Rattle.tree_model.specs.Tree.{HasNode, bytes_of, pairs_on};
ghost use Rattle.page_cache.specs.Kept.{kept, KeepsSame};
ghost use Rattle.span_store.specs.Held.{bytes_on};
ghost use Rattle.tree_read.specs.Loaded.{loaded, pairs_lent};
ghost use Rattle.tree_read.specs.Search.{ArePages, AsksSearch, Visits};

use crate::failure::TreeFail;
use crate::page::{has_page, read_page};
use node_codec::{Node, Pair, decode};
use page_cache::Cache;
use page_port::{DeviceFault, Port};
use span_store::Holdings;
use std::alloc::Global;

/// Looks for the node of this level that a pair names, and checks that it has just the pair's bytes.
/// `None` where the cache keeps it: it takes no memory then. Else the node is read from the device,
/// and the cache keeps a copy for the next time once it is checked, so that a page that was read
/// wrongly is read anew.
pub fn load<P: Port>(
    alloc: Global,
    held: &Holdings<P::S>,
    cache: &mut Cache,
    port: &mut P,
    level: u8,
    pair: Pair,
) -> Result<Option<Node>, TreeFail>
    requires { AsksSearch P.S.tells (P.meter port.old).page held.now cache.old
        (HasNode (bytes_on held.now) pair.page level 0 pair.bytes) }
    ensures sum { IfOk result (λ node. bytes_of (loaded node cache.new pair.page) ≡ pair.bytes) }
    ensures told { IfOk result (λ node. IsTrue P.S.tells
        → loaded node cache.new pair.page ≡ pairs_on (bytes_on held.now) pair.page) }
    ensures unchanged { OnErr result (KeepsSame cache.old cache.new) }
    ensures visits { Visits P.S.tells (P.meter port.old).page (bytes_on held.now) 1
        (IsSome (kept cache.old pair.page)) cache.old cache.new (P.meter port.old)
        (P.meter port.new) }
    ensures cause { HasCause (P.meter port.old).faults (P.meter port.new).faults
        (result ≡ Err TreeFail.Fault) }
{
    if let Some(node) = cache.peek(pair.page) {
        check(port, node, level, pair.bytes)?;
        cache.promote(pair.page);
        return Ok(None);
    }
    let node = fetch(alloc, held, port, pair.page)?;
    check(port, &node, level, pair.bytes)?;
    cache.keep(pair.page, &node);
    Ok(Some(node))
}

/// The pairs of the node that was looked for: of the one that was read, or else of the one that the
/// cache keeps for its page.
pub fn pairs_of<'a>(node: &'a Option<Node>, cache: &'a Cache, page: u32) -> &'a [Pair]
    ensures { result.now ≡ loaded node.now cache.now page }
{
    match node {
        Some(node) => node.pairs.as_slice(),
        None => pairs_kept(cache, page),
    }
}

/// The pairs of the node that the cache keeps for a page, if there is one.
fn pairs_kept(cache: &Cache, page: u32) -> &[Pair]
    ensures { result.now ≡ pairs_lent (kept cache.now page) }
{
    match cache.peek(page) {
        Some(node) => node.pairs.as_slice(),
        None => &[],
    }
}

/// Counts a fault where the node isn't of this level, or hasn't just so many bytes under its pairs.
fn check<P: Port>(port: &mut P, node: &Node, level: u8, bytes: u64) -> Result<(), DeviceFault>
    requires level { IsTrue P.S.tells → node.now.level ≡ level }
    requires bytes { IsTrue P.S.tells → bytes_of node.now.pairs.items ≡ bytes }
    ensures sum { OnOk result (bytes_of node.now.pairs.items ≡ bytes) }
    ensures reads { Reads 0 (P.meter port.old) (P.meter port.new) }
    ensures cause { HasCause (P.meter port.old).faults (P.meter port.new).faults (IsErr result) }
{
    if is_named(node, level, bytes) {
        return Ok(());
    }
    port.blame();
    Err(DeviceFault)
}

/// Reads the node on a page from the device.
fn fetch<P: Port>(
    alloc: Global,
    held: &Holdings<P::S>,
    port: &mut P,
    page: u32,
) -> Result<Node, TreeFail>
    requires pages { ArePages P.S.tells (P.meter port.old).page held.now }
    requires told { IsTrue P.S.tells → HoldsNode (bytes_on held.now page) }
    ensures told { IfOk result (λ node. IsTrue P.S.tells
        → NodeBytes (bytes_on held.now page) node.level node.pairs.items) }
    ensures small { IfOk result
        (λ node. length node.pairs.items ≤ room_of (P.meter port.old).page) }
    ensures reads { Reads 1 (P.meter port.old) (P.meter port.new) }
    ensures cause { HasCause (P.meter port.old).faults (P.meter port.new).faults
        (result ≡ Err TreeFail.Fault) }
{
    if !has_page(held, page) {
        port.blame();
        return Err(TreeFail::Fault);
    }
    let mut bytes = vec![in alloc; 0; port.page() as usize]?;
    let mut node = Node::prepared(alloc, port.page())?;
    read_page(held, port, page, &mut bytes)?;
    if decode(&bytes, &mut node).is_ok() {
        return Ok(node);
    }
    port.blame();
    Err(TreeFail::Fault)
}

/// Is the node of this level, with these bytes under its pairs?
fn is_named(node: &Node, level: u8, bytes: u64) -> bool
    ensures { IsTrue result ↔ ((node.now.level ≡ level) × (bytes_of node.now.pairs.items ≡ bytes)) }
{
    node.level == level && sum_of(node.pairs.as_slice()) == Some(bytes)
}

/// The bytes under these pairs, where their number fits.
fn sum_of(pairs: &[Pair]) -> Option<u64>
    ensures { SomeIff result (bytes_of pairs.now < 2 ^ 64) (bytes_of pairs.now) }
{
    let mut sum: u64 = 0;
    for pair in pairs {
        let Some(more) = sum.checked_add(pair.bytes) else {
            return None;
        };
        sum = more;
    }
    Some(sum)
}
