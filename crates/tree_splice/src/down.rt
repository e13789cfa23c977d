//! The way down: of each level the run of nodes that an exchange looks at, from the root to the
//! lowest.

ghost use Rattle.std.specs.Prelude.{◌≡◌, ◌≢◌, ◌+◌, ◌/◌, ◌^◌, ◌<◌, ◌≤◌, ◌↔◌, ◌++◌, ◌∷◌, ◌||◌, []};
ghost use Rattle.std.specs.Prelude.{List, Bool, IsTrue, IfOk, OnOk, IsErr, Err};
ghost use Rattle.std.specs.List.{AllByRecursion};
ghost use Rattle.fault_count.specs.Counts.{HasCause, Reads};
ghost use Rattle.local_laws.specs.Cut.{Cut};
ghost use Rattle.tree_model.specs.Node.{room_of};
ghost use Rattle.tree_model.specs.Tree.{HasNode, AreTrees, IsTree, bytes_of};
ghost use Rattle.tree_pages.specs.Levels.{node_on};
ghost use Rattle.span_store.specs.Held.{bytes_on};
ghost use Rattle.tree_read.specs.Search.{AsksSearch, ReadsNodes};
ghost use Rattle.tree_splice.specs.Down.{AreBelow, AreKnown, FindsWay, GoesDown, Names};
ghost use Rattle.tree_splice.specs.Down.{deciding_bytes};
ghost use Rattle.tree_splice.specs.Way.{AreSound, HasSomePairs, IsSoundLevel, IsSoundNode};
ghost use Rattle.tree_splice.specs.Way.{named_on};

use crate::naming::bytes_under;
use crate::node_run::NodeRun;
use crate::path_level::PathLevel;
use crate::section::{Deciding, deciding_bytes, names_in, section_of};
use crate::slices::front;
use node_codec::Pair;
use page_cache::Cache;
use page_port::{DeviceFault, Port};
use span_store::Holdings;
use std::alloc::{AllocError, Global};
use tree_read::{Root, TreeFail, load_node, pairs_of};

/// Of each level of a tree, the lowest first, the nodes that an exchange looks at, and the byte at
/// which the lowest run begins.
#[derive(Drop)]
pub struct Way {
    pub path: Vec<PathLevel>,
    pub start: u64,
}

/// Goes down to where the bytes from `from` on and before `to` are exchanged. Each node is read
/// once, and from the device only where the cache doesn't keep it.
///
/// # Errors
/// `Fault` where the device failed or gave a page that isn't the node that was written: the count
/// of faults rose. `Memory` where there was no memory.
pub fn find_way<P: Port>(
    alloc: Global,
    root: &Root,
    from: u64,
    to: u64,
    held: &Holdings<P::S>,
    cache: &mut Cache,
    port: &mut P,
) -> Result<Way, TreeFail>
    requires asks { AsksSearch P.S.tells (P.meter port.old).page held.now cache.old
        (IsTree (bytes_on held.now) (room_of (P.meter port.old).page / 2) root.now.height
        root.now.page root.now.length) }
    requires order { from ≤ to }
    requires inside { to ≤ root.now.length }
    requires small { root.now.length < 2 ^ 64 }
    ensures told { IfOk result (λ way. IsTrue P.S.tells → FindsWay (bytes_on held.now)
        (deciding_bytes from to) root.now way.path.items way.start) }
    ensures sound { IfOk result (λ way. AreSound way.path.items) }
    ensures reads { ReadsNodes P.S.tells (P.meter port.old).page (bytes_on held.now)
        cache.new (P.meter port.old) (P.meter port.new) }
    ensures cause { HasCause (P.meter port.old).faults (P.meter port.new).faults
        (result ≡ Err TreeFail.Fault) }
{
    let mut path = Vec::new(alloc);
    let named = Pair {
        bytes: root.length,
        page: root.page,
    };
    let start = push_way(
        alloc,
        held,
        cache,
        port,
        deciding_bytes(from, to),
        root.height,
        &[named],
        0,
        false,
        false,
        &mut path,
    )?;
    Ok(Way { path, start })
}

/// Appends the runs of the levels below these names, the lowest first. The names are the pairs of a
/// run above; `start` is the byte at which they begin, and `before` and `behind` tell whether that
/// level has other pairs before and behind them. It answers the byte at which the lowest run
/// begins.
fn push_way<P: Port>(
    alloc: Global,
    held: &Holdings<P::S>,
    cache: &mut Cache,
    port: &mut P,
    bytes: Deciding,
    height: u8,
    pairs: &[Pair],
    start: u64,
    before: bool,
    behind: bool,
    into: &mut Vec<PathLevel>,
) -> Result<u64, TreeFail>
    requires { AsksSearch P.S.tells (P.meter port.old).page held.now cache.old
        (AreTrees (bytes_on held.now) 0 height pairs.now) }
    ensures told { IfOk result (λ lowest. IsTrue P.S.tells → (names : Names) (cuts : List Cut)
        → AreBelow cuts names
        → AreKnown (bytes_on held.now) bytes height names pairs.now start before behind
        → GoesDown (bytes_on held.now) bytes height names cuts into.old.items into.new.items
        lowest) }
    ensures sound { OnOk result (AreSound into.old.items → AreSound into.new.items) }
    ensures reads { ReadsNodes P.S.tells (P.meter port.old).page (bytes_on held.now)
        cache.new (P.meter port.old) (P.meter port.new) }
    ensures cause { HasCause (P.meter port.old).faults (P.meter port.new).faults
        (result ≡ Err TreeFail.Fault) }
{
    if height == 0 {
        return Ok(start);
    }
    let section = section_of(bytes, start, pairs);
    let nodes = nodes_named(alloc, held, cache, port, height, names_in(pairs, section))?;
    let first = number_of(section.first)?;
    let begin = start_behind(start, front(pairs, section.first));
    let more_before = either(before, 0 < section.first);
    let more_behind = either(behind, section.end < pairs.len());
    let lowest = push_way(
        alloc,
        held,
        cache,
        port,
        bytes,
        height - 1,
        nodes.pairs(),
        begin,
        more_before,
        more_behind,
        into,
    )?;
    push_run(into, PathLevel::new(nodes, first, more_before, more_behind))?;
    Ok(lowest)
}

/// A number of a pair, which in a tree is one of the pairs of a few nodes.
fn number_of(first: usize) -> Result<u32, AllocError>
    ensures { IfOk result (λ number. number ≡ first) }
{
    match u32::try_from(first) {
        Ok(number) => Ok(number),
        Err(_) => Err(AllocError),
    }
}

/// Is one of the two so?
fn either(one: bool, other: bool) -> bool
    ensures { result ≡ (one || other) }
{
    one || other
}

/// The byte behind these pairs, the first of which begins at `start`.
fn start_behind(start: u64, pairs: &[Pair]) -> u64
    ensures { start + bytes_of pairs.now < 2 ^ 64 → result ≡ start + bytes_of pairs.now }
{
    match bytes_under(pairs) {
        Some(bytes) => start.saturating_add(bytes),
        None => u64::MAX,
    }
}

/// Appends the run of a level.
fn push_run(into: &mut Vec<PathLevel>, level: PathLevel) -> Result<(), AllocError>
    ensures { OnOk result (into.new.items ≡ into.old.items ++ level ∷ []) }
{
    into.push(level)?;
    Ok(())
}

/// The nodes of one level that these pairs name.
fn nodes_named<P: Port>(
    alloc: Global,
    held: &Holdings<P::S>,
    cache: &mut Cache,
    port: &mut P,
    level: u8,
    pairs: &[Pair],
) -> Result<NodeRun, TreeFail>
    requires { AsksSearch P.S.tells (P.meter port.old).page held.now cache.old
        (AllByRecursion (λ p. HasNode (bytes_on held.now) p.page level 0 p.bytes) pairs.now) }
    ensures told { IfOk result (λ nodes. IsTrue P.S.tells
        → nodes ≡ named_on (bytes_on held.now) pairs.now) }
    ensures sound { IfOk result (λ nodes. AllByRecursion IsSoundNode nodes) }
    ensures reads { ReadsNodes P.S.tells (P.meter port.old).page (bytes_on held.now)
        cache.new (P.meter port.old) (P.meter port.new) }
    ensures cause { HasCause (P.meter port.old).faults (P.meter port.new).faults
        (result ≡ Err TreeFail.Fault) }
{
    let mut nodes = NodeRun::new(alloc);
    for pair in pairs {
        push_named(alloc, held, cache, port, level, *pair, &mut nodes)?;
    }
    Ok(nodes)
}

/// Appends the node of a level that a pair names.
fn push_named<P: Port>(
    alloc: Global,
    held: &Holdings<P::S>,
    cache: &mut Cache,
    port: &mut P,
    level: u8,
    pair: Pair,
    into: &mut NodeRun,
) -> Result<(), TreeFail>
    requires { AsksSearch P.S.tells (P.meter port.old).page held.now cache.old
        (HasNode (bytes_on held.now) pair.page level 0 pair.bytes) }
    ensures told { OnOk result (IsTrue P.S.tells
        → into.new ≡ into.old ++ node_on (bytes_on held.now) pair.page ∷ []) }
    ensures sound { OnOk result (AllByRecursion IsSoundNode into.old
        → AllByRecursion IsSoundNode into.new) }
    ensures reads { ReadsNodes P.S.tells (P.meter port.old).page (bytes_on held.now)
        cache.new (P.meter port.old) (P.meter port.new) }
    ensures cause { HasCause (P.meter port.old).faults (P.meter port.new).faults
        (result ≡ Err TreeFail.Fault) }
{
    let node = load_node(alloc, held, cache, port, level, pair)?;
    let pairs = pairs_of(&node, cache, pair.page);
    check(port, pairs)?;
    into.push(pair.page, pairs)?;
    Ok(())
}

/// Counts a fault where these aren't the pairs of a node.
fn check<P: Port>(port: &mut P, pairs: &[Pair]) -> Result<(), DeviceFault>
    requires told { IsTrue P.S.tells → HasSomePairs pairs.now }
    ensures sound { OnOk result (HasSomePairs pairs.now) }
    ensures reads { Reads 0 (P.meter port.old) (P.meter port.new) }
    ensures cause { HasCause (P.meter port.old).faults (P.meter port.new).faults (IsErr result) }
{
    if have_pairs(pairs) {
        return Ok(());
    }
    port.blame();
    Err(DeviceFault)
}

/// Are these pairs of a node: at least one, each with at least one byte under it?
fn have_pairs(pairs: &[Pair]) -> bool
    ensures { IsTrue result ↔ HasSomePairs pairs.now }
{
    for pair in pairs {
        if pair.bytes == 0 {
            return false;
        }
    }
    !pairs.is_empty()
}
