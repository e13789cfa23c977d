//! The new nodes: written to their pages, and kept.

ghost use Rattle.std.specs.Prelude.{◌≡◌, ℕ, ◌+◌, ◌^◌, ◌<◌, ◌≤◌, Bool, length, take, drop, IsTrue};
ghost use Rattle.std.specs.Prelude.{IsErr, IfSome, OnOk, slice_index_or};
ghost use Rattle.std.specs.List.{AllByRecursion};
ghost use Rattle.fault_count.specs.Counts.{HasCause, Writes};
ghost use Rattle.geometry_model.specs.Numbers.{is_page_size};
ghost use Rattle.tree_model.specs.Node.{NodeBytes, room_of};
ghost use Rattle.tree_model.specs.Tree.{Pages};
ghost use Rattle.tree_splice.specs.Scratch.{IsPrepared};
ghost use Rattle.tree_read.specs.Search.{KeepsNodes};
ghost use Rattle.tree_splice.specs.Fresh.{AreAllOf, AreAllWritten, AreSamePages, AreNodesWritten};
ghost use Rattle.tree_splice.specs.Fresh.{IsPageWritten, no_fresh_page};
ghost use Rattle.tree_splice.specs.Way.{AreAllMade, IsMade, MadeStand, made_count};

use crate::fresh_pages::FreshPages;
use crate::node_run::NodeRun;
use crate::remade::Remade;
use crate::scratch::Scratch;
use node_codec::{Node, Pair, encode};
use page_cache::Cache;
use page_port::{DeviceFault, Port};
use page_set::PageRun;

/// How many nodes are made on these levels, where the number fits.
pub fn count_made(levels: &[Remade]) -> Option<usize>
    ensures { IfSome result (λ count. count ≡ made_count levels.now) }
{
    let mut count: usize = 0;
    for level in levels {
        let Some(more) = count.checked_add(level.made.len()) else {
            return None;
        };
        count = more;
    }
    Some(count)
}

/// Writes the made nodes of these levels, of which the lowest is `level`, to the pages from number
/// `at` of the list on.
pub fn write_levels<P: Port>(
    port: &mut P,
    levels: &[Remade],
    level: u8,
    pages: &mut FreshPages<P::S>,
    at: usize,
    scratch: &mut Scratch,
) -> Result<(), DeviceFault>
    requires size { IsTrue (is_page_size (P.meter port.old).page) }
    requires prepared { IsPrepared (P.meter port.old).page scratch.old }
    requires lowest { 1 ≤ level }
    requires few { level + length levels.now ≤ 256 }
    requires made { AreAllMade (room_of (P.meter port.old).page) levels.now }
    requires within { at + made_count levels.now ≤ length pages.old.pages }
    requires fits { length pages.old.pages < 2 ^ 63 }
    requires sized { AreAllOf P.S.tells (P.meter port.old).page pages.old.pages }
    ensures written { OnOk result (IsTrue P.S.tells
        → AreAllWritten level levels.now (drop at pages.new.pages)) }
    ensures before { take at pages.new.pages ≡ take at pages.old.pages }
    ensures same { AreSamePages pages.old.pages pages.new.pages }
    ensures sized { AreAllOf P.S.tells (P.meter port.old).page pages.new.pages }
    ensures prepared { IsPrepared (P.meter port.old).page scratch.new }
    ensures writes { Writes (made_count levels.now) (P.meter port.old) (P.meter port.new) }
    ensures cause { HasCause (P.meter port.old).faults (P.meter port.new).faults (IsErr result) }
{
    let [first, above @ ..] = levels else {
        return Ok(());
    };
    write_nodes(port, &first.made, level, pages, at, scratch)?;
    if above.is_empty() {
        return Ok(());
    }
    write_levels(
        port,
        above,
        level + 1,
        pages,
        at + first.made.len(),
        scratch,
    )
}

/// Writes nodes of one level to the pages from number `at` of the list on.
fn write_nodes<P: Port>(
    port: &mut P,
    nodes: &NodeRun,
    level: u8,
    pages: &mut FreshPages<P::S>,
    at: usize,
    scratch: &mut Scratch,
) -> Result<(), DeviceFault>
    requires size { IsTrue (is_page_size (P.meter port.old).page) }
    requires prepared { IsPrepared (P.meter port.old).page scratch.old }
    requires lowest { 1 ≤ level }
    requires made { AllByRecursion (IsMade (room_of (P.meter port.old).page)) nodes.now }
    requires within { at + length nodes.now ≤ length pages.old.pages }
    requires fits { length pages.old.pages < 2 ^ 63 }
    requires sized { AreAllOf P.S.tells (P.meter port.old).page pages.old.pages }
    ensures written { OnOk result (IsTrue P.S.tells
        → AreNodesWritten level nodes.now (drop at pages.new.pages)) }
    ensures before { take at pages.new.pages ≡ take at pages.old.pages }
    ensures same { AreSamePages pages.old.pages pages.new.pages }
    ensures sized { AreAllOf P.S.tells (P.meter port.old).page pages.new.pages }
    ensures prepared { IsPrepared (P.meter port.old).page scratch.new }
    ensures writes { Writes (length nodes.now) (P.meter port.old) (P.meter port.new) }
    ensures cause { HasCause (P.meter port.old).faults (P.meter port.new).faults (IsErr result) }
{
    let mut left = nodes.pairs();
    for number in 0..nodes.len() {
        let (here, behind) = left.split_at(nodes.counts()[number]);
        write_node(port, level, here, pages, at + number, scratch)?;
        left = behind;
    }
    Ok(())
}

/// Writes a node to the page with this number in the list.
fn write_node<P: Port>(
    port: &mut P,
    level: u8,
    pairs: &[Pair],
    pages: &mut FreshPages<P::S>,
    index: usize,
    scratch: &mut Scratch,
) -> Result<(), DeviceFault>
    requires size { IsTrue (is_page_size (P.meter port.old).page) }
    requires prepared { IsPrepared (P.meter port.old).page scratch.old }
    requires lowest { 1 ≤ level }
    requires made { IsMade (room_of (P.meter port.old).page)
        (record { page = 0; pairs = pairs.now }) }
    requires within { index < length pages.old.pages }
    requires sized { AreAllOf P.S.tells (P.meter port.old).page pages.old.pages }
    ensures written { OnOk result (IsTrue P.S.tells
        → NodeBytes (slice_index_or pages.new.pages index no_fresh_page).bytes level pairs.now) }
    ensures one { IsPageWritten index pages.old.pages pages.new.pages }
    ensures sized { AreAllOf P.S.tells (P.meter port.old).page pages.new.pages }
    ensures prepared { IsPrepared (P.meter port.old).page scratch.new }
    ensures writes { Writes 1 (P.meter port.old) (P.meter port.new) }
    ensures cause { HasCause (P.meter port.old).faults (P.meter port.new).faults (IsErr result) }
{
    set_node(&mut scratch.node, level, pairs);
    encode(&scratch.node, &mut scratch.page);
    pages.write(port, index, &scratch.page)
}

/// The node becomes one of this level with these pairs. It takes no memory.
fn set_node(node: &mut Node, level: u8, pairs: &[Pair])
    requires { length pairs.now ≤ node.old.pairs.room }
    ensures level { node.new.level ≡ level }
    ensures pairs { node.new.pairs.items ≡ pairs.now }
    ensures room { node.new.pairs.room ≡ node.old.pairs.room }
{
    node.level = level;
    node.pairs.copy_from(pairs);
}

/// Keeps the made nodes of these levels, of which the lowest is `level`.
pub fn keep_levels(cache: &mut Cache, levels: &[Remade], level: u8, node: &mut Node)
    requires few { level + length levels.now ≤ 256 }
    requires made { AreAllMade node.old.pairs.room levels.now }
    ensures kept { (told : Bool) (size : ℕ) (at : Pages) → KeepsNodes told size at cache.old
        → AreAllMade (room_of size) levels.now → (IsTrue told → MadeStand at level levels.now)
        → KeepsNodes told size at cache.new }
    ensures room { node.new.pairs.room ≡ node.old.pairs.room }
{
    let [first, above @ ..] = levels else {
        return;
    };
    keep_nodes(cache, &first.made, level, node);
    if above.is_empty() {
        return;
    }
    keep_levels(cache, above, level + 1, node);
}

/// Keeps nodes of one level.
fn keep_nodes(cache: &mut Cache, nodes: &NodeRun, level: u8, node: &mut Node)
    requires made { AllByRecursion (IsMade node.old.pairs.room) nodes.now }
    ensures kept { (told : Bool) (size : ℕ) (at : Pages) → KeepsNodes told size at cache.old
        → AllByRecursion (IsMade (room_of size)) nodes.now
        → (IsTrue told → AllByRecursion (λ n. NodeBytes (at n.page) level n.pairs) nodes.now)
        → KeepsNodes told size at cache.new }
    ensures room { node.new.pairs.room ≡ node.old.pairs.room }
{
    let mut left = nodes.pairs();
    for number in 0..nodes.len() {
        let (here, behind) = left.split_at(nodes.counts()[number]);
        set_node(node, level, here);
        cache.keep(nodes.pages()[number], node);
        left = behind;
    }
}

/// Drops the nodes of the pages of these runs.
pub fn forget_runs(cache: &mut Cache, runs: &[PageRun])
    ensures { (told : Bool) (size : ℕ) (at : Pages) → KeepsNodes told size at cache.old
        → KeepsNodes told size at cache.new }
{
    for run in runs {
        cache.forget_run(run.first, run.pages);
    }
}
