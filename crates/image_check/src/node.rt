//! The first checks of a node: its page, that it is met for the first time, and what it holds.

ghost use Rattle.std.specs.Prelude.{◌≡◌, ◌-◌, ◌≤◌, ◌&&◌, length, nat_eq, nat_le, IsTrue, IsErr};
ghost use Rattle.std.specs.Prelude.{OnOk};
ghost use Rattle.std.specs.Result.{result_err};
ghost use Rattle.fault_count.specs.Counts.{HasCause, Reads};
ghost use Rattle.tree_model.specs.Node.{NodeBytes, room_of};
ghost use Rattle.span_store.specs.Held.{AllSized, bytes_on, has};
ghost use Rattle.geometry_model.specs.Numbers.{is_page_size};
ghost use Rattle.geometry_model.specs.Pages.{is_data_page};
ghost use Rattle.image_model.specs.Checks.{holds_node};
ghost use Rattle.image_check.specs.Owners.{is_number, owned};
ghost use Rattle.image_check.specs.Verdicts.{AsksCheck, Judged, check_head};

use crate::failure::CheckFail;
use crate::tree::Named;
use crate::walk::Walk;
use node_codec::{Node, decode};
use page_port::{DeviceFault, Geometry, Port};
use span_store::Holdings;

/// Comes to the node that is named: it is read into `node`, by way of `room`, where its page is met
/// for the first time and isn't free.
pub fn enter<P: Port>(
    geometry: &Geometry,
    object: u16,
    held: &Holdings<P::S>,
    port: &mut P,
    walk: &mut Walk,
    room: &mut [u8],
    node: &mut Node,
    named: Named,
) -> Result<(), CheckFail>
    requires asks { AsksCheck P.S.tells geometry.now (P.meter port.old).page held.now walk.old }
    requires object { is_number object }
    requires room { length room.old ≡ geometry.now.page }
    requires node { room_of geometry.now.page ≤ node.old.pairs.room }
    ensures judged { Judged (IsTrue P.S.tells) geometry.now held.now object walk.old walk.new
        (result_err result) (λ bytes. check_head geometry.now bytes object named.level named.least
        named.pair.page) }
    ensures held { OnOk result (IsTrue (has held.now named.pair.page)) }
    ensures told { OnOk result (IsTrue P.S.tells → NodeBytes (bytes_on held.now named.pair.page)
        node.new.level node.new.pairs.items) }
    ensures memory { result ≡ Err CheckFail.Memory → ⊥ }
    ensures room { node.new.pairs.room ≡ node.old.pairs.room }
    ensures reads { Reads (owned walk.new - owned walk.old) (P.meter port.old) (P.meter port.new) }
    ensures cause { HasCause (P.meter port.old).faults (P.meter port.new).faults
        (result ≡ Err CheckFail.Fault) }
{
    // Who asks for the page size learns that all numbers are in range.
    let _size = geometry.page();
    let page = named.pair.page;
    if !is_data_page(geometry, page) {
        return Err(CheckFail::BadTree { object });
    }
    walk.meet(page, object)?;
    read_page(held, port, page, room)?;
    if !holds_node(room, node) {
        return Err(CheckFail::BadNode { page });
    }
    if is_filled(node, named) {
        Ok(())
    } else {
        Err(CheckFail::BadTree { object })
    }
}

/// Is it a data page?
fn is_data_page(geometry: &Geometry, page: u32) -> bool
    ensures { result ≡ is_data_page geometry.now page }
{
    geometry.place(page).is_some()
}

/// Does the page hold a node? Then `node` is that one.
fn holds_node(page: &[u8], node: &mut Node) -> bool
    requires size { IsTrue (is_page_size (length page.now)) }
    requires room { room_of (length page.now) ≤ node.old.pairs.room }
    ensures exact { result ≡ holds_node (length page.now) page.now }
    ensures node { IsTrue result → NodeBytes page.now node.new.level node.new.pairs.items }
    ensures room { node.new.pairs.room ≡ node.old.pairs.room }
{
    decode(page, node).is_ok()
}

/// Has the node the level that is named, and pairs enough?
fn is_filled(node: &Node, named: Named) -> bool
    ensures { result ≡ (nat_eq node.now.level named.level
        && nat_le named.least (length node.now.pairs.items)) }
{
    node.level == named.level && named.least as usize <= node.pairs.len()
}

/// Reads a page that is held, by one call of the port.
fn read_page<P: Port>(
    held: &Holdings<P::S>,
    port: &mut P,
    page: u32,
    room: &mut [u8],
) -> Result<(), DeviceFault>
    requires sized { AllSized P.S.tells (P.meter port.old).page held.now }
    requires held { IsTrue (has held.now page) }
    requires some { 1 ≤ (P.meter port.old).page }
    requires room { length room.old ≡ (P.meter port.old).page }
    ensures bytes { OnOk result (IsTrue P.S.tells → room.new ≡ bytes_on held.now page) }
    ensures reads { Reads 1 (P.meter port.old) (P.meter port.new) }
    ensures cause { HasCause (P.meter port.old).faults (P.meter port.new).faults (IsErr result) }
{
    held.read_run(port, page, room)
}
