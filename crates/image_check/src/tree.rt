//! The walk of a tree: each node before what its pairs name, and these from left to right.

ghost use Rattle.std.specs.Prelude.{◌≡◌, ℕ, ◌+◌, ◌-◌, ◌*◌, ◌/◌, ◌<◌, ◌≤◌, IsTrue, OnOk};
ghost use Rattle.std.specs.Result.{result_err};
ghost use Rattle.fault_count.specs.Counts.{HasCause, Reads};
ghost use Rattle.image_check.specs.Owners.{is_number, owned};
ghost use Rattle.image_check.specs.Verdicts.{AsksCheck, Judged, check_named, check_pairs};
ghost use Rattle.image_check.specs.Rooms.{IsPrepared, KeepsRoom};

use crate::failure::CheckFail;
use crate::node::enter;
use crate::path::Path;
use crate::segment::check_segments;
use crate::sum::have_bytes;
use crate::walk::Walk;
use page_port::{Geometry, Port};
use span_store::Holdings;
use tree_model::Pair;

/// Whose tree is walked, and the threshold of its segments in pages.
#[derive(Clone, Copy)]
pub struct Tree {
    pub object: u16,
    pub threshold: u16,
}

/// A node as the one above it names it: its level, how many pairs it has at least, and the pair.
#[derive(Clone, Copy)]
pub struct Named {
    pub level: u8,
    pub least: u32,
    pub pair: Pair,
}

/// Checks the node that is named, all below it, and then its sum.
#[cycle(walk)]
pub fn check_named<P: Port>(
    geometry: &Geometry,
    tree: Tree,
    held: &Holdings<P::S>,
    port: &mut P,
    walk: &mut Walk,
    path: &mut Path,
    named: Named,
) -> Result<(), CheckFail>
    requires asks { AsksCheck P.S.tells geometry.now (P.meter port.old).page held.now walk.old }
    requires object { is_number tree.object }
    requires room { IsPrepared geometry.now.page named.level path.old }
    ensures judged { Judged (IsTrue P.S.tells) geometry.now held.now tree.object walk.old walk.new
        (result_err result) (λ bytes. check_named geometry.now bytes tree.object tree.threshold
        named.level named.least named.pair) }
    ensures room { OnOk result (KeepsRoom geometry.now.page path.old path.new) }
    ensures memory { result ≡ Err CheckFail.Memory → ⊥ }
    ensures reads { Reads (owned walk.new - owned walk.old) (P.meter port.old) (P.meter port.new) }
    ensures cause { HasCause (P.meter port.old).faults (P.meter port.new).faults
        (result ≡ Err CheckFail.Fault) }
{
    let object = tree.object;
    if named.level == 0 {
        return Err(CheckFail::BadTree { object });
    }
    let Some(mut node) = path.nodes.pop() else {
        unreachable!()
    };
    enter(
        geometry,
        object,
        held,
        port,
        walk,
        &mut path.page,
        &mut node,
        named,
    )?;
    check_pairs(
        geometry,
        tree,
        held,
        port,
        walk,
        path,
        named.level,
        node.pairs.as_slice(),
    )?;
    let fits = have_bytes(node.pairs.as_slice(), named.pair.bytes);
    path.nodes.push_reserved(node);
    if fits {
        Ok(())
    } else {
        Err(CheckFail::BadTree { object })
    }
}

/// Checks what the pairs of a node of this level name, from left to right.
#[cycle(walk)]
fn check_pairs<P: Port>(
    geometry: &Geometry,
    tree: Tree,
    held: &Holdings<P::S>,
    port: &mut P,
    walk: &mut Walk,
    path: &mut Path,
    level: u8,
    pairs: &[Pair],
) -> Result<(), CheckFail>
    requires asks { AsksCheck P.S.tells geometry.now (P.meter port.old).page held.now walk.old }
    requires object { is_number tree.object }
    requires level { 1 ≤ level }
    requires room { IsPrepared geometry.now.page (level - 1) path.old }
    ensures judged { Judged (IsTrue P.S.tells) geometry.now held.now tree.object walk.old walk.new
        (result_err result) (λ bytes. check_pairs geometry.now bytes tree.object tree.threshold
        (level - 1) pairs.now) }
    ensures room { OnOk result (KeepsRoom geometry.now.page path.old path.new) }
    ensures memory { result ≡ Err CheckFail.Memory → ⊥ }
    ensures reads { Reads (owned walk.new - owned walk.old) (P.meter port.old) (P.meter port.new) }
    ensures cause { HasCause (P.meter port.old).faults (P.meter port.new).faults
        (result ≡ Err CheckFail.Fault) }
{
    if level == 1 {
        return check_segments(geometry, tree, pairs, walk);
    }
    let level = level - 1;
    let least = geometry.fan_out() / 2;
    for pair in pairs {
        let named = Named {
            level,
            least,
            pair: *pair,
        };
        check_named(geometry, tree, held, port, walk, path, named)?;
    }
    Ok(())
}
