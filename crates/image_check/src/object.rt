//! The check of one object: the tree under its catalog entry.

ghost use Rattle.std.specs.Prelude.{◌≡◌, ℕ, ◌-◌, ◌<◌, ◌≤◌, IsTrue, OnOk, None};
ghost use Rattle.std.specs.Result.{result_err};
ghost use Rattle.fault_count.specs.Counts.{HasCause, Reads};
ghost use Rattle.image_format.specs.Entries.{model_entry};
ghost use Rattle.image_model.specs.Checks.{check_tree};
ghost use Rattle.image_check.specs.Owners.{is_number, owned};
ghost use Rattle.image_check.specs.Verdicts.{AsksCheck, Judged};
ghost use Rattle.image_check.specs.Rooms.{IsPrepared};

use crate::failure::CheckFail;
use crate::path::Path;
use crate::tree::{Named, Tree, check_named};
use crate::walk::Walk;
use image_format::CatalogEntry;
use page_port::{Geometry, Port};
use span_store::Holdings;
use std::alloc::Global;
use tree_model::Pair;

/// Checks the tree of an object: each node and segment in the order of the definition, the nodes
/// read by one call of the port each. Its pages are the object's afterwards.
///
/// # Errors
/// The first check of the definition that fails. `Fault` where the device failed. `Memory` where
/// there was no room for a node of each level: then nothing was read, and nothing changed.
pub fn check_object<P: Port>(
    alloc: Global,
    geometry: &Geometry,
    object: u16,
    entry: CatalogEntry,
    held: &Holdings<P::S>,
    port: &mut P,
    walk: &mut Walk,
    path: &mut Path,
) -> Result<(), CheckFail>
    requires asks { AsksCheck P.S.tells geometry.now (P.meter port.old).page held.now walk.old }
    requires object { is_number object }
    requires room { IsPrepared geometry.now.page 0 path.old }
    ensures judged { Judged (IsTrue P.S.tells) geometry.now held.now object walk.old walk.new
        (result_err result) (λ bytes. check_tree geometry.now bytes object (model_entry entry)) }
    ensures room { OnOk result (IsPrepared geometry.now.page 0 path.new) }
    ensures memory { result ≡ Err CheckFail.Memory → (walk.new ≡ walk.old)
        × (P.meter port.new ≡ P.meter port.old) }
    ensures reads { Reads (owned walk.new - owned walk.old) (P.meter port.old) (P.meter port.new) }
    ensures cause { HasCause (P.meter port.old).faults (P.meter port.new).faults
        (result ≡ Err CheckFail.Fault) }
{
    let CatalogEntry::Present {
        height,
        root,
        length,
        threshold,
    } = entry
    else {
        return Ok(());
    };
    if height == 0 {
        return Ok(());
    }
    path.prepare(alloc, geometry, height)?;
    walk.set_before(None);
    let named = Named {
        level: height,
        least: if height == 1 { 1 } else { 2 },
        pair: Pair {
            bytes: length,
            page: root,
        },
    };
    let tree = Tree { object, threshold };
    check_named(geometry, tree, held, port, walk, path, named)
}
