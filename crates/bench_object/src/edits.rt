//! Edits of the object at random places, each of them settled.

ghost use Rattle.bench_object.specs.Store.{CanEdit};
ghost use Rattle.object_body.specs.Form.{NamesThreshold};
ghost use Rattle.object_state.specs.Tree.{tree_form};
ghost use Rattle.superdirectory.specs.Solo.{rest_of};

use crate::store::Store;
use eos_ops::{Bytes, Edit};
use std::alloc::Global;

/// How many bytes an append has while the object is filled.
const STEP: u64 = 1 << 20;

/// Makes the object, and appends until it has so many bytes.
pub fn fill(alloc: Global, store: &mut Store, bytes: u64) -> Option<()>
    requires { CanEdit (tree_form store.old.body).numbers store.old.port.page
        (rest_of store.old.latches) }
    ensures { CanEdit (tree_form store.new.body).numbers store.new.port.page
        (rest_of store.new.latches) }
{
    edit_one(alloc, store, &Edit::Create { threshold: None })?;
    'steps: for _step in 0..bytes / STEP {
        edit_one(alloc, store, &Edit::Append(some_bytes(alloc, STEP)?))?;
    }
    edit_one(
        alloc,
        store,
        &Edit::Append(some_bytes(alloc, bytes % STEP)?),
    )
}

/// Puts in and takes out so many bytes in turn, at places that a generator draws.
pub fn edit_rounds(alloc: Global, store: &mut Store, bytes: u64, rounds: u32) -> Option<()>
    requires { CanEdit (tree_form store.old.body).numbers store.old.port.page
        (rest_of store.old.latches) }
    ensures { CanEdit (tree_form store.new.body).numbers store.new.port.page
        (rest_of store.new.latches) }
{
    let mut draw: u64 = 1;
    'rounds: for round in 0..rounds {
        draw = draw
            .wrapping_mul(6_364_136_223_846_793_005)
            .wrapping_add(1_442_695_040_888_963_407);
        let length = store.body.length()?;
        if length <= bytes {
            return None;
        }
        let at = (draw >> 11) % (length - bytes);
        if round % 2 == 0 {
            let bytes = some_bytes(alloc, bytes)?;
            edit_one(alloc, store, &Edit::Insert { at, bytes })?;
        } else {
            edit_one(alloc, store, &Edit::Delete { at, len: bytes })?;
        }
    }
    Some(())
}

/// So many bytes, all of them the same.
fn some_bytes(alloc: Global, count: u64) -> Option<Bytes> {
    match vec![in alloc; 7; count as usize] {
        Ok(bytes) => Some(Bytes::from_vec(bytes)),
        Err(_) => None,
    }
}

/// Makes an edit, and settles it. None says that the file, the spaces or the memory refused it, and
/// then nothing changed.
fn edit_one(alloc: Global, store: &mut Store, edit: &Edit) -> Option<()>
    requires can { CanEdit (tree_form store.old.body).numbers store.old.port.page
        (rest_of store.old.latches) }
    requires threshold { NamesThreshold edit.now }
    ensures { CanEdit (tree_form store.new.body).numbers store.new.port.page
        (rest_of store.new.latches) }
{
    let done = store.body.edit(alloc, &mut store.port, &mut store.latches, &mut (), 0, edit);
    let Ok(_) = done else {
        return None;
    };
    store.body.settle(&mut store.latches, &mut ());
    Some(())
}
