//! A world before its first command.

ghost use Rattle.std.specs.Prelude.{◌≡◌, map, replicate, Some, IfOk};
ghost use Rattle.std.specs.List.{range_with_len};
ghost use Rattle.eos_ops.specs.declared.limits.TheConstants.{SESSIONS};
ghost use Rattle.world.specs.Start.{first_object, first_txn};

use crate::serve::Objects;
use eos_ops::{Blank, Plain, SESSIONS};
use object_locks::SoloShelf;
use shadow_txn::{PlainObject, Txn};
use std::alloc::{AllocError, Global};

/// So many absent objects, all home.
pub fn absent_objects(alloc: Global, count: u32) -> Result<Objects, AllocError>
    ensures { IfOk result (λ objects. objects ≡ replicate count (Some first_object)) }
{
    let mut objects = Vec::with_capacity(alloc, count as usize)?;
    for _object in 0..count {
        objects.push(PlainObject {
            committed: Plain::Absent,
            working: None,
            annals: Blank::at(0),
        })?;
    }
    match SoloShelf::new(alloc, objects) {
        Ok(shelf) => Ok(shelf),
        Err(_) => Err(AllocError),
    }
}

/// The places of all sessions, over so many objects. No transaction is open.
pub fn idle_sessions(alloc: Global, objects: u32) -> Result<Vec<Txn<Blank>>, AllocError>
    ensures { IfOk result (λ txns. txns.items ≡ map (first_txn objects)
        (range_with_len 0 SESSIONS)) }
{
    let mut txns = Vec::with_capacity(alloc, SESSIONS as usize)?;
    for place in 0..SESSIONS {
        txns.push(Txn::new(alloc, place + 1, objects)?)?;
    }
    Ok(txns)
}
