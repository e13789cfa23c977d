//! A world before its first command, and its parts.

ghost use Rattle.std.specs.Prelude.{◌≡◌, map, IfOk};
ghost use Rattle.std.specs.List.{range_with_len};
ghost use Rattle.eos_ops.specs.declared.limits.TheConstants.{SESSIONS};
ghost use Rattle.geometry_model.specs.Numbers.{objects};
ghost use Rattle.body_world.specs.Start.{first_txn};

use body_txn::Txn;
use eos_ops::{Blank, SESSIONS};
use object_body::{Body, Object};
use page_port::{Geometry, Port};
use space_directory::Space;
use std::alloc::{AllocError, Global};

/// The parts of a world that isn't made, or is over.
#[derive(Drop)]
pub struct Unmade<P: Port, B> {
    /// The spaces of the store, in the order of their numbers.
    pub spaces: Vec<Space<P::S>>,
    /// Its objects, in the order of theirs.
    pub objects: Vec<Object<B, Blank>>,
    /// The port to its device.
    pub port: P,
}

/// The places of all sessions, over the objects of a store. No transaction is open.
pub fn idle_sessions<B: Body>(
    alloc: Global,
    geometry: &Geometry,
) -> Result<Vec<Txn<B, Blank>>, AllocError>
    ensures { IfOk result (λ txns. txns.items ≡ map (first_txn (objects geometry.now))
        (range_with_len 0 SESSIONS)) }
{
    let mut txns = Vec::with_capacity(alloc, SESSIONS as usize)?;
    for place in 0..SESSIONS {
        txns.push(Txn::new(alloc, place + 1, geometry)?)?;
    }
    Ok(txns)
}
