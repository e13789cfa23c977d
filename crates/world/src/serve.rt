//! A command on an object, in an open transaction.

ghost use Rattle.std.specs.Prelude.{◌≡◌, ◌↔◌, true, false, Some, None, Err, IsSome, IfErr, OnErr};
ghost use Rattle.std.specs.Prelude.{OnOk, is_some};
ghost use Rattle.eos_ops.specs.Objects.{object_of, is_too_long};
ghost use Rattle.shadow_txn.specs.Held.{held_object};
ghost use Rattle.world.specs.Served.{IsAnswer};
ghost use Rattle.world.specs.Session.{IsSoundSession, hold_reply};

use crate::answer::answer;
use eos_ops::{Blank, Command, Reply};
use object_locks::SoloShelf;
use shadow_txn::{HoldFail, PlainObject, Txn};
use std::alloc::Global;

/// The objects of a world, each home or with a session.
pub type Objects = SoloShelf<PlainObject<Blank>>;

/// Runs a command on object `o`. The transaction holds the object from then on, unless it is
/// refused, or there is no memory: then nothing has changed.
pub fn serve(
    txn: &mut Txn<Blank>,
    objects: &mut Objects,
    alloc: Global,
    o: u64,
    command: Command,
) -> Reply
    requires open { txn.old.is_open ≡ true }
    requires sound { IsSoundSession objects.old txn.old }
    requires short { is_too_long command ≡ false }
    requires object { object_of command ≡ Some o }
    ensures { IsAnswer command o result objects.old txn.old objects.new txn.new }
{
    let was_held = txn.holds(o);
    if let Err(fail) = txn.hold(objects, o) {
        return refusal(fail);
    }
    match answer(txn, alloc, o, command) {
        Ok(reply) => reply,
        Err(_) if was_held => Reply::Memory,
        Err(_) => {
            txn.unhold(objects, o);
            Reply::Memory
        }
    }
}

/// A refused hold as a reply.
fn refusal(fail: HoldFail) -> Reply
    ensures { result ≡ hold_reply fail }
{
    match fail {
        HoldFail::NoObject => Reply::NoObject,
        HoldFail::Full => Reply::Full,
        HoldFail::Busy => Reply::Busy,
        HoldFail::Worn => Reply::Worn,
        HoldFail::Memory => Reply::Memory,
    }
}
