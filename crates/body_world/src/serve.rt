//! A command on an object, in an open transaction.

ghost use Rattle.std.specs.Prelude.{◌≡◌, ◌<◌, ◌-◌, ◌%◌, true, false, Some, None, IfSome};
ghost use Rattle.eos_ops.specs.Objects.{object_of, is_too_long};
ghost use Rattle.geometry_model.specs.Numbers.{Numbers};
ghost use Rattle.superdirectory.specs.Rest.{count};
ghost use Rattle.superdirectory.specs.Solo.{rest_of};
ghost use Rattle.world.specs.Session.{hold_reply};
ghost use Rattle.body_world.specs.Served.{IsAnswer, MakesCommand, NamesThresholdIn, works_of};
ghost use Rattle.body_world.specs.Served.{IsOfStore, is_memory as is_memory_reply};
ghost use Rattle.body_world.specs.Session.{shown_by, IsSoundSession};

use crate::answer::answer;
use body_txn::Txn;
use eos_ops::{Blank, Command, Reply};
use object_body::{Body, Object};
use object_locks::SoloShelf;
use page_port::Port;
use shadow_txn::HoldFail;
use std::alloc::Global;
use superdirectory::Solo;

/// Runs a command on object `o`. The transaction holds the object from then on, unless it is
/// refused, or there is no memory: then an object that wasn't held isn't held.
pub fn serve<P: Port, B: Body<P = P>>(
    txn: &mut Txn<B, Blank>,
    objects: &mut SoloShelf<Object<B, Blank>>,
    spaces: &mut Solo<P::S>,
    port: &mut P,
    alloc: Global,
    o: u64,
    command: Command,
) -> Reply
    requires open { txn.old.is_open ≡ true }
    requires sound { IsSoundSession objects.old txn.old }
    requires short { is_too_long command ≡ false }
    requires object { object_of command ≡ Some o }
    requires threshold { NamesThresholdIn command }
    requires store { (n : Numbers) × IsOfStore (shown_by B.form B.told) n objects.old
        txn.old (works_of spaces.old (P.meter port.old)) }
    requires some { 0 < count (rest_of spaces.old) }
    ensures { IsAnswer P.S.tells B.suits (shown_by B.form B.told)
        (MakesCommand P.S.tells B.suits B.laid B.may_refuse B.may_write B.may_read
        ((txn.old.session - 1) % count (rest_of spaces.old)) command result)
        command o result objects.old txn.old (works_of spaces.old (P.meter port.old))
        objects.new txn.new (works_of spaces.new (P.meter port.new)) }
{
    let took = match txn.hold(objects, o) {
        Ok(took) => took,
        Err(fail) => return refusal(fail),
    };
    let reply = answer(txn, spaces, port, alloc, o, command);
    if !took {
        return reply;
    }
    if !is_memory(&reply) {
        return reply;
    }
    txn.unhold(objects, o);
    reply
}

/// Whether there was no memory for the answer.
fn is_memory(reply: &Reply) -> bool
    ensures { result ≡ is_memory_reply reply.now }
{
    matches!(reply, Reply::Memory)
}

/// A refused hold as a reply.
fn refusal(fail: HoldFail) -> Reply
    ensures { result ≡ hold_reply fail }
{
    match fail {
        HoldFail::NoObject => Reply::NoObject,
        HoldFail::Full => Reply::Full,
        HoldFail::Busy => Reply::Busy,
        HoldFail::Worn => Reply::Worn,
        HoldFail::Memory => Reply::Memory,
    }
}
