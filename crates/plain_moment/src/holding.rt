//! Who holds an object after a reply, and what replies say.

ghost use Rattle.std.specs.Prelude.{◌≡◌, Some, None, replicate, IfOk, IsTrue, slice_set};
ghost use Rattle.moment_model.specs.Moment.{with_object_slot};
ghost use Rattle.moment_model.specs.Run.{is_ok_reply};
ghost use Rattle.plain_moment.specs.Stored.{is_taken, is_bare, is_look, is_memory};

use crate::slot::ObjectSlot;
use eos_ops::Reply;
use plain_plan::{Fail, cons};
use std::alloc::Global;

/// So many objects that nobody holds.
#[tactic(auto, using(crate::proofs::Steps::replicate_more))]
pub fn unheld(alloc: Global, objects: u64) -> Result<Vec<Option<u32>>, Fail>
    ensures { IfOk result (λ holders. holders.items ≡ replicate objects None) }
{
    if objects == 0 {
        return Ok(Vec::new(alloc));
    }
    cons(None, unheld(alloc, objects - 1)?)
}

/// Gives an object to a session, where there is such an object.
pub fn hold(holders: &mut Vec<Option<u32>>, object: u64, session: u32)
    ensures { holders.new.items ≡ slice_set holders.old.items object (Some session) }
{
    if object < holders.len() as u64 {
        holders[object as usize] = Some(session);
    }
}

/// Puts a slot in the place of an object's, where there is such an object.
pub fn put(moment: &mut Vec<ObjectSlot>, object: u64, slot: ObjectSlot)
    ensures { moment.new.items ≡ with_object_slot moment.old.items object slot }
{
    if object < moment.len() as u64 {
        moment[object as usize] = slot;
    }
}

/// Whether the reply is of an object that is at hand.
pub fn is_taken(reply: &Reply) -> bool
    ensures { result ≡ is_taken reply.now }
{
    matches!(
        reply,
        Reply::Ok
            | Reply::Length(_)
            | Reply::Bytes(_)
            | Reply::Range(_)
            | Reply::Exists
            | Reply::Missing
            | Reply::NoSpace(_)
            | Reply::Fault
    )
}

/// Whether the reply is of an object that is only looked at.
pub fn is_look(reply: &Reply) -> bool
    ensures { result ≡ is_look reply.now }
{
    matches!(reply, Reply::Length(_) | Reply::Missing)
}

pub fn is_memory(reply: &Reply) -> bool
    ensures { result ≡ is_memory reply.now }
{
    matches!(reply, Reply::Memory)
}

pub fn is_ok_reply(reply: &Reply) -> bool
    ensures { result ≡ is_ok_reply reply.now }
{
    matches!(reply, Reply::Ok)
}

/// A reply that says nothing of the pages and of the device; another one is given up, and so is
/// want of memory.
pub fn bare(reply: Reply) -> Result<Reply, Fail>
    ensures same { IfOk result (λ r. r ≡ reply) }
    ensures bare { IfOk result (λ r. IsTrue (is_bare r)) }
{
    match &reply {
        Reply::NoSpace(_) | Reply::Status { .. } | Reply::Fault => Err(Fail::Big),
        Reply::Memory => Err(Fail::Memory),
        _ => Ok(reply),
    }
}
