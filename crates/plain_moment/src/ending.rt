//! What the end of a transaction makes of the objects that it held.

ghost use Rattle.std.specs.Prelude.{◌≡◌, IfOk, map};
ghost use Rattle.moment_model.specs.Edit.{settled, undone};
ghost use Rattle.machine.specs.Machine.{is_holder};
ghost use Rattle.moment_model.specs.Run.{changed_where};
ghost use Rattle.plain_moment.specs.Holders.{holder_of, ended_slot, ended_by};
ghost use Rattle.plain_moment.specs.Stored.{let_go};

use crate::slot::ObjectSlot;
use crate::version::copy_version;
use plain_plan::{Fail, add, cons};
use std::alloc::Global;

/// The slot after its transaction is committed.
pub fn settled(alloc: Global, slot: &ObjectSlot) -> Result<ObjectSlot, Fail>
    ensures { IfOk result (λ after. after ≡ settled slot.now) }
{
    let committed = copy_version(alloc, slot.working())?;
    let working = copy_version(alloc, slot.working())?;
    Ok(ObjectSlot::new(committed, working, None))
}

/// The slot after its transaction is aborted.
pub fn undone(alloc: Global, slot: &ObjectSlot) -> Result<ObjectSlot, Fail>
    ensures { IfOk result (λ after. after ≡ undone slot.now) }
{
    let committed = copy_version(alloc, slot.committed())?;
    let working = copy_version(alloc, slot.committed())?;
    Ok(ObjectSlot::new(committed, working, None))
}

/// Whether a session is the holder.
fn is_holder(session: u32, holder: Option<u32>) -> bool
    ensures { result ≡ is_holder session holder }
{
    match holder {
        None => false,
        Some(holder) => holder == session,
    }
}

/// The slot after the transaction that holds it ends.
fn ended_slot(alloc: Global, committed: bool, slot: &ObjectSlot) -> Result<ObjectSlot, Fail>
    ensures { IfOk result (λ after. after ≡ ended_slot committed slot.now) }
{
    if committed {
        settled(alloc, slot)
    } else {
        undone(alloc, slot)
    }
}

fn holder_of(holders: &[Option<u32>], object: u64) -> Option<u32>
    ensures { result ≡ holder_of holders.now object }
{
    if object < holders.len() as u64 {
        holders[object as usize]
    } else {
        None
    }
}

/// The slots from number `from` on after the transaction of a session ends.
fn ended_from(
    alloc: Global,
    session: u32,
    committed: bool,
    holders: &[Option<u32>],
    from: u64,
    slots: &[ObjectSlot],
) -> Result<Vec<ObjectSlot>, Fail>
    ensures { IfOk result (λ after. after.items
        ≡ changed_where (λ o. is_holder session (holder_of holders.now o))
        (ended_slot committed) from slots.now) }
{
    match slots {
        [] => Ok(Vec::new(alloc)),
        [slot, others @ ..] => {
            let after = if is_holder(session, holder_of(holders, from)) {
                ended_slot(alloc, committed, slot)?
            } else {
                slot.copy(alloc)?
            };
            let more = ended_from(alloc, session, committed, holders, add(from, 1)?, others)?;
            cons(after, more)
        }
    }
}

/// The moment after the transaction of a session ends.
pub fn ended_by(
    alloc: Global,
    session: u32,
    committed: bool,
    holders: &[Option<u32>],
    moment: &[ObjectSlot],
) -> Result<Vec<ObjectSlot>, Fail>
    ensures { IfOk result (λ after. after.items
        ≡ ended_by session committed holders.now moment.now) }
{
    ended_from(alloc, session, committed, holders, 0, moment)
}

/// The holders after the transaction of a session ends.
pub fn let_go(
    alloc: Global,
    session: u32,
    holders: &[Option<u32>],
) -> Result<Vec<Option<u32>>, Fail>
    ensures { IfOk result (λ left. left.items ≡ map (let_go session) holders.now) }
{
    match holders {
        [] => Ok(Vec::new(alloc)),
        [holder, others @ ..] => {
            let left = if is_holder(session, *holder) {
                None
            } else {
                *holder
            };
            cons(left, let_go(alloc, session, others)?)
        }
    }
}
