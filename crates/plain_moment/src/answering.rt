//! What an edit of an object is answered over the pages that a moment leaves free.

ghost use Rattle.std.specs.Prelude.{◌≡◌, ◌+◌, ◌<◌, nat_le, IfOk};
ghost use Rattle.moment_model.specs.Edit.{accepts, edited_slot};
ghost use Rattle.moment_model.specs.Moment.{object_slot};
ghost use Rattle.moment_model.specs.Run.{answer_to, is_accepted};
ghost use Rattle.plain_layout.specs.Answers.{answered};
ghost use Rattle.plain_plan.specs.Store.{numbers_of};

use crate::counting::free_of;
use crate::editing::edited_slot;
use crate::slot::ObjectSlot;
use crate::version::tree_bytes;
use eos_ops::Edit;
use plain_layout::Answer;
use plain_plan::{Fail, Store, rem};
use std::alloc::Global;

/// The slot of an object, an absent one where there is no such object.
fn copy_slot(alloc: Global, moment: &[ObjectSlot], object: u64) -> Result<ObjectSlot, Fail>
    ensures { IfOk result (λ slot. slot ≡ object_slot moment.now object) }
{
    if object < moment.len() as u64 {
        moment[object as usize].copy(alloc)
    } else {
        Ok(ObjectSlot::absent())
    }
}

/// The object's slot after an edit of a session, or the pages that no space had a place for.
pub fn answer_to(
    alloc: Global,
    store: &Store,
    session: u32,
    moment: &[ObjectSlot],
    object: u64,
    edit: &Edit,
) -> Result<Answer<ObjectSlot>, Fail>
    ensures { IfOk result (λ answer. answered (λ after. after) answer
        ≡ answer_to edited_slot (numbers_of store.now) moment.now session object edit.now) }
{
    let start = rem((session as u64).saturating_sub(1), store.spaces)?;
    let free = free_of(alloc, store, moment)?;
    let slot = copy_slot(alloc, moment, object)?;
    edited_slot(alloc, store, start, &free, &slot, edit)
}

/// Whether an object of so many bytes, or an absent one, takes the edit.
fn accepts(size: Option<u64>, edit: &Edit) -> bool
    ensures { result ≡ accepts size edit.now }
{
    let Some(size) = size else {
        return matches!(edit, Edit::Create { .. });
    };
    match edit {
        Edit::Create { .. } => false,
        Edit::Destroy | Edit::Append(_) => true,
        Edit::Insert { at, .. } => *at <= size,
        Edit::Delete { at, len } => has_range(size, *at, *len),
        Edit::Replace { at, bytes } => has_range(size, *at, bytes.len()),
    }
}

/// Whether so many bytes from `at` on lie within `size` bytes.
fn has_range(size: u64, at: u64, len: u64) -> bool
    ensures { result ≡ nat_le (at + len) size }
{
    at <= size && len <= size - at
}

/// Whether the object doesn't refuse the edit.
pub fn is_accepted(
    alloc: Global,
    moment: &[ObjectSlot],
    object: u64,
    edit: &Edit,
) -> Result<bool, Fail>
    ensures { IfOk result (λ is. is ≡ is_accepted moment.now object edit.now) }
{
    let slot = copy_slot(alloc, moment, object)?;
    let size = match slot.working() {
        None => None,
        Some(tree) => Some(tree_bytes(alloc, tree)?),
    };
    Ok(accepts(size, edit))
}
