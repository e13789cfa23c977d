//! The first edit of a transaction: an edited copy of the committed version.
//!
//! The copy is made in one piece, with room for just the edited bytes.

ghost use Rattle.std.specs.Prelude.{◌≡◌, ◌+◌, ◌≤◌, ◌++◌, length, take, drop, IfOk, OnErr};
ghost use Rattle.eos_ops.specs.declared.outcome.Outcome.TheVariants.{Done};
ghost use Rattle.eos_ops.specs.Edits.{outcome_in, edited};
ghost use Rattle.object_body.specs.Memory.{EditMayTakeMemory};

use eos_ops::{Bytes, Edit, Plain};
use std::alloc::{AllocError, Global};

/// The edited object as a new one.
pub(crate) fn edited_copy(alloc: Global, edit: &Edit, object: &Plain) -> Result<Plain, AllocError>
    requires { outcome_in edit.now object.now ≡ Done }
    ensures copy { IfOk result (λ copy. copy ≡ edited edit.now object.now) }
    ensures memory { OnErr result (EditMayTakeMemory edit.now) }
{
    let Plain::Present(bytes) = object else {
        return Ok(Plain::Present(Bytes::new(alloc)));
    };
    let old = bytes.as_slice();
    let copy = match edit {
        Edit::Create { .. } | Edit::Destroy => return Ok(Plain::Absent),
        Edit::Append(put) => spliced(alloc, old, old.len(), 0, put.as_slice())?,
        Edit::Insert { at, bytes } => spliced(alloc, old, *at as usize, 0, bytes.as_slice())?,
        Edit::Delete { at, len } => spliced(alloc, old, *at as usize, *len as usize, &[])?,
        Edit::Replace { at, bytes } => {
            let put = bytes.as_slice();
            spliced(alloc, old, *at as usize, put.len(), put)?
        }
    };
    Ok(Plain::Present(copy))
}

/// The bytes with `cut` of them, at `at`, exchanged for others.
fn spliced(
    alloc: Global,
    bytes: &[u8],
    at: usize,
    cut: usize,
    put: &[u8],
) -> Result<Bytes, AllocError>
    requires { at + cut ≤ length bytes.now }
    ensures { IfOk result
        (λ copy. copy ≡ take at bytes.now ++ put.now ++ drop (at + cut) bytes.now) }
{
    let mut items = Vec::with_capacity(alloc, bytes.len() - cut + put.len())?;
    items.extend_from_slice(&bytes[..at])?;
    items.extend_from_slice(put)?;
    items.extend_from_slice(&bytes[at + cut..])?;
    Ok(Bytes::from_vec(items))
}
