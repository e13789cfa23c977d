//! The edit that a command makes.

ghost use Rattle.std.specs.Prelude.{◌≡◌, IfOk};
ghost use Rattle.eos_ops.specs.Objects.{edit_of};
ghost use Rattle.eos_ops.specs.Payloads.{payload_bytes};

use eos_ops::{Bytes, Command, Edit, Payload};
use plain_plan::Fail;
use std::alloc::Global;

/// The bytes that a payload stands for. One that is too long is given up.
fn payload_bytes(alloc: Global, payload: &Payload) -> Result<Bytes, Fail>
    ensures { IfOk result (λ bytes. bytes ≡ payload_bytes payload.now) }
{
    if payload.is_too_long() {
        return Err(Fail::Big);
    }
    Ok(match payload {
        Payload::Given(bytes) => Bytes::from_vec(Vec::from_slice(alloc, bytes.as_slice())?),
        Payload::Made { len, start } => Payload::Made {
            len: *len,
            start: *start,
        }
        .into_bytes(alloc)?,
    })
}

/// The edit that a command makes, if it makes one.
pub fn edit_of(alloc: Global, command: &Command) -> Result<Option<Edit>, Fail>
    ensures { IfOk result (λ edit. edit ≡ edit_of command.now) }
{
    Ok(match command {
        Command::Create { threshold, .. } => Some(Edit::Create {
            threshold: *threshold,
        }),
        Command::Destroy { .. } => Some(Edit::Destroy),
        Command::Append { payload, .. } => Some(Edit::Append(payload_bytes(alloc, payload)?)),
        Command::Insert { at, payload, .. } => Some(Edit::Insert {
            at: *at,
            bytes: payload_bytes(alloc, payload)?,
        }),
        Command::Delete { at, len, .. } => Some(Edit::Delete { at: *at, len: *len }),
        Command::Replace { at, payload, .. } => Some(Edit::Replace {
            at: *at,
            bytes: payload_bytes(alloc, payload)?,
        }),
        _ => None,
    })
}
