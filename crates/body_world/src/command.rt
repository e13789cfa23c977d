//! The edit that a command makes.

ghost use Rattle.std.specs.Prelude.{◌≡◌, false, IfOk, OnErr};
ghost use Rattle.eos_ops.specs.Memory.{MayTakeMemory};
ghost use Rattle.eos_ops.specs.Objects.{edit_of as edit_of_command, is_too_long};

use eos_ops::{Command, Edit};
use std::alloc::{AllocError, Global};

/// The edit that a command makes, if it makes one.
///
/// `AllocError` says that there was no memory for the bytes that it brings.
pub fn edit_of(alloc: Global, command: Command) -> Result<Option<Edit>, AllocError>
    requires { is_too_long command ≡ false }
    ensures edit { IfOk result (λ edit. edit ≡ edit_of_command command) }
    ensures memory { OnErr result (MayTakeMemory command) }
{
    Ok(Some(match command {
        Command::Create { threshold, .. } => Edit::Create { threshold },
        Command::Destroy { .. } => Edit::Destroy,
        Command::Append { payload, .. } => Edit::Append(payload.into_bytes(alloc)?),
        Command::Insert { at, payload, .. } => Edit::Insert {
            at,
            bytes: payload.into_bytes(alloc)?,
        },
        Command::Delete { at, len, .. } => Edit::Delete { at, len },
        Command::Replace { at, payload, .. } => Edit::Replace {
            at,
            bytes: payload.into_bytes(alloc)?,
        },
        Command::Length { .. }
        | Command::Read { .. }
        | Command::Begin
        | Command::Commit
        | Command::Abort
        | Command::Status => return Ok(None),
    }))
}
