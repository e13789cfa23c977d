//! The acts of a transaction on one object, where its annals keep acts.

ghost use Rattle.std.specs.Prelude.{◌≡◌, ◌<◌, ◌++◌, ℕ, true, Some, OnOk, OnErr, vec_len};
ghost use Rattle.std.specs.Prelude.{vec_capacity};
ghost use Rattle.eos_ops.specs.Objects.{object_of, with_bytes};
ghost use Rattle.shadow_txn.specs.Acts.{noted};

use eos_ops::{Act, Acts, Command, Reply};
use shadow_txn::is_own;
use std::alloc::AllocError;

/// Notes a command with its reply, where it is an act.
///
/// `AllocError` says that there was no memory for it. The acts stay.
pub(crate) fn note(
    acts: &mut Acts,
    o: u32,
    command: Command,
    reply: Reply,
) -> Result<(), AllocError>
    requires on { object_of command ≡ Some o }
    requires bytes { with_bytes command ≡ command }
    ensures ok { OnOk result (acts.new ≡ acts.old ++ noted true command reply) }
    ensures err { OnErr result (acts.new ≡ acts.old) }
{
    if !is_own(&reply) {
        return Ok(());
    }
    acts.push(Act { command, reply })
}

/// Notes a command with its reply, where it is an act, in room that was made before.
pub(crate) fn note_reserved(acts: &mut Vec<Act>, o: u32, command: Command, reply: Reply)
    requires on { object_of command ≡ Some o }
    requires bytes { with_bytes command ≡ command }
    requires room { vec_len acts.old < vec_capacity acts.old }
    ensures { acts.new.items ≡ acts.old.items ++ noted true command reply }
{
    if is_own(&reply) {
        acts.push_reserved(Act { command, reply });
    }
}
