//! A held object's answer to a command on it.

ghost use Rattle.std.specs.Prelude.{◌≡◌, ◌↔◌, false, IfOk, OnOk, OnErr, IsOk, IsErr, IsSome};
ghost use Rattle.eos_ops.specs.Edits.{outcome_in, edited};
ghost use Rattle.eos_ops.specs.Memory.{GivesBytes, LeavesBytes, TakesMemory};
ghost use Rattle.eos_ops.specs.Objects.{is_too_long, length_in, read_in, reply_of, reply_in};
ghost use Rattle.eos_ops.specs.Objects.{after_in};
ghost use Rattle.shadow_txn.specs.Held.{held_object};
ghost use Rattle.shadow_txn.specs.Replies.{working_in, fail_reply};
ghost use Rattle.world.specs.Session.{IsWorked};

use eos_ops::{Blank, Command, Edit, Reply};
use shadow_txn::{Txn, TxnFail};
use std::alloc::{AllocError, Global};

/// Answers a command on object `o`, which the transaction holds, from its working version. An edit
/// changes that version. Want of memory is no answer: then nothing has changed.
#[tactic(auto, unfolding(eos_ops::specs::Objects::reply_in, eos_ops::specs::Objects::after_in))]
pub fn answer(
    txn: &mut Txn<Blank>,
    alloc: Global,
    o: u64,
    command: Command,
) -> Result<Reply, AllocError>
    requires short { is_too_long command ≡ false }
    requires held { IsSome (held_object o txn.old.held) }
    ensures reply { IfOk result (λ reply. reply ≡ reply_in command (working_in o txn.old.held)) }
    ensures ok { OnOk result (IsWorked (after_in command (working_in o txn.old.held)) o txn.old
        txn.new) }
    ensures err { OnErr result (txn.new ≡ txn.old) }
    ensures memory { OnErr result (TakesMemory command (working_in o txn.old.held)) }
{
    match command {
        Command::Length { .. } => length_answer(txn, o),
        Command::Read { at, len, .. } => read_answer(txn, o, at, len),
        Command::Create { threshold, .. } => edit_answer(txn, o, &Edit::Create { threshold }),
        Command::Destroy { .. } => edit_answer(txn, o, &Edit::Destroy),
        Command::Append { payload, .. } => {
            let bytes = payload.into_bytes(alloc)?;
            edit_answer(txn, o, &Edit::Append(bytes))
        }
        Command::Insert { at, payload, .. } => {
            let bytes = payload.into_bytes(alloc)?;
            edit_answer(txn, o, &Edit::Insert { at, bytes })
        }
        Command::Delete { at, len, .. } => edit_answer(txn, o, &Edit::Delete { at, len }),
        Command::Replace { at, payload, .. } => {
            let bytes = payload.into_bytes(alloc)?;
            edit_answer(txn, o, &Edit::Replace { at, bytes })
        }
        Command::Begin | Command::Commit | Command::Abort | Command::Status => Ok(Reply::Idle),
    }
}

/// The number of bytes.
fn length_answer(txn: &mut Txn<Blank>, o: u64) -> Result<Reply, AllocError>
    requires { IsSome (held_object o txn.old.held) }
    ensures reply { IfOk result (λ reply. reply ≡ length_in (working_in o txn.old.held)) }
    ensures always { IsOk result }
    ensures same { txn.new ≡ txn.old }
{
    match txn.length(o) {
        Ok(len) => Ok(Reply::Length(len)),
        Err(fail) => refused(fail),
    }
}

/// The bytes that are asked for, and no others.
fn read_answer(txn: &mut Txn<Blank>, o: u64, at: u64, len: u64) -> Result<Reply, AllocError>
    requires { IsSome (held_object o txn.old.held) }
    ensures reply { IfOk result (λ reply. reply ≡ read_in at len (working_in o txn.old.held)) }
    ensures memory { OnErr result (GivesBytes (read_in at len (working_in o txn.old.held))) }
    ensures same { txn.new ≡ txn.old }
{
    match txn.read(o, at, len) {
        Ok(bytes) => Ok(Reply::Bytes(bytes)),
        Err(fail) => refused(fail),
    }
}

/// What becomes of an edit of the working version.
fn edit_answer(txn: &mut Txn<Blank>, o: u64, edit: &Edit) -> Result<Reply, AllocError>
    requires { IsSome (held_object o txn.old.held) }
    ensures reply { IfOk result
        (λ reply. reply ≡ reply_of (outcome_in edit.now (working_in o txn.old.held))) }
    ensures ok { OnOk result (IsWorked (edited edit.now (working_in o txn.old.held)) o txn.old
        txn.new) }
    ensures err { OnErr result (txn.new ≡ txn.old) }
    ensures memory { OnErr result (LeavesBytes edit.now (working_in o txn.old.held)) }
{
    match txn.edit(o, edit) {
        Ok(()) => Ok(Reply::Ok),
        Err(fail) => refused(fail),
    }
}

/// A refusal as a reply.
fn refused(fail: TxnFail) -> Result<Reply, AllocError>
    ensures reply { IfOk result (λ reply. reply ≡ fail_reply fail) }
    ensures memory { IsErr result ↔ (fail ≡ TxnFail.Memory) }
{
    Ok(match fail {
        TxnFail::Exists => Reply::Exists,
        TxnFail::Missing => Reply::Missing,
        TxnFail::Range(len) => Reply::Range(len),
        TxnFail::Fault => Reply::Fault,
        TxnFail::NoSpace(pages) => Reply::NoSpace(pages),
        TxnFail::Memory => return Err(AllocError),
    })
}
