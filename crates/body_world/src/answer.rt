//! A held object's answer to a command on it.

ghost use Rattle.std.specs.Prelude.{◌≡◌, ◌<◌, ◌-◌, ◌%◌, false, Some, IsSome};
ghost use Rattle.eos_ops.specs.Objects.{is_too_long, object_of, edit_of as edit_of_command};
ghost use Rattle.shadow_txn.specs.Held.{held_object};
ghost use Rattle.shadow_txn.specs.Replies.{bytes_reply, edit_reply};
ghost use Rattle.superdirectory.specs.Rest.{count};
ghost use Rattle.superdirectory.specs.Solo.{rest_of};
ghost use Rattle.body_world.specs.Served.{MakesCommand, IsWorked, NamesThresholdIn, works_of};
ghost use Rattle.body_world.specs.Served.{IsInStore};
ghost use Rattle.body_world.specs.Session.{shown_by};

use crate::command::edit_of;
use body_txn::Txn;
use eos_ops::{Blank, Bytes, Command, Reply};
use object_body::Body;
use page_port::Port;
use shadow_txn::{TxnFail, reply_of_fail, reply_of_length};
use std::alloc::Global;
use superdirectory::Solo;

/// Answers a command on object `o`, which the transaction holds.
pub fn answer<P: Port, B: Body<P = P>>(
    txn: &mut Txn<B, Blank>,
    spaces: &mut Solo<P::S>,
    port: &mut P,
    alloc: Global,
    o: u64,
    command: Command,
) -> Reply
    requires short { is_too_long command ≡ false }
    requires object { object_of command ≡ Some o }
    requires threshold { NamesThresholdIn command }
    requires held { IsSome (held_object o txn.old.held) }
    requires store { IsInStore (shown_by B.form B.told) o txn.old.held
        (works_of spaces.old (P.meter port.old)) }
    requires some { 0 < count (rest_of spaces.old) }
    ensures { IsWorked P.S.tells B.suits (shown_by B.form B.told)
        (λ x y. MakesCommand P.S.tells B.suits B.laid B.may_refuse B.may_write B.may_read
        ((txn.old.session - 1) % count (rest_of spaces.old)) command result x y
        (works_of spaces.old (P.meter port.old)) (works_of spaces.new (P.meter port.new)))
        command o result txn.old txn.new }
{
    match command {
        Command::Length { .. } => reply_of_length(&txn.length(o)),
        Command::Read { at, len, .. } => answer_to_read(txn.read(port, o, at, len)),
        command => answer_to_edit(txn, spaces, port, alloc, o, command),
    }
}

/// What becomes of an edit.
fn answer_to_edit<P: Port, B: Body<P = P>>(
    txn: &mut Txn<B, Blank>,
    spaces: &mut Solo<P::S>,
    port: &mut P,
    alloc: Global,
    o: u64,
    command: Command,
) -> Reply
    requires short { is_too_long command ≡ false }
    requires object { object_of command ≡ Some o }
    requires edit { IsSome (edit_of_command command) }
    requires threshold { NamesThresholdIn command }
    requires held { IsSome (held_object o txn.old.held) }
    requires store { IsInStore (shown_by B.form B.told) o txn.old.held
        (works_of spaces.old (P.meter port.old)) }
    requires some { 0 < count (rest_of spaces.old) }
    ensures { IsWorked P.S.tells B.suits (shown_by B.form B.told)
        (λ x y. MakesCommand P.S.tells B.suits B.laid B.may_refuse B.may_write B.may_read
        ((txn.old.session - 1) % count (rest_of spaces.old)) command result x y
        (works_of spaces.old (P.meter port.old)) (works_of spaces.new (P.meter port.new)))
        command o result txn.old txn.new }
{
    let Ok(edit) = edit_of(alloc, command) else {
        return Reply::Memory;
    };
    let Some(edit) = edit else {
        unreachable!();
    };
    reply_to_edit(txn.edit(port, spaces, &mut (), o, &edit))
}

/// What became of an edit, as a reply.
fn reply_to_edit(answer: Result<(), TxnFail>) -> Reply
    ensures { result ≡ edit_reply answer }
{
    match answer {
        Ok(()) => Reply::Ok,
        Err(fail) => reply_of_fail(fail),
    }
}

/// The bytes that were read, or a refusal.
fn answer_to_read(answer: Result<Bytes, TxnFail>) -> Reply
    ensures { result ≡ bytes_reply answer }
{
    match answer {
        Ok(bytes) => Reply::Bytes(bytes),
        Err(fail) => reply_of_fail(fail),
    }
}
