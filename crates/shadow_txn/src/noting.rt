//! Commands on one held object, and the acts that they are where its annals keep acts.

ghost use Rattle.std.specs.Prelude.{◌≡◌, ◌<◌, Ok, Err, Some, false, IfOk, OnOk, OnErr, IsTrue};
ghost use Rattle.std.specs.Prelude.{vec_len, vec_capacity};
ghost use Rattle.eos_ops.specs.declared.command.Command.TheVariants as command;
ghost use Rattle.eos_ops.specs.Edits.{outcome_in};
ghost use Rattle.eos_ops.specs.Memory.{GivesBytes};
ghost use Rattle.eos_ops.specs.Objects.{object_of, with_bytes, length_in, read_in, reply_of};
ghost use Rattle.shadow_txn.specs.Acts.{edit_command, noted, IsLed};
ghost use Rattle.shadow_txn.specs.Held.{done_to};
ghost use Rattle.shadow_txn.specs.Memory.{WantsMemory};
ghost use Rattle.shadow_txn.specs.Objects.{working_of, edited_object};
ghost use Rattle.shadow_txn.specs.Replies.{bytes_reply, length_reply};

use crate::reply::{is_own, reply_of_length, reply_of_outcome, reply_of_read};
use crate::{Held, PlainObject, TxnFail};
use eos_ops::{Act, Acts, Annals, Bytes, Command, Edit, Outcome, Payload, Reply};
use std::alloc::{AllocError, Global};
use std::mem;

impl<H: Annals> Held<PlainObject<H>> {
    /// The length of the object. It takes memory only for its act.
    pub(crate) fn length(&mut self) -> Result<u64, TxnFail>
        ensures reply { (result ≡ Err TxnFail.Memory → ⊥)
            → length_reply result ≡ length_in (working_of self.old.object) }
        ensures memory { result ≡ Err TxnFail.Memory → IsTrue H.tells }
        ensures same { self.new ≡ done_to self.old self.old.object
            (noted H.tells (command.Length self.old.number) (length_reply result)) }
    {
        let answer = self.object.length();
        let command = Command::Length {
            object: u64::from(self.number),
        };
        if self.note(command, reply_of_length(&answer)).is_err() {
            return Err(TxnFail::Memory);
        }
        answer
    }

    /// The `len` bytes of the object from `at` on. It takes memory for them and for its act.
    pub(crate) fn read(&mut self, alloc: Global, at: u64, len: u64) -> Result<Bytes, TxnFail>
        ensures reply { (result ≡ Err TxnFail.Memory → ⊥)
            → bytes_reply result ≡ read_in at len (working_of self.old.object) }
        ensures memory { result ≡ Err TxnFail.Memory → H.tells ≡ false
            → GivesBytes (read_in at len (working_of self.old.object)) }
        ensures same { self.new ≡ done_to self.old self.old.object
            (noted H.tells (command.Read self.old.number at len) (bytes_reply result)) }
    {
        let answer = self.object.read(alloc, at, len);
        if !self.object.annals.keeps() {
            return answer;
        }
        let Ok(reply) = reply_of_read(alloc, &answer) else {
            return Err(TxnFail::Memory);
        };
        let command = Command::Read {
            object: u64::from(self.number),
            at,
            len,
        };
        if self.note(command, reply).is_err() {
            return Err(TxnFail::Memory);
        }
        answer
    }

    /// Edits the working version. The room for the act is made first.
    pub(crate) fn change(&mut self, alloc: Global, edit: &Edit) -> Result<Outcome, AllocError>
        ensures outcome { IfOk result
            (λ outcome. outcome ≡ outcome_in edit.now (working_of self.old.object)) }
        ensures done { result ≡ Ok Outcome.Done
            → self.new ≡ done_to self.old (edited_object edit.now self.old.object)
            (noted H.tells (edit_command self.old.number edit.now) (reply_of Outcome.Done)) }
        ensures refused { IfOk result
            (λ outcome. (outcome ≡ Outcome.Done → ⊥)
            → self.new ≡ done_to self.old self.old.object
            (noted H.tells (edit_command self.old.number edit.now) (reply_of outcome))) }
        ensures memory { OnErr result (H.tells ≡ false → WantsMemory edit.now self.old.object) }
        ensures err { OnErr result (self.new ≡ self.old) }
    {
        if !self.object.annals.keeps() {
            return self.object.edit(alloc, edit);
        }
        let command = command_of(alloc, u64::from(self.number), edit)?;
        let mut acts = with_room(alloc, &mut self.acts)?;
        match self.object.edit(alloc, edit) {
            Ok(outcome) => {
                let reply = reply_of_outcome(outcome);
                acts.push_reserved(Act { command, reply });
                self.acts = Acts::from_vec(acts);
                Ok(outcome)
            }
            Err(fail) => {
                self.acts = Acts::from_vec(acts);
                Err(fail)
            }
        }
    }

    /// Notes a command with its reply, where it is an act and the annals keep acts.
    fn note(&mut self, command: Command, reply: Reply) -> Result<(), AllocError>
        requires on { object_of command ≡ Some self.old.number }
        requires bytes { with_bytes command ≡ command }
        ensures ok { OnOk result
            (self.new ≡ done_to self.old self.old.object (noted H.tells command reply)) }
        ensures err { OnErr result (self.new ≡ self.old) }
        ensures memory { OnErr result (IsTrue H.tells) }
    {
        if !self.object.annals.keeps() {
            return Ok(());
        }
        if !is_own(&reply) {
            return Ok(());
        }
        self.acts.push(Act { command, reply })
    }
}

/// The acts with room for one more, taken out of their place.
pub fn with_room(alloc: Global, acts: &mut Acts) -> Result<Vec<Act>, AllocError>
    ensures ok { IfOk result (λ room. room.items ≡ acts.old) }
    ensures room { IfOk result (λ room. vec_len room < vec_capacity room) }
    ensures err { OnErr result (acts.new ≡ acts.old) }
{
    let mut room = mem::replace(acts, Acts::new(alloc)).into_vec();
    match room.reserve(1) {
        Ok(()) => Ok(room),
        Err(fail) => {
            *acts = Acts::from_vec(room);
            Err(fail)
        }
    }
}

/// The command on object `o` that makes an edit, with a copy of its bytes.
pub fn command_of(alloc: Global, o: u64, edit: &Edit) -> Result<Command, AllocError>
    ensures { IfOk result (λ command. command ≡ edit_command o edit.now) }
{
    Ok(match edit {
        Edit::Create { threshold } => Command::Create {
            object: o,
            threshold: *threshold,
        },
        Edit::Destroy => Command::Destroy { object: o },
        Edit::Append(bytes) => Command::Append {
            object: o,
            payload: given(alloc, bytes)?,
        },
        Edit::Insert { at, bytes } => Command::Insert {
            object: o,
            at: *at,
            payload: given(alloc, bytes)?,
        },
        Edit::Delete { at, len } => Command::Delete {
            object: o,
            at: *at,
            len: *len,
        },
        Edit::Replace { at, bytes } => Command::Replace {
            object: o,
            at: *at,
            payload: given(alloc, bytes)?,
        },
    })
}

/// A copy of these bytes as a payload.
fn given(alloc: Global, bytes: &Bytes) -> Result<Payload, AllocError>
    ensures { IfOk result (λ payload. payload ≡ Payload.Given bytes.now) }
{
    Ok(Payload::Given(bytes.read(alloc, 0, bytes.len())?))
}
