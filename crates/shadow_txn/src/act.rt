//! Commands on a held object.

ghost use Rattle.std.specs.Prelude.{◌≡◌, Some, Ok, Err, false, IsSome, IfSome, IfOk, OnOk, OnErr};
ghost use Rattle.eos_ops.specs.declared.command.Command.TheVariants as command;
ghost use Rattle.eos_ops.specs.Edits.{outcome_in};
ghost use Rattle.eos_ops.specs.Memory.{GivesBytes};
ghost use Rattle.eos_ops.specs.Objects.{length_in, read_in, reply_of};
ghost use Rattle.object_locks.specs.Shelving.{Shelving, Terms};
ghost use Rattle.shadow_txn.specs.declared.plain_object.PlainObject.{PlainObject};
ghost use Rattle.shadow_txn.specs.Acts.{edit_command, noted, OrMemory};
ghost use Rattle.shadow_txn.specs.Held.{held_object, with_object};
ghost use Rattle.shadow_txn.specs.Memory.{WantsMemory};
ghost use Rattle.shadow_txn.specs.Objects.{edited_object};
ghost use Rattle.shadow_txn.specs.Replies.{working_in, bytes_reply, length_reply, edit_reply};
ghost use Rattle.shadow_txn.specs.Serving.{Serves, Agree};
ghost use Rattle.shadow_txn.specs.Transaction.{holding, noting};

use crate::held::place_of;
use crate::{Txn, TxnFail};
use eos_ops::{Annals, Bytes, Edit, Outcome};
use std::alloc::AllocError;

impl<H: Annals> Txn<H> {
    /// The length of object `o` in bytes, or `Missing` where it is absent. With annals that don't
    /// keep acts it takes no memory.
    pub fn length(&mut self, o: u64) -> Result<u64, TxnFail>
        requires { IsSome (held_object o self.old.held) }
        ensures reply { OrMemory H.tells (result ≡ Err TxnFail.Memory)
            (length_reply result ≡ length_in (working_in o self.old.held)) }
        ensures same { self.new ≡ noting o
            (noted H.tells (command.Length o) (length_reply result)) self.old }

        // A shelf that served the transaction serves it still, and its terms are kept.
        ensures serves { (shelf : Shelving (PlainObject H)) → Serves H.told H.last self.old shelf
            → Serves H.told H.last self.new shelf }
        ensures agree { (t : Terms) → Agree H.tells H.told t self.old.held
            → Agree H.tells H.told t self.new.held }
    {
        let Some(i) = place_of(&self.held, o) else {
            unreachable!()
        };
        self.held[i].length()
    }

    /// The `len` bytes of object `o` from `at` on. `Missing` where it is absent, `Range` where they
    /// reach past its end, `Memory` where there was none for the bytes or for the act.
    pub fn read(&mut self, o: u64, at: u64, len: u64) -> Result<Bytes, TxnFail>
        requires { IsSome (held_object o self.old.held) }
        ensures reply { (result ≡ Err TxnFail.Memory → ⊥)
            → bytes_reply result ≡ read_in at len (working_in o self.old.held) }

        // Where acts are kept, want of memory may take the place of every answer. Elsewhere it
        // takes that of bytes alone.
        ensures memory { result ≡ Err TxnFail.Memory → H.tells ≡ false
            → GivesBytes (read_in at len (working_in o self.old.held)) }
        ensures same { self.new ≡ noting o
            (noted H.tells (command.Read o at len) (bytes_reply result)) self.old }
        ensures serves { (shelf : Shelving (PlainObject H)) → Serves H.told H.last self.old shelf
            → Serves H.told H.last self.new shelf }
        ensures agree { (t : Terms) → Agree H.tells H.told t self.old.held
            → Agree H.tells H.told t self.new.held }
    {
        let Some(i) = place_of(&self.held, o) else {
            unreachable!()
        };
        self.held[i].read(self.alloc, at, len)
    }

    /// Edits the working version of object `o`, and leaves its committed one alone. `Exists`,
    /// `Missing` and `Range` as the plain object says, `Memory` where there was none for the edited
    /// bytes or for the act.
    pub fn edit(&mut self, o: u64, edit: &Edit) -> Result<(), TxnFail>
        requires { IsSome (held_object o self.old.held) }
        ensures reply { (result ≡ Err TxnFail.Memory → ⊥)
            → edit_reply result ≡ reply_of (outcome_in edit.now (working_in o self.old.held)) }

        // Where acts are kept, want of memory may take the place of every answer. Elsewhere it
        // comes only from an edit that takes memory.
        ensures memory { result ≡ Err TxnFail.Memory → H.tells ≡ false
            → IfSome (held_object o self.old.held) (WantsMemory edit.now) }
        ensures ok { OnOk result
            (IfSome (held_object o self.old.held)
            (λ x. self.new ≡ noting o
            (noted H.tells (edit_command o edit.now) (edit_reply result))
            (holding self.old (with_object o (edited_object edit.now x) self.old.held)))) }

        // A refusal may be an act too, and changes nothing else.
        ensures err { OnErr result
            (self.new ≡ noting o
            (noted H.tells (edit_command o edit.now) (edit_reply result)) self.old) }
        ensures serves { (shelf : Shelving (PlainObject H)) → Serves H.told H.last self.old shelf
            → Serves H.told H.last self.new shelf }
        ensures agree { (t : Terms) → Agree H.tells H.told t self.old.held
            → Agree H.tells H.told t self.new.held }
    {
        match self.change(o, edit) {
            Ok(outcome) => answer_of(outcome),
            Err(_) => Err(TxnFail::Memory),
        }
    }

    /// Makes the edit, and says what became of it.
    fn change(&mut self, o: u64, edit: &Edit) -> Result<Outcome, AllocError>
        requires { IsSome (held_object o self.old.held) }
        ensures outcome { IfOk result
            (λ outcome. outcome ≡ outcome_in edit.now (working_in o self.old.held)) }
        ensures done { result ≡ Ok Outcome.Done
            → IfSome (held_object o self.old.held)
            (λ x. self.new ≡ noting o
            (noted H.tells (edit_command o edit.now) (reply_of Outcome.Done))
            (holding self.old (with_object o (edited_object edit.now x) self.old.held))) }
        ensures refused { IfOk result
            (λ outcome. (outcome ≡ Outcome.Done → ⊥)
            → self.new ≡ noting o
            (noted H.tells (edit_command o edit.now) (reply_of outcome)) self.old) }
        ensures memory { OnErr result
            (H.tells ≡ false → IfSome (held_object o self.old.held) (WantsMemory edit.now)) }
        ensures err { OnErr result (self.new ≡ self.old) }
        ensures serves { (shelf : Shelving (PlainObject H)) → Serves H.told H.last self.old shelf
            → Serves H.told H.last self.new shelf }
        ensures agree { (t : Terms) → Agree H.tells H.told t self.old.held
            → Agree H.tells H.told t self.new.held }
    {
        let Some(i) = place_of(&self.held, o) else {
            unreachable!()
        };
        self.held[i].change(self.alloc, edit)
    }
}

/// An outcome as an answer.
fn answer_of(outcome: Outcome) -> Result<(), TxnFail>
    ensures reply { edit_reply result ≡ reply_of outcome }
    ensures known { OnErr result (outcome ≡ Outcome.Done → ⊥) }
    ensures memory { result ≡ Err TxnFail.Memory → ⊥ }
{
    match outcome {
        Outcome::Done => Ok(()),
        Outcome::Exists => Err(TxnFail::Exists),
        Outcome::Missing => Err(TxnFail::Missing),
        Outcome::Range(len) => Err(TxnFail::Range(len)),
    }
}
