//! The length of a held object.

ghost use Rattle.std.specs.Prelude.{◌≡◌, Err, IsSome, IsTrue, IfSome};
ghost use Rattle.eos_ops.specs.declared.command.Command.TheVariants as command;
ghost use Rattle.eos_ops.specs.Objects.{length_in};
ghost use Rattle.object_body.specs.Form.{AreTied};
ghost use Rattle.shadow_txn.specs.Acts.{noted};
ghost use Rattle.shadow_txn.specs.Held.{held_object, done_to};
ghost use Rattle.shadow_txn.specs.Replies.{length_reply};
ghost use Rattle.shadow_txn.specs.Transaction.{noting};
ghost use Rattle.body_txn.specs.Fields.{at_annals, at_body, frame_by, LegalBy};
ghost use Rattle.body_txn.specs.Replies.{reply_by_length, working_at, IsOwnRight, IsReplyOrMemory};
ghost use Rattle.body_txn.specs.Serving.{GoesOn};

use crate::Txn;
use crate::note::note;
use crate::reply::answer_by_length;
use eos_ops::{Annals, Command};
use object_body::{Body, Object};
use shadow_txn::{Held, TxnFail, place_of, reply_of_length};

impl<B: Body, H: Annals> Txn<B, H> {
    /// The length of object `o` in bytes, which is held.
    ///
    /// # Errors
    /// `Missing` where it is absent. `Memory` where acts are kept and there was none for this one;
    /// with annals that keep none it takes no memory.
    pub fn length(&mut self, o: u64) -> Result<u64, TxnFail>
        requires { IsSome (held_object o self.old.held) }
        ensures reply { IfSome (held_object o self.old.held)
            (λ x. IsReplyOrMemory H.tells (length_reply result)
            (reply_by_length (B.form x.body).working)) }
        ensures right { IsTrue B.P.S.tells
            → IsOwnRight (length_reply result)
            (length_in (working_at (at_body B.told) o self.old.held)) }
        ensures tied { IsTrue B.P.S.tells → IfSome (held_object o self.old.held)
            (λ x. AreTied B.suits (B.form x.body) (B.told x.body)) }
        ensures same { self.new ≡ noting o (noted H.tells (command.Length o) (length_reply result))
            self.old }
        ensures goes_on { GoesOn (at_annals H.told) (at_annals H.last) (frame_by B.form)
            (LegalBy B.P.S.tells H.told B.told) self.old self.new }
    {
        let Some(i) = place_of(&self.held, o) else {
            unreachable!()
        };
        length_of_held(&mut self.held[i])
    }
}

/// The length of an object, with its act.
fn length_of_held<B: Body, H: Annals>(one: &mut Held<Object<B, H>>) -> Result<u64, TxnFail>
    ensures reply { IsReplyOrMemory H.tells (length_reply result)
        (reply_by_length (B.form one.old.object.body).working) }
    ensures same { one.new ≡ done_to one.old one.old.object
        (noted H.tells (command.Length one.old.number) (length_reply result)) }
{
    let answer = answer_by_length(one.object.body.length());
    if one.object.annals.keeps() {
        let command = Command::Length {
            object: u64::from(one.number),
        };
        if note(&mut one.acts, one.number, command, reply_of_length(&answer)).is_err() {
            return Err(TxnFail::Memory);
        }
    }
    answer
}
