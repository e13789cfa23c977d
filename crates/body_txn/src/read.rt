//! The bytes of a held object.

ghost use Rattle.std.specs.Prelude.{◌≡◌, ◌<◌, false, Err, IsSome, IsTrue, IfSome};
ghost use Rattle.eos_ops.specs.declared.command.Command.TheVariants as command;
ghost use Rattle.eos_ops.specs.Objects.{read_in};
ghost use Rattle.object_body.specs.Form.{AreTied};
ghost use Rattle.shadow_txn.specs.Acts.{noted};
ghost use Rattle.shadow_txn.specs.Held.{held_object};
ghost use Rattle.shadow_txn.specs.Replies.{bytes_reply};
ghost use Rattle.body_txn.specs.Calls.{IsCallOn, IsCallOf, MakesRead};
ghost use Rattle.body_txn.specs.Fields.{at_annals, at_body, frame_by, LegalBy};
ghost use Rattle.body_txn.specs.Replies.{working_at, IsOwnRight};
ghost use Rattle.body_txn.specs.Serving.{GoesOn};

use crate::Txn;
use crate::note::note;
use crate::reply::answer_to_look;
use eos_ops::{Annals, Bytes, Command};
use object_body::{Body, Object};
use page_port::Port;
use shadow_txn::{Held, TxnFail, place_of, reply_of_read};
use std::alloc::Global;

impl<B: Body, H: Annals> Txn<B, H> {
    /// The `len` bytes of object `o`, which is held, from `at` on.
    ///
    /// # Errors
    /// `Missing` where it is absent, `Range` where they reach past its end, and else what its body
    /// answers. `Memory` also where acts are kept and there was none for this one. Both versions
    /// are as before.
    pub fn read(&mut self, port: &mut B::P, o: u64, at: u64, len: u64) -> Result<Bytes, TxnFail>
        requires held { IsSome (held_object o self.old.held) }
        requires page { IfSome (held_object o self.old.held)
            (λ x. (B.P.meter port.old).page ≡ (B.form x.body).numbers.page) }
        ensures read { IsCallOn o
            (λ x y. (y.annals ≡ x.annals) × MakesRead B.P.S.tells B.suits B.may_read H.tells at len
            (bytes_reply result)
            (B.form x.body) (B.form y.body) (B.told x.body) (B.told y.body) (B.P.meter port.old)
            (B.P.meter port.new))
            (noted H.tells (command.Read o at len) (bytes_reply result)) self.old self.new }
        ensures right { IsTrue B.P.S.tells
            → IsOwnRight (bytes_reply result)
            (read_in at len (working_at (at_body B.told) o self.old.held)) }
        ensures tied { IsTrue B.P.S.tells → IfSome (held_object o self.old.held)
            (λ x. AreTied B.suits (B.form x.body) (B.told x.body)) }

        // Where no act is kept, a read of no byte wants no memory.
        ensures memory { H.tells ≡ false → result ≡ Err TxnFail.Memory → 0 < len }
        ensures goes_on { GoesOn (at_annals H.told) (at_annals H.last) (frame_by B.form)
            (LegalBy B.P.S.tells H.told B.told) self.old self.new }
    {
        let Some(i) = place_of(&self.held, o) else {
            unreachable!()
        };
        read_held(&mut self.held[i], self.alloc, port, at, len)
    }
}

/// The bytes of an object, with the act.
fn read_held<B: Body, H: Annals>(
    one: &mut Held<Object<B, H>>,
    alloc: Global,
    port: &mut B::P,
    at: u64,
    len: u64,
) -> Result<Bytes, TxnFail>
    requires page { (B.P.meter port.old).page ≡ (B.form one.old.object.body).numbers.page }
    ensures { IsCallOf
        (λ x y. (y.annals ≡ x.annals) × MakesRead B.P.S.tells B.suits B.may_read H.tells at len
        (bytes_reply result)
        (B.form x.body) (B.form y.body) (B.told x.body) (B.told y.body) (B.P.meter port.old)
        (B.P.meter port.new))
        (noted H.tells (command.Read one.old.number at len) (bytes_reply result)) one.old one.new }
{
    let answer = look(&mut one.object.body, alloc, port, at, len);
    if !one.object.annals.keeps() {
        return answer;
    }
    let Ok(reply) = reply_of_read(alloc, &answer) else {
        return Err(TxnFail::Memory);
    };
    let command = Command::Read {
        object: u64::from(one.number),
        at,
        len,
    };
    if note(&mut one.acts, one.number, command, reply).is_err() {
        return Err(TxnFail::Memory);
    }
    answer
}

/// The bytes of a body, where they are there.
fn look<B: Body>(
    body: &mut B,
    alloc: Global,
    port: &mut B::P,
    at: u64,
    len: u64,
) -> Result<Bytes, TxnFail>
    requires page { (B.P.meter port.old).page ≡ (B.form body.old).numbers.page }
    ensures { MakesRead B.P.S.tells B.suits B.may_read false at len (bytes_reply result)
        (B.form body.old) (B.form body.new) (B.told body.old) (B.told body.new) (B.P.meter port.old)
        (B.P.meter port.new) }
{
    let Some(length) = body.length() else {
        return Err(TxnFail::Missing);
    };
    if at > length || len > length - at {
        return Err(TxnFail::Range(length));
    }
    answer_to_look(body.read(alloc, port, at, len))
}
