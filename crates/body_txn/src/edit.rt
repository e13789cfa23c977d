//! The edit of a held object.

ghost use Rattle.std.specs.Prelude.{◌≡◌, ◌<◌, ◌-◌, ◌%◌, Err, Ok, IsSome, IsTrue, IfSome};
ghost use Rattle.std.specs.Prelude.{false};
ghost use Rattle.eos_ops.specs.Edits.{outcome_in};
ghost use Rattle.eos_ops.specs.Objects.{reply_of};
ghost use Rattle.object_body.specs.Form.{AreTied, NamesThreshold};
ghost use Rattle.object_body.specs.Memory.{EditMayTakeMemory};
ghost use Rattle.object_body.specs.Places.{IsReady};
ghost use Rattle.shadow_txn.specs.Acts.{edit_command, noted};
ghost use Rattle.shadow_txn.specs.Held.{held_object};
ghost use Rattle.shadow_txn.specs.Replies.{edit_reply};
ghost use Rattle.superdirectory.specs.Rest.{count};
ghost use Rattle.body_txn.specs.Calls.{IsCallOn, IsCallOf, MakesEdit, OrNoRoom};
ghost use Rattle.body_txn.specs.Fields.{at_annals, at_body, frame_by, LegalBy};
ghost use Rattle.body_txn.specs.Replies.{working_at, IsOwnRight};
ghost use Rattle.body_txn.specs.Serving.{GoesOn};

use crate::Txn;
use crate::note::note_reserved;
use crate::reply::{answer_to_edit, reply_of_edit};
use eos_ops::{Acts, Annals, Edit};
use object_body::{Body, Object};
use page_port::Port;
use shadow_txn::{Held, TxnFail, command_of, place_of, with_room};
use std::alloc::Global;
use superdirectory::{Hints, Latches};

impl<B: Body, H: Annals> Txn<B, H> {
    /// Edits the working version of object `o`, which is held, and leaves its committed one alone.
    /// Pages are asked for from the session's own space on and around.
    ///
    /// # Errors
    /// `Exists`, `Missing` and `Range` by the length of the object, and else what its body answers.
    /// `Memory` also where acts are kept and there was none for this one. After each of them both
    /// versions are as before.
    pub fn edit<L: Latches<S = <B::P as Port>::S>>(
        &mut self,
        port: &mut B::P,
        latches: &mut L,
        turn: &mut L::Turn,
        o: u64,
        edit: &Edit,
    ) -> Result<(), TxnFail>
        requires held { IsSome (held_object o self.old.held) }
        requires page { IfSome (held_object o self.old.held)
            (λ x. (B.P.meter port.old).page ≡ (B.form x.body).numbers.page) }
        requires ready { IfSome (held_object o self.old.held)
            (λ x. IsReady (B.form x.body).numbers (L.rest latches.old)) }
        requires some { 0 < count (L.rest latches.old) }
        requires threshold { NamesThreshold edit.now }
        ensures edit { OrNoRoom H.tells
            ((result ≡ Err TxnFail.Memory) × (self.new ≡ self.old) × (latches.new ≡ latches.old) ×
            (port.new ≡ port.old))
            (IsCallOn o
            (λ x y. (y.annals ≡ x.annals) × MakesEdit B.P.S.tells B.suits B.laid B.may_refuse
            B.may_write
            ((self.old.session - 1) % count (L.rest latches.old)) edit.now (edit_reply result)
            (record {
              form = B.form x.body;
              told = B.told x.body;
              rest = L.rest latches.old;
              trace = L.trace latches.old;
            })
            (record {
              form = B.form y.body;
              told = B.told y.body;
              rest = L.rest latches.new;
              trace = L.trace latches.new;
            })
            (B.P.meter port.old) (B.P.meter port.new))
            (noted H.tells (edit_command o edit.now) (edit_reply result)) self.old self.new) }
        ensures right { IsTrue B.P.S.tells → IsOwnRight (edit_reply result)
            (reply_of (outcome_in edit.now (working_at (at_body B.told) o self.old.held))) }
        ensures tied { IsTrue B.P.S.tells → IfSome (held_object o self.old.held)
            (λ x. AreTied B.suits (B.form x.body) (B.told x.body)) }

        // Where no act is kept, memory is wanted only by an edit that may take some.
        ensures memory { H.tells ≡ false → result ≡ Err TxnFail.Memory
            → EditMayTakeMemory edit.now }
        ensures goes_on { GoesOn (at_annals H.told) (at_annals H.last) (frame_by B.form)
            (LegalBy B.P.S.tells H.told B.told) self.old self.new }
    {
        let Some(i) = place_of(&self.held, o) else {
            unreachable!()
        };
        let start = own_space(self.session, latches.spaces());
        edit_held(
            &mut self.held[i],
            self.alloc,
            port,
            latches,
            turn,
            start,
            edit,
        )
    }
}

/// The space that a session looks at first.
fn own_space(session: u32, spaces: u16) -> u16
    requires session { 0 < session }
    requires spaces { 0 < spaces }
    ensures own { result ≡ (session - 1) % spaces }
    ensures within { result < spaces }
{
    ((session - 1) % u32::from(spaces)) as u16
}

/// Edits the working version of an object, with the act. The room for the act is made first.
fn edit_held<B: Body, H: Annals, L: Latches<S = <B::P as Port>::S>>(
    one: &mut Held<Object<B, H>>,
    alloc: Global,
    port: &mut B::P,
    latches: &mut L,
    turn: &mut L::Turn,
    start: u16,
    edit: &Edit,
) -> Result<(), TxnFail>
    requires page { (B.P.meter port.old).page ≡ (B.form one.old.object.body).numbers.page }
    requires ready { IsReady (B.form one.old.object.body).numbers (L.rest latches.old) }
    requires start { start < count (L.rest latches.old) }
    requires threshold { NamesThreshold edit.now }
    ensures { OrNoRoom H.tells
        ((result ≡ Err TxnFail.Memory) × (one.new ≡ one.old) × (latches.new ≡ latches.old) ×
        (port.new ≡ port.old))
        (IsCallOf
        (λ x y. (y.annals ≡ x.annals) × MakesEdit B.P.S.tells B.suits B.laid B.may_refuse
        B.may_write start edit.now (edit_reply result)
        (record {
          form = B.form x.body;
          told = B.told x.body;
          rest = L.rest latches.old;
          trace = L.trace latches.old;
        })
        (record {
          form = B.form y.body;
          told = B.told y.body;
          rest = L.rest latches.new;
          trace = L.trace latches.new;
        })
        (B.P.meter port.old) (B.P.meter port.new))
        (noted H.tells (edit_command one.old.number edit.now) (edit_reply result)) one.old
        one.new) }
{
    if !one.object.annals.keeps() {
        return answer_to_edit(
            one.object
                .body
                .edit(alloc, port, latches, turn, start, edit),
        );
    }
    let Ok(command) = command_of(alloc, u64::from(one.number), edit) else {
        return Err(TxnFail::Memory);
    };
    let Ok(mut acts) = with_room(alloc, &mut one.acts) else {
        return Err(TxnFail::Memory);
    };
    let answer = answer_to_edit(
        one.object
            .body
            .edit(alloc, port, latches, turn, start, edit),
    );
    note_reserved(&mut acts, one.number, command, reply_of_edit(&answer));
    one.acts = Acts::from_vec(acts);
    answer
}
