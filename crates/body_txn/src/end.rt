//! The end of a transaction.

ghost use Rattle.std.specs.Prelude.{◌≡◌, ◌+◌, ◌<◌, ◌≤◌, ◌^◌, max, [], true, false, All};
ghost use Rattle.std.specs.Prelude.{vec_capacity, IsTrue};
ghost use Rattle.object_body.specs.Calls.{IsBodyEnd};
ghost use Rattle.object_body.specs.Places.{IsReady};
ghost use Rattle.object_locks.specs.Shelving.{Terms, Suits};
ghost use Rattle.shadow_txn.specs.Ending.{MayEnd, end_with};
ghost use Rattle.shadow_txn.specs.Held.{AreDistinct};
ghost use Rattle.shadow_txn.specs.Transaction.{greatest_last};
ghost use Rattle.body_txn.specs.Acts.{IsLedBy};
ghost use Rattle.body_txn.specs.Ending.{GotEnd, HasOneEndMore, HaveEnded, IsClosed, StaysServed};
ghost use Rattle.body_txn.specs.Ending.{IsEndStep, EndInTurn, AreReady, IsReadyToEnd, ReturnsHome};
ghost use Rattle.body_txn.specs.Ending.{end_form, end_contents};
ghost use Rattle.body_txn.specs.Fields.{at_annals, at_body, frame_by, LegalBy};
ghost use Rattle.body_txn.specs.Serving.{ServesTxn, KeepTerms};

use crate::Txn;
use eos_ops::{Acts, Annals, End};
use object_body::{Body, Object};
use object_locks::Shelf;
use page_port::Port;
use shadow_txn::Held;
use superdirectory::{Hints, Latches};

/// What the end of a transaction writes into the annals of each of its objects, beside the acts on
/// it.
#[derive(Clone, Copy)]
struct Closing {
    stamp: u64,
    session: u32,
    number: u64,
    committed: bool,
}

impl<B: Body, H: Annals> Txn<B, H> {
    /// Ends the transaction, makes the working versions the committed ones, and puts all objects
    /// back. It gives the stamp of the end, and takes no memory.
    pub fn commit<X: Shelf<Object<B, H>>, L: Latches<S = <B::P as Port>::S>>(
        &mut self,
        shelf: &mut X,
        latches: &mut L,
        turn: &mut L::Turn,
    ) -> u64
        requires open { self.old.is_open ≡ true }
        requires serves { ServesTxn (at_annals H.told) (at_annals H.last) self.old
            (X.shelving shelf.old) }
        requires terms { (t : Terms) × X.under shelf.old t
            × KeepTerms (frame_by B.form) (LegalBy B.P.S.tells H.told B.told) t self.old.held }
        requires ready { AreReady (at_body B.form) self.old.held (L.rest latches.old) }
        ensures closed { IsClosed (at_annals H.last) result self.old self.new }
        ensures ended { HaveEnded
            (HasOneEndMore B.P.S.tells (at_body B.form) (at_body B.told) (at_annals H.told)
            (at_annals H.last)
            result self.old.session self.old.number true)
            (at_annals H.told) (end_with result self.old.session self.old.number true) self.old.held
            (X.shelving shelf.old) (X.shelving shelf.new) }

        // Each step settles the object, and the spaces move with it.
        ensures settled { EndInTurn (λ x. IsEndStep B.P.S.tells B.suits true (B.form x.body)
            (B.told x.body)) self.old.held
            (record { rest = L.rest latches.old; trace = L.trace latches.old })
            (record { rest = L.rest latches.new; trace = L.trace latches.new }) }
        ensures served { StaysServed (at_annals H.told) (at_annals H.last) (frame_by B.form)
            (LegalBy B.P.S.tells H.told B.told) self.old self.new (X.shelving shelf.new)
            (X.under shelf.old) (X.under shelf.new) }
    {
        self.close(shelf, latches, turn, true)
    }

    /// Ends the transaction, undoes the working versions, and puts all objects back. It gives the
    /// stamp of the end, and takes no memory.
    pub fn abort<X: Shelf<Object<B, H>>, L: Latches<S = <B::P as Port>::S>>(
        &mut self,
        shelf: &mut X,
        latches: &mut L,
        turn: &mut L::Turn,
    ) -> u64
        requires open { self.old.is_open ≡ true }
        requires serves { ServesTxn (at_annals H.told) (at_annals H.last) self.old
            (X.shelving shelf.old) }
        requires terms { (t : Terms) × X.under shelf.old t
            × KeepTerms (frame_by B.form) (LegalBy B.P.S.tells H.told B.told) t self.old.held }
        requires ready { AreReady (at_body B.form) self.old.held (L.rest latches.old) }
        ensures closed { IsClosed (at_annals H.last) result self.old self.new }
        ensures ended { HaveEnded
            (HasOneEndMore B.P.S.tells (at_body B.form) (at_body B.told) (at_annals H.told)
            (at_annals H.last)
            result self.old.session self.old.number false)
            (at_annals H.told) (end_with result self.old.session self.old.number false)
            self.old.held
            (X.shelving shelf.old) (X.shelving shelf.new) }

        // Each step undoes the object, and the spaces move with it.
        ensures undone { EndInTurn (λ x. IsEndStep B.P.S.tells B.suits false (B.form x.body)
            (B.told x.body)) self.old.held
            (record { rest = L.rest latches.old; trace = L.trace latches.old })
            (record { rest = L.rest latches.new; trace = L.trace latches.new }) }
        ensures served { StaysServed (at_annals H.told) (at_annals H.last) (frame_by B.form)
            (LegalBy B.P.S.tells H.told B.told) self.old self.new (X.shelving shelf.new)
            (X.under shelf.old) (X.under shelf.new) }
    {
        self.close(shelf, latches, turn, false)
    }

    /// Ends the transaction.
    fn close<X: Shelf<Object<B, H>>, L: Latches<S = <B::P as Port>::S>>(
        &mut self,
        shelf: &mut X,
        latches: &mut L,
        turn: &mut L::Turn,
        committed: bool,
    ) -> u64
        requires open { self.old.is_open ≡ true }
        requires serves { ServesTxn (at_annals H.told) (at_annals H.last) self.old
            (X.shelving shelf.old) }
        requires terms { (t : Terms) × X.under shelf.old t
            × KeepTerms (frame_by B.form) (LegalBy B.P.S.tells H.told B.told) t self.old.held }
        requires ready { AreReady (at_body B.form) self.old.held (L.rest latches.old) }
        ensures closed { IsClosed (at_annals H.last) result self.old self.new }
        ensures ended { HaveEnded
            (HasOneEndMore B.P.S.tells (at_body B.form) (at_body B.told) (at_annals H.told)
            (at_annals H.last)
            result self.old.session self.old.number committed)
            (at_annals H.told) (end_with result self.old.session self.old.number committed)
            self.old.held
            (X.shelving shelf.old) (X.shelving shelf.new) }
        ensures turns { EndInTurn (λ x. IsEndStep B.P.S.tells B.suits committed (B.form x.body)
            (B.told x.body)) self.old.held
            (record { rest = L.rest latches.old; trace = L.trace latches.old })
            (record { rest = L.rest latches.new; trace = L.trace latches.new }) }
        ensures served { StaysServed (at_annals H.told) (at_annals H.last) (frame_by B.form)
            (LegalBy B.P.S.tells H.told B.told) self.old self.new (X.shelving shelf.new)
            (X.under shelf.old) (X.under shelf.new) }
    {
        let stamp = next_stamp(self.stamp, &self.held);
        let closing = Closing {
            stamp,
            session: self.session,
            number: self.number,
            committed,
        };
        put_all(&mut self.held, shelf, latches, turn, closing);
        self.active = false;
        self.stamp = stamp;
        stamp
    }
}

/// One more than the last stamps of the session and of all objects.
fn next_stamp<B: Body, H: Annals>(own: u64, held: &[Held<Object<B, H>>]) -> u64
    requires own { own < 2 ^ 62 }
    requires lasts { All (λ h. H.last h.object.annals < 2 ^ 62) held.now }
    ensures stamp { result ≡ max own (greatest_last (at_annals H.last) held.now) + 1 }
    ensures within { result ≤ 2 ^ 62 }
{
    let mut greatest = own;
    for one in held {
        greatest = greatest.max(one.object.annals.last_stamp());
    }
    greatest + 1
}

/// Puts all objects back, each with its end, from the last to the first.
fn put_all<B: Body, H: Annals, X: Shelf<Object<B, H>>, L: Latches<S = <B::P as Port>::S>>(
    held: &mut Vec<Held<Object<B, H>>>,
    shelf: &mut X,
    latches: &mut L,
    turn: &mut L::Turn,
    closing: Closing,
)
    requires within { closing.stamp ≤ 2 ^ 62 }
    requires each { All (IsReadyToEnd
        (IsLedBy B.P.S.tells B.suits (at_body B.form) (at_body B.told) H.tells (at_annals H.told)
        (at_annals H.last))
        (at_body B.form) (at_annals H.told) (at_annals H.last) (at_annals H.spare) closing.stamp
        (X.shelving shelf.old) (L.rest latches.old)) held.old.items }
    requires may { MayEnd closing.stamp closing.session closing.number (X.shelving shelf.old) }
    requires distinct { AreDistinct held.old.items }
    requires terms { (t : Terms) × X.under shelf.old t
        × KeepTerms (frame_by B.form) (LegalBy B.P.S.tells H.told B.told) t held.old.items }
    ensures none { (held.new.items ≡ []) × (vec_capacity held.new ≡ vec_capacity held.old) }
    ensures ended { HaveEnded
        (HasOneEndMore B.P.S.tells (at_body B.form) (at_body B.told) (at_annals H.told)
        (at_annals H.last)
        closing.stamp closing.session closing.number closing.committed)
        (at_annals H.told) (end_with closing.stamp closing.session closing.number closing.committed)
        held.old.items
        (X.shelving shelf.old) (X.shelving shelf.new) }
    ensures turns { EndInTurn (λ x. IsEndStep B.P.S.tells B.suits closing.committed (B.form x.body)
        (B.told x.body)) held.old.items
        (record { rest = L.rest latches.old; trace = L.trace latches.old })
        (record { rest = L.rest latches.new; trace = L.trace latches.new }) }
    ensures may { MayEnd closing.stamp closing.session closing.number (X.shelving shelf.new) }
    ensures under { (t : Terms) → KeepTerms (frame_by B.form)
        (LegalBy B.P.S.tells H.told B.told) t held.old.items
        → X.under shelf.old t → X.under shelf.new t }
{
    'puts: while let Some(one) = held.pop() {
        put_one(one, shelf, latches, turn, closing);
    }
}

/// Puts an object back with its end.
fn put_one<B: Body, H: Annals, X: Shelf<Object<B, H>>, L: Latches<S = <B::P as Port>::S>>(
    one: Held<Object<B, H>>,
    shelf: &mut X,
    latches: &mut L,
    turn: &mut L::Turn,
    closing: Closing,
)
    requires within { closing.stamp ≤ 2 ^ 62 }
    requires can { IsReadyToEnd
        (IsLedBy B.P.S.tells B.suits (at_body B.form) (at_body B.told) H.tells (at_annals H.told)
        (at_annals H.last))
        (at_body B.form) (at_annals H.told) (at_annals H.last) (at_annals H.spare) closing.stamp
        (X.shelving shelf.old) (L.rest latches.old) one }
    requires may { MayEnd closing.stamp closing.session closing.number (X.shelving shelf.old) }
    requires terms { (t : Terms) × X.under shelf.old t
        × Suits (frame_by B.form) (LegalBy B.P.S.tells H.told B.told) t one.number one.object }
    ensures home { ReturnsHome (at_annals H.told)
        (GotEnd B.P.S.tells (at_body B.form) (at_body B.told) (at_annals H.told) (at_annals H.last)
        (end_with closing.stamp closing.session closing.number closing.committed one.acts))
        one.number one.object (X.shelving shelf.old) (X.shelving shelf.new) }
    ensures turn { IsEndStep B.P.S.tells B.suits closing.committed (B.form one.object.body)
        (B.told one.object.body)
        (record { rest = L.rest latches.old; trace = L.trace latches.old })
        (record { rest = L.rest latches.new; trace = L.trace latches.new }) }
    ensures may { MayEnd closing.stamp closing.session closing.number (X.shelving shelf.new) }
    ensures under { (t : Terms)
        → Suits (frame_by B.form) (LegalBy B.P.S.tells H.told B.told) t one.number one.object
        → X.under shelf.old t → X.under shelf.new t }
{
    let Held {
        number,
        mut object,
        acts,
    } = one;
    end_object(&mut object, latches, turn, acts, closing);
    shelf.put(number, object);
}

/// Decides between the versions of an object, and writes the end into its annals.
fn end_object<B: Body, H: Annals, L: Latches<S = <B::P as Port>::S>>(
    object: &mut Object<B, H>,
    latches: &mut L,
    turn: &mut L::Turn,
    acts: Acts,
    closing: Closing,
)
    requires within { closing.stamp ≤ 2 ^ 62 }
    requires room { 1 ≤ H.spare object.old.annals }
    requires above { H.last object.old.annals < closing.stamp }
    requires ready { IsReady (B.form object.old.body).numbers (L.rest latches.old) }
    ensures got { GotEnd B.P.S.tells (at_body B.form) (at_body B.told) (at_annals H.told)
        (at_annals H.last)
        (end_with closing.stamp closing.session closing.number closing.committed acts) object.old
        object.new }
    ensures turn { IsEndStep B.P.S.tells B.suits closing.committed (B.form object.old.body)
        (B.told object.old.body)
        (record { rest = L.rest latches.old; trace = L.trace latches.old })
        (record { rest = L.rest latches.new; trace = L.trace latches.new }) }
{
    decide(&mut object.body, latches, turn, closing.committed);
    object.annals.append_end(End {
        stamp: closing.stamp,
        session: closing.session,
        number: closing.number,
        acts,
        committed: closing.committed,
    });
}

/// Settles a body, or else undoes it.
fn decide<B: Body, L: Latches<S = <B::P as Port>::S>>(
    body: &mut B,
    latches: &mut L,
    turn: &mut L::Turn,
    committed: bool,
)
    requires ready { IsReady (B.form body.old).numbers (L.rest latches.old) }
    ensures { IsBodyEnd B.P.S.tells B.suits (end_form committed (B.form body.old))
        (end_contents committed (B.told body.old))
        (record {
          form = B.form body.old;
          told = B.told body.old;
          rest = L.rest latches.old;
          trace = L.trace latches.old;
        })
        (record {
          form = B.form body.new;
          told = B.told body.new;
          rest = L.rest latches.new;
          trace = L.trace latches.new;
        }) }
{
    if committed {
        body.settle(latches, turn);
    } else {
        body.undo(latches, turn);
    }
}
