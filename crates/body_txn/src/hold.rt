//! Taking an object, and letting it go without an end.

ghost use Rattle.std.specs.Prelude.{◌≡◌, ◌≢◌, ◌<◌, ◌≤◌, ◌↔◌, ◌⊎◌, ℕ, true, Err, Some, None, IfSome};
ghost use Rattle.std.specs.Prelude.{IfOk, IfErr, OnErr, IsSomeAnd, IsTrue, length, slice_get};
ghost use Rattle.std.specs.Prelude.{slice_index_or};
ghost use Rattle.eos_ops.specs.declared.plain.Plain.{Plain};
ghost use Rattle.object_body.specs.Form.{AreTied};
ghost use Rattle.object_locks.specs.Shelving.{Terms, IsPut, Suits};
ghost use Rattle.shadow_txn.specs.Acts.{HasNoActs};
ghost use Rattle.shadow_txn.specs.Held.{held_object, without_held};
ghost use Rattle.shadow_txn.specs.Transaction.{holding};
ghost use Rattle.body_txn.specs.Ending.{StaysServed};
ghost use Rattle.body_txn.specs.Fields.{body_of, at_annals, frame_by, LegalBy, RestsBy};
ghost use Rattle.body_txn.specs.Serving.{ServesTxn, KeepTerms};
ghost use Rattle.body_txn.specs.Taking.{IsHold, HasHoldCause, TookObject, RefusalLeaves};

use crate::Txn;
use eos_ops::{Acts, Annals, MAX_HELD};
use object_body::{Body, Object};
use object_locks::Shelf;
use shadow_txn::{Held, HoldFail, make_room, place_of};

impl<B: Body, H: Annals> Txn<B, H> {
    /// Takes object `o` from the shelf, and says whether it did: an object that is held already
    /// stays so, and nothing happens.
    ///
    /// # Errors
    /// In this order: `NoObject` from the number of objects on, `Full` where as many are held as
    /// may be, `Busy` where the object is out, `Worn` where its last stamp is the last there is,
    /// `Memory` where there was none for its end. After each of them nothing is held that wasn't.
    pub fn hold<X: Shelf<Object<B, H>>>(&mut self, shelf: &mut X, o: u64) -> Result<bool, HoldFail>
        requires open { self.old.is_open ≡ true }
        requires serves { ServesTxn (at_annals H.told) (at_annals H.last) self.old
            (X.shelving shelf.old) }
        requires terms { (t : Terms) × X.under shelf.old t }
        ensures hold { IsHold body_of (at_annals H.told) (at_annals H.last) (at_annals H.spare)
            (RestsBy B.form) o result self.old self.new (X.shelving shelf.old)
            (X.shelving shelf.new) }
        ensures cause { HasHoldCause H.tells o self.old (X.shelving shelf.old) result }
        ensures serves { ServesTxn (at_annals H.told) (at_annals H.last) self.new
            (X.shelving shelf.new) }
        ensures under { (t : Terms) → X.under shelf.old t → X.under shelf.new t }

        // What comes from the shelf keeps its terms.
        ensures agree { (t : Terms) → X.under shelf.old t
            → KeepTerms (frame_by B.form) (LegalBy B.P.S.tells H.told B.told) t self.old.held
            → KeepTerms (frame_by B.form) (LegalBy B.P.S.tells H.told B.told) t self.new.held }
    {
        if self.holds(o) {
            return Ok(false);
        }
        let number = self.admit(o)?;
        let object = take_ready(shelf, number)?;
        self.held.push_reserved(Held {
            number,
            object,
            acts: Acts::new(self.alloc),
        });
        Ok(true)
    }

    /// The number of an object that may be asked for.
    fn admit(&self, o: u64) -> Result<u32, HoldFail>
        ensures ok { IfOk result
            (λ number. (number ≡ o) × (o < self.now.objects) × (length self.now.held < MAX_HELD)) }
        ensures no_object { (result ≡ Err HoldFail.NoObject) ↔ (self.now.objects ≤ o) }
        ensures full { (result ≡ Err HoldFail.Full)
            ↔ ((o < self.now.objects) × (length self.now.held ≡ MAX_HELD)) }
        ensures err { IfErr result (λ fail. (fail ≡ HoldFail.NoObject) ⊎ (fail ≡ HoldFail.Full)) }
    {
        if o >= u64::from(self.objects) {
            return Err(HoldFail::NoObject);
        }
        if self.held.len() >= MAX_HELD {
            return Err(HoldFail::Full);
        }
        Ok(o as u32)
    }

    /// Puts object `o` back as it was taken, without an end: nothing was done to it. It takes no
    /// memory.
    pub fn unhold<X: Shelf<Object<B, H>>>(&mut self, shelf: &mut X, o: u64)
        requires held { IsSomeAnd (held_object o self.old.held) (RestsBy B.form) }

        // An object with acts goes home with their end.
        requires acts { HasNoActs H.tells o self.old.held }
        requires serves { ServesTxn (at_annals H.told) (at_annals H.last) self.old
            (X.shelving shelf.old) }
        requires terms { (t : Terms) × X.under shelf.old t
            × KeepTerms (frame_by B.form) (LegalBy B.P.S.tells H.told B.told) t self.old.held }
        ensures txn { self.new ≡ holding self.old (without_held o self.old.held) }
        ensures put { IfSome (held_object o self.old.held)
            (λ x. IsPut (H.told x.annals) o x (X.shelving shelf.old) (X.shelving shelf.new)) }
        ensures served { StaysServed (at_annals H.told) (at_annals H.last) (frame_by B.form)
            (LegalBy B.P.S.tells H.told B.told) self.old self.new (X.shelving shelf.new)
            (X.under shelf.old) (X.under shelf.new) }
        ensures agree { (t : Terms)
            → KeepTerms (frame_by B.form) (LegalBy B.P.S.tells H.told B.told) t self.old.held
            → KeepTerms (frame_by B.form) (LegalBy B.P.S.tells H.told B.told) t self.new.held }
    {
        let Some(i) = place_of(&self.held, o) else {
            unreachable!()
        };
        let Held { number, object, .. } = self.held.remove(i);
        shelf.put(number, object);
    }
}

/// Takes an object that isn't held, with room in its annals for one end.
fn take_ready<B: Body, H: Annals, X: Shelf<Object<B, H>>>(
    shelf: &mut X,
    o: u32,
) -> Result<Object<B, H>, HoldFail>
    requires number { o < (X.shelving shelf.old).objects }
    requires free { IfSome (X.shelving shelf.old).session
        (λ _. (X.shelving shelf.old).out o ≡ None) }
    requires terms { (t : Terms) × X.under shelf.old t }
    ensures ok { IfOk result
        (λ object. TookObject body_of (at_annals H.told) (at_annals H.last) (at_annals H.spare)
        (RestsBy B.form) o object (X.shelving shelf.old) (X.shelving shelf.new)) }
    ensures tied { IfOk result (λ object. IsTrue B.P.S.tells
        → AreTied B.suits (B.form object.body) (B.told object.body)) }
    ensures err { IfErr result
        (λ fail. RefusalLeaves body_of (at_annals H.told) (at_annals H.last) fail o
        (X.shelving shelf.old) (X.shelving shelf.new)) }
    ensures asked { IfErr result (λ fail. (fail ≢ HoldFail.NoObject) × (fail ≢ HoldFail.Full)) }
    ensures exact { IfSome (X.shelving shelf.old).home
        (λ xs. (result ≡ Err HoldFail.Busy) ↔ (slice_get xs o ≡ Some None)) }
    ensures memory { result ≡ Err HoldFail.Memory → H.tells ≡ true }
    ensures under { (t : Terms) → X.under shelf.old t → X.under shelf.new t }
    ensures suits { IfOk result
        (λ object. (t : Terms) → X.under shelf.old t
        → Suits (frame_by B.form) (LegalBy B.P.S.tells H.told B.told) t o object) }
{
    let Ok(mut object) = shelf.take(o) else {
        return Err(HoldFail::Busy);
    };
    match make_room(&mut object.annals) {
        Ok(()) => Ok(tied(object)),
        Err(fail) => {
            shelf.put(o, object);
            Err(fail)
        }
    }
}

/// The object, of which it is known now that its lengths are those of its bytes.
fn tied<B: Body, H: Annals>(object: Object<B, H>) -> Object<B, H>
    ensures same { result ≡ object }
    ensures tied { IsTrue B.P.S.tells
        → AreTied B.suits (B.form result.body) (B.told result.body) }
{
    object.body.length();
    object
}
