//! Taking an object, and letting it go without an end.

ghost use Rattle.std.specs.Prelude.{◌≡◌, ◌≢◌, ◌<◌, ◌≤◌, ◌↔◌, ◌⊎◌, true, Err, Some, None, []};
ghost use Rattle.std.specs.Prelude.{IfSome, IfOk, IfErr, OnOk, OnErr, IsOk, IsSome, IsSomeAnd};
ghost use Rattle.std.specs.Prelude.{length, slice_get, slice_index_or};
ghost use Rattle.eos_ops.specs.declared.plain.Plain.{Plain};
ghost use Rattle.object_locks.specs.Shelving.{Terms, IsPut};
ghost use Rattle.shadow_txn.specs.Acts.{HasNoActs};
ghost use Rattle.shadow_txn.specs.Held.{held_object, without_held};
ghost use Rattle.shadow_txn.specs.Serving.{Serves, Agree};
ghost use Rattle.shadow_txn.specs.Objects.{IsLegalObject};
ghost use Rattle.shadow_txn.specs.Taking.{HasTaken, Leaves, Holds, CanAsk};
ghost use Rattle.shadow_txn.specs.Transaction.{holding};

use crate::annals_room::make_room;
use crate::held::place_of;
use crate::{Held, HoldFail, PlainObject, Txn};
use eos_ops::{Acts, Annals, MAX_HELD};
use object_locks::Shelf;

impl<H: Annals> Txn<H> {
    /// Takes object `o` from the shelf. An object that is held already stays so.
    pub fn hold<X: Shelf<PlainObject<H>>>(&mut self, shelf: &mut X, o: u64) -> Result<(), HoldFail>
        requires open { self.old.is_open ≡ true }
        requires serves { Serves H.told H.last self.old (X.shelving shelf.old) }
        requires terms { (t : Terms) × X.under shelf.old t }
        ensures held { IsSome (held_object o self.old.held) → IsOk result × (self.new ≡ self.old)
            × (X.shelving shelf.new ≡ X.shelving shelf.old) }
        ensures ok { OnOk result
            (held_object o self.old.held ≡ None
            → Holds H.told H.last H.spare o self.old self.new (X.shelving shelf.old)
            (X.shelving shelf.new)) }

        // The refusals, in this order. After each of them nothing is held that wasn't.
        ensures no_object { (result ≡ Err HoldFail.NoObject)
            ↔ ((held_object o self.old.held ≡ None) × (self.old.objects ≤ o)) }
        ensures full { (result ≡ Err HoldFail.Full)
            ↔ ((held_object o self.old.held ≡ None) × (o < self.old.objects)
            × (length self.old.held ≡ MAX_HELD)) }
        ensures busy { IfSome (X.shelving shelf.old).home
            (λ xs. (result ≡ Err HoldFail.Busy)
            ↔ (CanAsk o self.old × (slice_get xs o ≡ Some None))) }

        // Only annals that tell their ends take memory.
        ensures memory { result ≡ Err HoldFail.Memory → H.tells ≡ true }
        ensures err { OnErr result (self.new ≡ self.old) }
        ensures left { IfErr result
            (λ fail. Leaves H.told H.last fail o (X.shelving shelf.old) (X.shelving shelf.new)) }
        ensures serves { Serves H.told H.last self.new (X.shelving shelf.new) }
        ensures under { (t : Terms) → X.under shelf.old t → X.under shelf.new t }

        // What comes from the shelf keeps its terms.
        ensures agree { (t : Terms) → X.under shelf.old t → Agree H.tells H.told t self.old.held
            → Agree H.tells H.told t self.new.held }
    {
        if self.holds(o) {
            return Ok(());
        }
        let number = self.admit(o)?;
        let object = take_ready(shelf, number)?;
        self.held.push_reserved(Held {
            number,
            object,
            acts: Acts::new(self.alloc),
        });
        Ok(())
    }

    /// The number of an object that may be asked for.
    fn admit(&self, o: u64) -> Result<u32, HoldFail>
        ensures ok { IfOk result
            (λ number. (number ≡ o) × (o < self.now.objects) × (length self.now.held < MAX_HELD)) }
        ensures no_object { (result ≡ Err HoldFail.NoObject) ↔ (self.now.objects ≤ o) }
        ensures full { (result ≡ Err HoldFail.Full)
            ↔ ((o < self.now.objects) × (length self.now.held ≡ MAX_HELD)) }
        ensures err { IfErr result (λ fail. (fail ≡ HoldFail.NoObject) ⊎ (fail ≡ HoldFail.Full)) }
    {
        if o >= u64::from(self.objects) {
            return Err(HoldFail::NoObject);
        }
        if self.held.len() >= MAX_HELD {
            return Err(HoldFail::Full);
        }
        Ok(o as u32)
    }

    /// Puts object `o` back as it was taken, without an end: nothing was done to it. It takes no
    /// memory.
    pub fn unhold<X: Shelf<PlainObject<H>>>(&mut self, shelf: &mut X, o: u64)
        requires held { IsSomeAnd (held_object o self.old.held) (λ x. x.working ≡ None) }

        // An object with acts goes home with their end.
        requires acts { HasNoActs H.tells o self.old.held }
        requires serves { Serves H.told H.last self.old (X.shelving shelf.old) }
        requires terms { (t : Terms) × X.under shelf.old t × Agree H.tells H.told t self.old.held }
        ensures txn { self.new ≡ holding self.old (without_held o self.old.held) }
        ensures put { IfSome (held_object o self.old.held)
            (λ x. IsPut (H.told x.annals) o x (X.shelving shelf.old) (X.shelving shelf.new)) }
        ensures serves { Serves H.told H.last self.new (X.shelving shelf.new) }
        ensures under { (t : Terms) → Agree H.tells H.told t self.old.held → X.under shelf.old t
            → X.under shelf.new t }
        ensures agree { (t : Terms) → Agree H.tells H.told t self.old.held
            → Agree H.tells H.told t self.new.held }
    {
        let Some(i) = place_of(&self.held, o) else {
            unreachable!()
        };
        let Held { number, object, .. } = self.held.remove(i);
        shelf.put(number, object);
    }
}

/// Takes an object that isn't held, with room in its annals for one end.
fn take_ready<H: Annals, X: Shelf<PlainObject<H>>>(
    shelf: &mut X,
    o: u32,
) -> Result<PlainObject<H>, HoldFail>
    requires number { o < (X.shelving shelf.old).objects }
    requires free { IfSome (X.shelving shelf.old).session
        (λ _. (X.shelving shelf.old).out o ≡ None) }
    requires terms { (t : Terms) × X.under shelf.old t }
    ensures ok { IfOk result
        (λ object. HasTaken H.told H.last H.spare o object (X.shelving shelf.old)
        (X.shelving shelf.new)) }
    ensures err { IfErr result
        (λ fail. Leaves H.told H.last fail o (X.shelving shelf.old) (X.shelving shelf.new)) }
    ensures asked { IfErr result (λ fail. (fail ≢ HoldFail.NoObject) × (fail ≢ HoldFail.Full)) }
    ensures exact { IfSome (X.shelving shelf.old).home
        (λ xs. (result ≡ Err HoldFail.Busy) ↔ (slice_get xs o ≡ Some None)) }
    ensures memory { result ≡ Err HoldFail.Memory → H.tells ≡ true }
    ensures under { (t : Terms) → X.under shelf.old t → X.under shelf.new t }
    ensures legal { IfOk result
        (λ object. (t : Terms) → X.under shelf.old t
        → IsLegalObject H.told (slice_index_or t.opened o Plain.Absent) object) }
{
    let Ok(mut object) = shelf.take(o) else {
        return Err(HoldFail::Busy);
    };
    match make_room(&mut object.annals) {
        Ok(()) => Ok(object),
        Err(fail) => {
            shelf.put(o, object);
            Err(fail)
        }
    }
}
