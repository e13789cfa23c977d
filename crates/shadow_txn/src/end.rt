//! The end of a transaction.

ghost use Rattle.std.specs.Prelude.{◌≡◌, ◌+◌, ◌<◌, ◌≤◌, ◌^◌, max, [], true, false, Some, None, All};
ghost use Rattle.std.specs.Prelude.{vec_capacity, slice_index_or};
ghost use Rattle.std.specs.Option.{option_map};
ghost use Rattle.object_locks.specs.Shelving.{Terms};
ghost use Rattle.shadow_txn.specs.Acts.{IsLed};
ghost use Rattle.shadow_txn.specs.Ending.{HasEnded, IsEnding, HaveEnds, HasGot, CanEnd, MayEnd};
ghost use Rattle.shadow_txn.specs.Ending.{GoesHome, end_with, made_ends, with_puts};
ghost use Rattle.shadow_txn.specs.Held.{held_object, AreDistinct};
ghost use Rattle.shadow_txn.specs.Objects.{IsLegalObject};
ghost use Rattle.shadow_txn.specs.Serving.{Serves, Agree, AreLegal};
ghost use Rattle.shadow_txn.specs.Transaction.{with_end, end_stamp, greatest_last};

use crate::{Held, PlainObject, Txn};
use eos_ops::{Acts, Annals, End, Plain};
use object_locks::Shelf;

/// What the end of a transaction writes into the annals of each of its objects, beside the acts on
/// it.
#[derive(Clone, Copy)]
struct Closing {
    stamp: u64,
    session: u32,
    number: u64,
    committed: bool,
}

impl<H: Annals> Txn<H> {
    /// Ends the transaction, makes the working versions the committed ones, and puts all objects
    /// back. It gives the stamp of the end, and takes no memory.
    pub fn commit<X: Shelf<PlainObject<H>>>(&mut self, shelf: &mut X) -> u64
        requires open { self.old.is_open ≡ true }
        requires serves { Serves H.told H.last self.old (X.shelving shelf.old) }
        requires terms { (t : Terms) × X.under shelf.old t × Agree H.tells H.told t self.old.held }
        ensures stamp { result ≡ end_stamp (λ x. H.last x.annals) self.old }
        ensures within { result ≤ 2 ^ 62 }
        ensures txn { self.new ≡ with_end self.old result }
        ensures shelf { IsEnding
            (HasEnded H.told H.last result self.old.session self.old.number true) self.old.held
            (X.shelving shelf.old) (X.shelving shelf.new) }

        // The end stands in the annals of each object with the acts on it.
        ensures ends { HaveEnds H.told
            (end_with result self.old.session self.old.number true) self.old.held
            (X.shelving shelf.new) }
        ensures log { (X.shelving shelf.new).log ≡ option_map
            (with_puts
            (made_ends (X.shelving shelf.old).out
            (end_with result self.old.session self.old.number true) self.old.held))
            (X.shelving shelf.old).log }
        ensures serves { Serves H.told H.last self.new (X.shelving shelf.new) }
        ensures under { (t : Terms) → Agree H.tells H.told t self.old.held → X.under shelf.old t
            → X.under shelf.new t }
    {
        self.close(shelf, true)
    }

    /// Ends the transaction, forgets the working versions, and puts all objects back. It gives the
    /// stamp of the end, and takes no memory.
    pub fn abort<X: Shelf<PlainObject<H>>>(&mut self, shelf: &mut X) -> u64
        requires open { self.old.is_open ≡ true }
        requires serves { Serves H.told H.last self.old (X.shelving shelf.old) }
        requires terms { (t : Terms) × X.under shelf.old t × Agree H.tells H.told t self.old.held }
        ensures stamp { result ≡ end_stamp (λ x. H.last x.annals) self.old }
        ensures within { result ≤ 2 ^ 62 }
        ensures txn { self.new ≡ with_end self.old result }
        ensures shelf { IsEnding
            (HasEnded H.told H.last result self.old.session self.old.number false) self.old.held
            (X.shelving shelf.old) (X.shelving shelf.new) }
        ensures ends { HaveEnds H.told
            (end_with result self.old.session self.old.number false) self.old.held
            (X.shelving shelf.new) }
        ensures log { (X.shelving shelf.new).log ≡ option_map
            (with_puts
            (made_ends (X.shelving shelf.old).out
            (end_with result self.old.session self.old.number false) self.old.held))
            (X.shelving shelf.old).log }
        ensures serves { Serves H.told H.last self.new (X.shelving shelf.new) }
        ensures under { (t : Terms) → Agree H.tells H.told t self.old.held → X.under shelf.old t
            → X.under shelf.new t }
    {
        self.close(shelf, false)
    }

    /// Ends the transaction.
    fn close<X: Shelf<PlainObject<H>>>(&mut self, shelf: &mut X, committed: bool) -> u64
        requires open { self.old.is_open ≡ true }
        requires serves { Serves H.told H.last self.old (X.shelving shelf.old) }
        requires terms { (t : Terms) × X.under shelf.old t × Agree H.tells H.told t self.old.held }
        ensures stamp { result ≡ end_stamp (λ x. H.last x.annals) self.old }
        ensures within { result ≤ 2 ^ 62 }
        ensures txn { self.new ≡ with_end self.old result }
        ensures shelf { IsEnding
            (HasEnded H.told H.last result self.old.session self.old.number committed) self.old.held
            (X.shelving shelf.old) (X.shelving shelf.new) }
        ensures ends { HaveEnds H.told
            (end_with result self.old.session self.old.number committed) self.old.held
            (X.shelving shelf.new) }
        ensures log { (X.shelving shelf.new).log ≡ option_map
            (with_puts
            (made_ends (X.shelving shelf.old).out
            (end_with result self.old.session self.old.number committed) self.old.held))
            (X.shelving shelf.old).log }
        ensures serves { Serves H.told H.last self.new (X.shelving shelf.new) }
        ensures under { (t : Terms) → Agree H.tells H.told t self.old.held → X.under shelf.old t
            → X.under shelf.new t }
    {
        let stamp = next_stamp(self.stamp, &self.held);
        let closing = Closing {
            stamp,
            session: self.session,
            number: self.number,
            committed,
        };
        put_all(&mut self.held, shelf, closing);
        self.active = false;
        self.stamp = stamp;
        stamp
    }
}

/// One more than the last stamps of the session and of all objects.
fn next_stamp<H: Annals>(own: u64, held: &[Held<PlainObject<H>>]) -> u64
    requires own { own < 2 ^ 62 }
    requires lasts { All (λ h. H.last h.object.annals < 2 ^ 62) held.now }
    ensures stamp { result ≡ max own (greatest_last (λ x. H.last x.annals) held.now) + 1 }
    ensures within { result ≤ 2 ^ 62 }
{
    let mut greatest = own;
    for one in held {
        greatest = greatest.max(one.object.annals.last_stamp());
    }
    greatest + 1
}

/// Puts all objects back, each with its end, from the last to the first.
fn put_all<H: Annals, X: Shelf<PlainObject<H>>>(
    held: &mut Vec<Held<PlainObject<H>>>,
    shelf: &mut X,
    closing: Closing,
)
    requires within { closing.stamp ≤ 2 ^ 62 }
    requires each { All (CanEnd H.tells H.told H.last H.spare closing.stamp (X.shelving shelf.old))
        held.old.items }
    requires may { MayEnd closing.stamp closing.session closing.number (X.shelving shelf.old) }
    requires distinct { AreDistinct held.old.items }
    requires terms { (t : Terms) × X.under shelf.old t × (t.frame ≡ [])
        × AreLegal H.told t held.old.items }
    ensures none { held.new.items ≡ [] }
    ensures capacity { vec_capacity held.new ≡ vec_capacity held.old }
    ensures shelf { IsEnding
        (HasEnded H.told H.last closing.stamp closing.session closing.number closing.committed)
        held.old.items (X.shelving shelf.old) (X.shelving shelf.new) }
    ensures ends { HaveEnds H.told
        (end_with closing.stamp closing.session closing.number closing.committed) held.old.items
        (X.shelving shelf.new) }
    ensures log { (X.shelving shelf.new).log ≡ option_map
        (with_puts
        (made_ends (X.shelving shelf.old).out
        (end_with closing.stamp closing.session closing.number closing.committed)
        held.old.items)) (X.shelving shelf.old).log }
    ensures may { MayEnd closing.stamp closing.session closing.number (X.shelving shelf.new) }
    ensures under { (t : Terms) → t.frame ≡ [] → AreLegal H.told t held.old.items
        → X.under shelf.old t → X.under shelf.new t }
{
    'puts: while let Some(one) = held.pop() {
        put_one(one, shelf, closing);
    }
}

/// Puts an object back with its end.
fn put_one<H: Annals, X: Shelf<PlainObject<H>>>(
    one: Held<PlainObject<H>>,
    shelf: &mut X,
    closing: Closing,
)
    requires within { closing.stamp ≤ 2 ^ 62 }
    requires can { CanEnd H.tells H.told H.last H.spare closing.stamp (X.shelving shelf.old) one }
    requires may { MayEnd closing.stamp closing.session closing.number (X.shelving shelf.old) }
    requires terms { (t : Terms) × X.under shelf.old t × (t.frame ≡ [])
        × IsLegalObject H.told (slice_index_or t.opened one.number Plain.Absent) one.object }
    ensures home { GoesHome H.told H.last
        (end_with closing.stamp closing.session closing.number closing.committed one.acts)
        one.number one.object (X.shelving shelf.old) (X.shelving shelf.new) }
    ensures may { MayEnd closing.stamp closing.session closing.number (X.shelving shelf.new) }
    ensures under { (t : Terms) → t.frame ≡ []
        → IsLegalObject H.told (slice_index_or t.opened one.number Plain.Absent) one.object
        → X.under shelf.old t → X.under shelf.new t }
{
    let Held {
        number,
        mut object,
        acts,
    } = one;
    end_object(&mut object, acts, closing);
    shelf.put(number, object);
}

/// Decides between the versions of an object, and writes the end into its annals.
fn end_object<H: Annals>(object: &mut PlainObject<H>, acts: Acts, closing: Closing)
    requires within { closing.stamp ≤ 2 ^ 62 }
    requires room { 1 ≤ H.spare object.old.annals }
    requires above { H.last object.old.annals < closing.stamp }
    ensures { HasGot H.told H.last
        (end_with closing.stamp closing.session closing.number closing.committed acts) object.old
        object.new }
{
    object.decide(closing.committed);
    object.annals.append_end(End {
        stamp: closing.stamp,
        session: closing.session,
        number: closing.number,
        acts,
        committed: closing.committed,
    });
}
