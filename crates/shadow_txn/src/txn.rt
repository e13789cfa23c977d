//! A session's place for a transaction.

ghost use Rattle.std.specs.Prelude.{◌≡◌, ◌↔◌, ◌≤◌, ◌^◌, ◌+◌, Err, true, false, IfOk, OnOk, OnErr};
ghost use Rattle.std.specs.Prelude.{is_some};
ghost use Rattle.shadow_txn.specs.Transaction.{Transaction, unbegun, with_begin};
ghost use Rattle.shadow_txn.specs.Held.{held_object};

use crate::held::place_of;
use crate::{BeginFail, Held, PlainObject};
use eos_ops::{Annals, LAST_STAMP, MAX_HELD};
use std::alloc::{AllocError, Global};
use std::marker::Model;

/// One session's place for a transaction, open or not, with the objects that it holds.
///
/// In contracts it is a `Transaction`.
#[derive(Drop)]
pub struct Txn<H: Annals> {
    pub(crate) session: u32,
    pub(crate) objects: u32,
    pub(crate) active: bool,
    pub(crate) number: u64,
    pub(crate) stamp: u64,
    pub(crate) held: Vec<Held<PlainObject<H>>>,
    pub(crate) alloc: Global,
}

impl<H: Annals> Model for Txn<H> {
    ghost use Rattle.std.specs.Prelude.{vec_capacity};
    ghost use Rattle.shadow_txn.specs.declared.plain_object.PlainObject.{PlainObject};
    ghost use Rattle.shadow_txn.specs.Acts.{IsLed};
    ghost use Rattle.shadow_txn.specs.Transaction.{Transaction, IsSoundTxn};

    ghost Value = { Transaction (PlainObject H) };

    ghost view = { λ t. record {
      session = t.session;
      objects = t.objects;
      is_open = t.active;
      number = t.number;
      stamp = t.stamp;
      held = t.held.items;
    } };

    ghost invariant = { λ t. IsSoundTxn (λ x. H.spare x.annals) (λ x. H.last x.annals)
        (IsLed H.tells H.told H.last) (vec_capacity t.held)
        (record {
          session = t.session;
          objects = t.objects;
          is_open = t.active;
          number = t.number;
          stamp = t.stamp;
          held = t.held.items;
        }) };
}

impl<H: Annals> Txn<H> {
    ghost use Rattle.object_locks.specs.Shelving.{Shelving};
    ghost use Rattle.shadow_txn.specs.declared.plain_object.PlainObject.{PlainObject};
    ghost use Rattle.shadow_txn.specs.Serving.{Serves};

    /// A place for the transactions of a session, which is numbered from 1 on, over so many
    /// objects. None is open.
    ///
    /// It makes the room for all objects that may be held. `AllocError` says that there was no
    /// memory for it.
    pub fn new(alloc: Global, session: u32, objects: u32) -> Result<Txn<H>, AllocError>
        requires { 1 ≤ session }
        ensures { IfOk result (λ txn. txn ≡ unbegun session objects) }
    {
        let held = Vec::with_capacity(alloc, MAX_HELD)?;
        Ok(Txn {
            session,
            objects,
            active: false,
            number: 0,
            stamp: 0,
            held,
            alloc,
        })
    }

    /// Whether a transaction is open.
    pub fn is_open(&self) -> bool
        ensures { result ≡ self.now.is_open }
    {
        self.active
    }

    /// Whether the transaction holds object `o`.
    pub fn holds(&self, o: u64) -> bool
        ensures { result ≡ is_some (held_object o self.now.held) }
    {
        place_of(&self.held, o).is_some()
    }

    /// Begins a transaction, with the next number.
    pub fn begin(&mut self) -> Result<(), BeginFail>
        ensures ok { OnOk result (self.new ≡ with_begin self.old) }
        ensures active { (result ≡ Err BeginFail.Active) ↔ (self.old.is_open ≡ true) }
        ensures worn { (result ≡ Err BeginFail.Worn)
            ↔ ((self.old.is_open ≡ false) × (self.old.stamp ≡ 2 ^ 62)) }
        ensures err { OnErr result (self.new ≡ self.old) }
        ensures held { self.new.held ≡ self.old.held }

        // A shelf that served the session serves it still.
        ensures serves { (shelf : Shelving (PlainObject H)) → Serves H.told H.last self.old shelf
            → Serves H.told H.last self.new shelf }
    {
        if self.active {
            return Err(BeginFail::Active);
        }
        if self.stamp == LAST_STAMP {
            return Err(BeginFail::Worn);
        }
        self.active = true;
        self.number += 1;
        Ok(())
    }
}
