//! A session's place for a transaction.

ghost use Rattle.std.specs.Prelude.{◌≡◌, ◌↔◌, ◌≤◌, ◌^◌, Err, true, false, IfOk, OnOk, OnErr};
ghost use Rattle.std.specs.Prelude.{is_some};
ghost use Rattle.geometry_model.specs.Numbers.{objects};
ghost use Rattle.shadow_txn.specs.Held.{held_object};
ghost use Rattle.shadow_txn.specs.Transaction.{unbegun, with_begin};
ghost use Rattle.body_txn.specs.Fields.{at_annals, frame_by, LegalBy};
ghost use Rattle.body_txn.specs.Serving.{GoesOn};

use eos_ops::{Annals, LAST_STAMP, MAX_HELD};
use object_body::{Body, Object};
use page_port::Geometry;
use shadow_txn::{BeginFail, Held, place_of};
use std::alloc::{AllocError, Global};
use std::marker::Model;

/// One session's place for a transaction, open or not, with the objects that it holds.
///
/// In contracts it is a `Transaction`.
#[derive(Drop)]
pub struct Txn<B: Body, H: Annals> {
    pub(crate) session: u32,
    pub(crate) objects: u32,
    pub(crate) active: bool,
    pub(crate) number: u64,
    pub(crate) stamp: u64,
    pub(crate) held: Vec<Held<Object<B, H>>>,
    pub(crate) alloc: Global,
}

impl<B: Body, H: Annals> Model for Txn<B, H> {
    ghost use Rattle.std.specs.Prelude.{vec_capacity};
    ghost use Rattle.object_body.specs.declared.object.Object.{Object};
    ghost use Rattle.shadow_txn.specs.Transaction.{Transaction, IsSoundTxn};
    ghost use Rattle.body_txn.specs.Acts.{IsLedBy};
    ghost use Rattle.body_txn.specs.Fields.{at_annals, at_body};

    ghost Value = { Transaction (Object B H) };

    ghost view = { λ t. record {
      session = t.session;
      objects = t.objects;
      is_open = t.active;
      number = t.number;
      stamp = t.stamp;
      held = t.held.items;
    } };

    ghost invariant = { λ t. IsSoundTxn (at_annals H.spare) (at_annals H.last)
        (IsLedBy B.P.S.tells B.suits (at_body B.form) (at_body B.told) H.tells (at_annals H.told)
        (at_annals H.last)) (vec_capacity t.held)
        (record {
          session = t.session;
          objects = t.objects;
          is_open = t.active;
          number = t.number;
          stamp = t.stamp;
          held = t.held.items;
        }) };
}

impl<B: Body, H: Annals> Txn<B, H> {
    /// A place for the transactions of a session, which is numbered from 1 on, over the objects of
    /// a store. None is open.
    ///
    /// It makes the room for all objects that may be held. `AllocError` says that there was no
    /// memory for it.
    pub fn new(alloc: Global, session: u32, geometry: &Geometry) -> Result<Txn<B, H>, AllocError>
        requires { 1 ≤ session }
        ensures { IfOk result (λ txn. txn ≡ unbegun session (objects geometry.now)) }
    {
        let held = Vec::with_capacity(alloc, MAX_HELD)?;
        Ok(Txn {
            session,
            objects: geometry.objects(),
            active: false,
            number: 0,
            stamp: 0,
            held,
            alloc,
        })
    }

    /// Whether a transaction is open.
    pub fn is_open(&self) -> bool
        ensures { result ≡ self.now.is_open }
    {
        self.active
    }

    /// Whether the transaction holds object `o`.
    pub fn holds(&self, o: u64) -> bool
        ensures { result ≡ is_some (held_object o self.now.held) }
    {
        place_of(&self.held, o).is_some()
    }

    /// Begins a transaction, with the next number.
    ///
    /// # Errors
    /// `Active` where one is open, `Worn` where none is and the session's last stamp is the last
    /// there is.
    pub fn begin(&mut self) -> Result<(), BeginFail>
        ensures ok { OnOk result (self.new ≡ with_begin self.old) }
        ensures active { (result ≡ Err BeginFail.Active) ↔ (self.old.is_open ≡ true) }
        ensures worn { (result ≡ Err BeginFail.Worn)
            ↔ ((self.old.is_open ≡ false) × (self.old.stamp ≡ 2 ^ 62)) }
        ensures err { OnErr result (self.new ≡ self.old) }
        ensures goes_on { GoesOn (at_annals H.told) (at_annals H.last) (frame_by B.form)
            (LegalBy B.P.S.tells H.told B.told) self.old self.new }
    {
        if self.active {
            return Err(BeginFail::Active);
        }
        if self.stamp == LAST_STAMP {
            return Err(BeginFail::Worn);
        }
        self.active = true;
        self.number += 1;
        Ok(())
    }
}
