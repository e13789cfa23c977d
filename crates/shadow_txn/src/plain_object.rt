//! An object that is a byte string in memory.

ghost use Rattle.std.specs.Prelude.{◌≡◌, None, [], IfOk, Ok, Err, OnErr, if◌then◌else◌};
ghost use Rattle.shadow_txn.specs.Objects.{IsLegalObject};

use crate::TxnFail;
use crate::first_edit::edited_copy;
use eos_ops::{Annals, Bytes, Edit, Outcome, Plain, apply_plain};
use object_locks::Aged;
use std::alloc::{AllocError, Global};

/// A byte string in two versions, with the ends of the transactions that held it.
///
/// Without a working version the two are equal, so both ends of a transaction move and take no
/// memory.
#[derive(Drop)]
pub struct PlainObject<H> {
    /// What the last commit left.
    pub committed: Plain,
    /// What the transaction that holds it has made of it, where it has edited it.
    pub working: Option<Plain>,
    /// The ends of the transactions that held it, or their last stamp alone.
    pub annals: H,
}

impl<H: Annals> Aged for PlainObject<H> {
    ghost told = { λ x. H.told x.annals };

    ghost rests = { λ x. x.working ≡ None };

    ghost frame = { λ _. [] };

    ghost legal = { IsLegalObject H.told };

    // Stamps rise from 1 on, so there are no more ends than the last stamp says.
    fn ends(&self) -> u64 {
        self.annals.ends().min(self.annals.last_stamp())
    }
}

impl<H> PlainObject<H> {
    ghost use Rattle.eos_ops.specs.Edits.{outcome_in};
    ghost use Rattle.eos_ops.specs.Memory.{GivesBytes};
    ghost use Rattle.eos_ops.specs.Objects.{length_in, read_in};
    ghost use Rattle.shadow_txn.specs.declared.fails.TxnFail.TheVariants.{Memory};
    ghost use Rattle.shadow_txn.specs.Memory.{WantsMemory};
    ghost use Rattle.shadow_txn.specs.Objects.{working_of, edited_object};
    ghost use Rattle.shadow_txn.specs.Replies.{bytes_reply, length_reply};

    /// The working version.
    pub(crate) fn current(&self) -> &Plain
        ensures { result.now ≡ working_of self.now }
    {
        match &self.working {
            Some(working) => working,
            None => &self.committed,
        }
    }

    /// The length of the working version in bytes.
    pub(crate) fn length(&self) -> Result<u64, TxnFail>
        ensures { length_reply result ≡ length_in (working_of self.now) }
    {
        match self.current() {
            Plain::Absent => Err(TxnFail::Missing),
            Plain::Present(bytes) => Ok(bytes.len()),
        }
    }

    /// The `len` bytes of the working version from `at` on. It takes memory for these alone.
    pub(crate) fn read(&self, alloc: Global, at: u64, len: u64) -> Result<Bytes, TxnFail>
        ensures reply { (result ≡ Err Memory → ⊥)
            → bytes_reply result ≡ read_in at len (working_of self.now) }
        ensures memory { result ≡ Err Memory → GivesBytes (read_in at len (working_of self.now)) }
    {
        let Plain::Present(bytes) = self.current() else {
            return Err(TxnFail::Missing);
        };
        if !bytes.has_range(at, len) {
            return Err(TxnFail::Range(bytes.len()));
        }
        match bytes.read(alloc, at, len) {
            Ok(copy) => Ok(copy),
            Err(_) => Err(TxnFail::Memory),
        }
    }

    /// Edits the working version alone, which is made by the first edit. After any answer but
    /// `Done` nothing has changed.
    pub(crate) fn edit(&mut self, alloc: Global, edit: &Edit) -> Result<Outcome, AllocError>
        ensures outcome { IfOk result
            (λ outcome. outcome ≡ outcome_in edit.now (working_of self.old)) }
        ensures annals { self.new.annals ≡ self.old.annals }
        ensures done { result ≡ Ok Outcome.Done → self.new ≡ edited_object edit.now self.old }
        ensures refused { IfOk result
            (λ outcome. (outcome ≡ Outcome.Done → ⊥) → self.new ≡ self.old) }
        ensures memory { OnErr result (WantsMemory edit.now self.old) }
        ensures err { OnErr result (self.new ≡ self.old) }
    {
        if let Some(working) = &mut self.working {
            return apply_plain(alloc, edit, working);
        }
        let outcome = edit.outcome(&self.committed);
        if outcome == Outcome::Done {
            self.working = Some(edited_copy(alloc, edit, &self.committed)?);
        }
        Ok(outcome)
    }

    /// Makes the working version the committed one, or else forgets it. It takes no memory.
    pub(crate) fn decide(&mut self, committed: bool)
        ensures kept { self.new.committed
            ≡ (if committed then working_of self.old else self.old.committed) }
        ensures rests { self.new.working ≡ None }
        ensures annals { self.new.annals ≡ self.old.annals }
    {
        if let Some(working) = self.working.take()
            && committed
        {
            self.committed = working;
        }
    }
}
