//! A session at work over a shelf of its own, for tests.

ghost use Rattle.std.specs.Prelude.{◌≡◌, ◌<◌, ◌^◌, [], All, IfSome, IfOk, vec_len};

use crate::{BeginFail, HoldFail, PlainObject, Txn, TxnFail};
use eos_ops::{Annals, Bytes, Edit};
use object_locks::{Busy, Shelf, SoloShelf};
use std::alloc::{AllocError, Global};
use std::marker::Model;
use std::process::Abort;

/// A session and the shelf that serves it. In contracts it is the session's transaction.
#[derive(Drop)]
pub struct TestSession<H: Annals> {
    txn: Txn<H>,
    shelf: SoloShelf<PlainObject<H>>,
}

impl<H: Annals> Model for TestSession<H> {
    ghost use Rattle.std.specs.Prelude.{[]};
    ghost use Rattle.object_locks.specs.Shelving.{Terms};
    ghost use Rattle.object_locks.specs.Solo.{solo_shelving, AreSuited};
    ghost use Rattle.shadow_txn.specs.declared.plain_object.PlainObject.{PlainObject};
    ghost use Rattle.shadow_txn.specs.Objects.{IsLegalObject};
    ghost use Rattle.shadow_txn.specs.Serving.{Serves, Agree};
    ghost use Rattle.shadow_txn.specs.Transaction.{Transaction};

    ghost Value = { Transaction (PlainObject H) };

    ghost view = { λ s. s.txn };

    ghost invariant = { λ s. Serves H.told H.last s.txn (solo_shelving s.shelf)
        × ((t : Terms) × AreSuited (λ _. []) (IsLegalObject H.told) s.shelf t
        × Agree H.tells H.told t s.txn.held) };
}

impl<H: Annals> TestSession<H> {
    /// Session 1 over these objects, which have no ends yet.
    pub fn new(alloc: Global, objects: Vec<PlainObject<H>>) -> Result<TestSession<H>, AllocError>
        requires few { vec_len objects < 2 ^ 32 }
        requires rests { All (λ x. x.working ≡ None) objects.items }
        requires new { All (λ x. IfSome (H.told x.annals) (λ ends. ends ≡ [])) objects.items }
    {
        let txn = Txn::new(alloc, 1, objects.len() as u32)?;
        match SoloShelf::new(alloc, objects) {
            Ok(shelf) => Ok(TestSession { txn, shelf }),
            Err(_) => Err(AllocError),
        }
    }

    pub fn begin(&mut self) -> Result<(), BeginFail> {
        self.txn.begin()
    }

    pub fn hold(&mut self, rt: &impl Abort, o: u64) -> Result<(), HoldFail> {
        assert!(rt; self.txn.is_open());
        self.txn.hold(&mut self.shelf, o)
    }

    pub fn length(&mut self, rt: &impl Abort, o: u64) -> Result<u64, TxnFail> {
        assert!(rt; self.txn.holds(o));
        self.txn.length(o)
    }

    pub fn read(&mut self, rt: &impl Abort, o: u64, at: u64, len: u64) -> Result<Bytes, TxnFail> {
        assert!(rt; self.txn.holds(o));
        self.txn.read(o, at, len)
    }

    pub fn edit(&mut self, rt: &impl Abort, o: u64, edit: &Edit) -> Result<(), TxnFail> {
        assert!(rt; self.txn.holds(o));
        self.txn.edit(o, edit)
    }

    pub fn commit(&mut self, rt: &impl Abort) -> u64 {
        assert!(rt; self.txn.is_open());
        self.txn.commit(&mut self.shelf)
    }

    pub fn abort(&mut self, rt: &impl Abort) -> u64 {
        assert!(rt; self.txn.is_open());
        self.txn.abort(&mut self.shelf)
    }

    /// Another session asks for an object that this one holds.
    pub fn finds_busy(&mut self, rt: &impl Abort, other: &mut Txn<H>, o: u64)
        requires { other.old.held ≡ [] }
        ensures { other.new.held ≡ [] }
    {
        assert!(rt; other.is_open());
        assert_eq!(rt; other.objects, self.shelf.objects());
        let answer = other.hold(&mut self.shelf, o);
        assert_eq!(rt; answer, Err(HoldFail::Busy));
    }

    /// Another session works on, over the same shelf.
    pub fn hand_over(self, rt: &impl Abort, other: Txn<H>) -> TestSession<H>
        requires { other.held ≡ [] }
    {
        let TestSession { shelf, .. } = self;
        assert_eq!(rt; other.objects, shelf.objects());
        TestSession { txn: other, shelf }
    }

    /// Object `o` off the shelf.
    pub fn into_object(self, rt: &impl Abort, o: u32) -> Result<PlainObject<H>, Busy> {
        let TestSession { mut shelf, .. } = self;
        assert!(rt; o < shelf.objects());
        shelf.take(o)
    }
}
