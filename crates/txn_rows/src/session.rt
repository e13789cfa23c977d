//! A session at work over a shelf and a space of its own.

ghost use Rattle.std.specs.Prelude.{◌≡◌, ◌<◌, ◌^◌, [], All, IfSome, true, vec_len};
ghost use Rattle.object_body.specs.Form.{NamesThreshold};
ghost use Rattle.object_body.specs.Places.{IsReady};
ghost use Rattle.superdirectory.specs.Solo.{rest_of};
ghost use Rattle.geometry_model.specs.Numbers.{objects};
ghost use Rattle.txn_rows.specs.Session.{AreFresh};

use body_txn::Txn;
use eos_ops::{Annals, Bytes, Edit};
use object_body::{Body, Object};
use object_locks::{Busy, Shelf, SoloShelf};
use page_port::{Geometry, MemPort, MemSpan, Port};
use shadow_txn::{BeginFail, HoldFail, TxnFail};
use space_directory::Counts;
use std::alloc::{AllocError, Global};
use std::marker::Model;
use std::process::Abort;
use superdirectory::{Hints, Latches, Solo};

/// A session with the shelf that serves it, its spaces and its port, over memory, which tells its
/// bytes. In contracts it is the session's transaction.
#[derive(Drop)]
pub struct Session<B: Body<P = MemPort>, H: Annals> {
    txn: Txn<B, H>,
    shelf: SoloShelf<Object<B, H>>,
    spaces: Solo<MemSpan>,
    port: MemPort,
}

impl<B: Body<P = MemPort>, H: Annals> Model for Session<B, H> {
    ghost use Rattle.std.specs.Prelude.{true};
    ghost use Rattle.object_body.specs.declared.object.Object.{Object};
    ghost use Rattle.shadow_txn.specs.Transaction.{Transaction};
    ghost use Rattle.superdirectory.specs.Solo.{rest_of};
    ghost use Rattle.txn_rows.specs.Session.{IsAtWork};

    ghost Value = { Transaction (Object B H) };

    ghost view = { λ s. s.txn };

    ghost invariant = { λ s. IsAtWork true B.form B.told H.told H.last s.txn s.shelf
        (rest_of s.spaces) s.port.meter.page };
}

impl<B: Body<P = MemPort>, H: Annals> Session<B, H> {
    /// Session 1 over all objects of a store, which have no ends yet.
    ///
    /// `AllocError` also says that these aren't as many objects, or not pages of this size.
    pub fn new(
        alloc: Global,
        geometry: &Geometry,
        objects: Vec<Object<B, H>>,
        spaces: Solo<MemSpan>,
        port: MemPort,
    ) -> Result<Session<B, H>, AllocError>
        requires fresh { AreFresh B.form H.told geometry.now objects.items }
        requires ready { IsReady geometry.now (rest_of spaces) }
    {
        if objects.len() != geometry.objects() as usize {
            return Err(AllocError);
        }
        if port.page() != geometry.page() {
            return Err(AllocError);
        }
        let txn = Txn::new(alloc, 1, geometry)?;
        match SoloShelf::new(alloc, objects) {
            Ok(shelf) => Ok(Session {
                txn,
                shelf,
                spaces,
                port,
            }),
            Err(_) => Err(AllocError),
        }
    }

    pub fn begin(&mut self) -> Result<(), BeginFail> {
        self.txn.begin()
    }

    pub fn hold(&mut self, rt: &impl Abort, o: u64) -> Result<bool, HoldFail> {
        assert!(rt; self.txn.is_open());
        self.txn.hold(&mut self.shelf, o)
    }

    pub fn length(&mut self, rt: &impl Abort, o: u64) -> Result<u64, TxnFail> {
        assert!(rt; self.txn.holds(o));
        self.txn.length(o)
    }

    pub fn read(&mut self, rt: &impl Abort, o: u64, at: u64, len: u64) -> Result<Bytes, TxnFail> {
        assert!(rt; self.txn.holds(o));
        self.txn.read(&mut self.port, o, at, len)
    }

    pub fn edit(&mut self, rt: &impl Abort, o: u64, edit: &Edit) -> Result<(), TxnFail>
        requires { NamesThreshold edit.now }
    {
        assert!(rt; self.txn.holds(o));
        self.txn
            .edit(&mut self.port, &mut self.spaces, &mut (), o, edit)
    }

    pub fn commit(&mut self, rt: &impl Abort) -> u64 {
        assert!(rt; self.txn.is_open());
        self.txn.commit(&mut self.shelf, &mut self.spaces, &mut ())
    }

    pub fn abort(&mut self, rt: &impl Abort) -> u64 {
        assert!(rt; self.txn.is_open());
        self.txn.abort(&mut self.shelf, &mut self.spaces, &mut ())
    }

    /// How many pages of space 0 are free, and how many locked.
    pub fn counts(&mut self) -> (u32, u32) {
        let space = self.spaces.enter(&mut (), 0);
        let Counts { free, locked } = space.counts();
        self.spaces.leave(0, space);
        (free, locked)
    }
}
