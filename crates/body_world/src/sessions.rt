//! All sessions over stored objects, and what a command does to them.

ghost use Rattle.std.specs.Prelude.{◌≡◌, ◌<◌, ◌≤◌, ℕ, IsTrue, IfOk, IfErr, length, true, false};
ghost use Rattle.std.specs.Prelude.{IsSome, if◌then◌else◌};
ghost use Rattle.eos_ops.specs.declared.command.Command.TheVariants.{Begin, Commit, Abort, Status};
ghost use Rattle.eos_ops.specs.declared.limits.TheConstants.{SESSIONS};
ghost use Rattle.eos_ops.specs.Objects.{object_of, is_too_long};
ghost use Rattle.machine.specs.Machine.{is_active, is_holder, slot_at};
ghost use Rattle.store_model.specs.Store.{IsOwedStep, IsToldStep};
ghost use Rattle.world.specs.Session.{begin_reply};
ghost use Rattle.body_world.specs.Ending.{AreLastParts, HaveStopped, IsBareEnd, IsStopped};
ghost use Rattle.body_world.specs.Ending.{IsToldEnd};
ghost use Rattle.body_world.specs.Pages.{MovesPages, UsesPort};
ghost use Rattle.body_world.specs.Served.{NamesThresholdIn};
ghost use Rattle.body_world.specs.Session.{shown_by};
ghost use Rattle.body_world.specs.Start.{AreParts, RolesAgree, store_of_parts};

use crate::ending::end;
use crate::serve::serve;
use crate::start::{Unmade, idle_sessions};
use crate::status::count_all;
use body_txn::Txn;
use eos_ops::{Blank, Command, Reply, SESSIONS};
use object_body::{Body, Object};
use object_locks::SoloShelf;
use page_port::{Geometry, Port};
use shadow_txn::BeginFail;
use space_directory::Space;
use std::alloc::Global;
use std::marker::Model;
use superdirectory::Solo;

/// The sessions 1 to `SESSIONS` over the objects and the spaces of one store, for one thread.
///
/// In contracts it is the store, with the counts of the port.
#[derive(Drop)]
pub struct World<P: Port, B: Body<P = P>> {
    alloc: Global,
    geometry: Geometry,
    /// Session `s` has the place `s - 1`.
    sessions: Vec<Txn<B, Blank>>,
    /// The objects that no session holds.
    objects: SoloShelf<Object<B, Blank>>,
    spaces: Solo<P::S>,
    port: P,
}

impl<P: Port, B: Body<P = P>> Model for World<P, B> {
    ghost use Rattle.superdirectory.specs.Solo.{rest_of};
    ghost use Rattle.body_world.specs.Keeping.{WorldView, IsWorld};
    ghost use Rattle.body_world.specs.Session.{shown_by};
    ghost use Rattle.body_world.specs.Ties.{viewed};

    ghost Value = { WorldView };

    ghost view = { λ w. record {
      store = viewed (shown_by B.form B.told) w.geometry w.objects w.sessions.items;
      meter = P.meter w.port;
    } };

    ghost invariant = { λ w. IsWorld P.S.tells B.good (shown_by B.form B.told) w.geometry
        w.objects w.sessions.items (rest_of w.spaces) (P.meter w.port).page };
}

impl<P: Port, B: Body<P = P>> World<P, B> {
    /// A world over the spaces and the objects of a store, each in the order of their numbers, and a
    /// port to its device. No transaction is open.
    ///
    /// # Errors
    /// There was no memory for the places of the sessions. The parts are handed back.
    pub fn new(
        alloc: Global,
        geometry: &Geometry,
        spaces: Vec<Space<P::S>>,
        objects: Vec<Object<B, Blank>>,
        port: P,
    ) -> Result<World<P, B>, Unmade<P, B>>
        requires parts { AreParts (shown_by B.form B.told) geometry.now spaces.items
            objects.items (P.meter port).page }
        requires roles { IsTrue P.S.tells → RolesAgree B.good (shown_by B.form B.told)
            geometry.now spaces.items objects.items }
        ensures ok { IfOk result (λ world. world ≡ record {
          store = store_of_parts (shown_by B.form B.told) geometry.now SESSIONS
              objects.items;
          meter = P.meter port;
        }) }
        ensures err { IfErr result (λ back. (back.spaces.items ≡ spaces.items)
            × (back.objects.items ≡ objects.items) × (back.port ≡ port)) }
    {
        let _page = geometry.page();
        let Ok(sessions) = idle_sessions(alloc, geometry) else {
            return Err(Unmade {
                spaces,
                objects,
                port,
            });
        };
        let spaces = match Solo::new(alloc, spaces) {
            Ok(spaces) => spaces,
            Err(spaces) => {
                return Err(Unmade {
                    spaces,
                    objects,
                    port,
                });
            }
        };
        match SoloShelf::new(alloc, objects) {
            Ok(objects) => Ok(World {
                alloc,
                geometry: *geometry,
                sessions,
                objects,
                spaces,
                port,
            }),
            Err(objects) => Err(Unmade {
                spaces: spaces.finish(),
                objects,
                port,
            }),
        }
    }

    /// Runs a command of session 1 to 64 and gives its reply: the first refusal, else the answer of
    /// the object or of the spaces. `Memory` changes nothing, and `Fault` comes only where the
    /// port's count of faults rose. A threshold that is named has 1 to 8,192 pages.
    pub fn step(&mut self, session: u32, command: Command) -> Reply
        requires from_one { 0 < session }
        requires upto { session ≤ SESSIONS }
        requires threshold { NamesThresholdIn command }
        ensures owed { IsOwedStep self.old.store.machine session command result
            self.new.store.machine }
        ensures told { IsTrue P.S.tells → IsTrue B.on_pages
            → IsToldStep B.laid self.old.store session command result self.new.store }
        ensures numbers { self.new.store.numbers ≡ self.old.store.numbers }
        ensures port { UsesPort self.old.meter self.new.meter (result ≡ Reply.Fault) }
        ensures pages { IsTrue P.S.tells → MovesPages B.may_write B.may_read self.old.store
            self.new.store command self.old.meter self.new.meter }
    {
        prove!(session as usize <= self.sessions.len());
        if command.is_too_long() {
            return Reply::TooLong;
        }
        match command {
            Command::Begin => self.begin(session),
            Command::Commit => self.close(session, true),
            Command::Abort => self.close(session, false),
            Command::Status => self.status(session),
            command => self.ask(session, command),
        }
    }

    /// Whether a transaction of the session is open.
    fn is_open(&self, session: u32) -> bool
        requires from_one { 0 < session }
        requires upto { session ≤ SESSIONS }
        ensures active { result ≡ is_active self.now.store.machine session }
        ensures sessions { length self.now.store.machine.seats ≡ SESSIONS }

        // A session with nothing open holds nothing.
        ensures idle { result ≡ false → (o : ℕ) →
            is_holder session (slot_at self.now.store.machine o).holder ≡ false }
    {
        self.sessions[(session - 1) as usize].is_open()
    }

    /// Opens a transaction.
    fn begin(&mut self, session: u32) -> Reply
        requires from_one { 0 < session }
        requires upto { session ≤ SESSIONS }
        ensures owed { IsOwedStep self.old.store.machine session Begin result
            self.new.store.machine }
        ensures told { IsTrue P.S.tells → IsTrue B.on_pages
            → IsToldStep B.laid self.old.store session Begin result self.new.store }
        ensures numbers { self.new.store.numbers ≡ self.old.store.numbers }
        ensures port { self.new.meter ≡ self.old.meter }
        ensures fault { result ≡ Reply.Fault → ⊥ }
    {
        begun(self.sessions[(session - 1) as usize].begin())
    }

    /// Closes the transaction of a session, by a commit or an abort.
    fn close(&mut self, session: u32, committed: bool) -> Reply
        requires from_one { 0 < session }
        requires upto { session ≤ SESSIONS }
        ensures owed { IsOwedStep self.old.store.machine session
            (if committed then Commit else Abort) result self.new.store.machine }
        ensures told { IsTrue P.S.tells → IsTrue B.on_pages
            → IsToldStep B.laid self.old.store session
            (if committed then Commit else Abort) result self.new.store }
        ensures numbers { self.new.store.numbers ≡ self.old.store.numbers }
        ensures port { self.new.meter ≡ self.old.meter }
        ensures fault { result ≡ Reply.Fault → ⊥ }
    {
        if !self.is_open(session) {
            return Reply::Idle;
        }
        self.end(session, committed);
        Reply::Ok
    }

    /// Lets the objects of a session go, and closes its transaction. It takes no memory.
    fn end(&mut self, session: u32, committed: bool)
        requires from_one { 0 < session }
        requires upto { session ≤ SESSIONS }
        requires active { is_active self.old.store.machine session ≡ true }
        ensures bare { IsBareEnd session committed self.old.store.machine self.new.store.machine }
        ensures told { IsTrue P.S.tells
            → IsToldEnd session committed self.old.store self.new.store }
        ensures numbers { self.new.store.numbers ≡ self.old.store.numbers }
        ensures port { self.new.meter ≡ self.old.meter }
    {
        let txn = &mut self.sessions[(session - 1) as usize];
        end(txn, &mut self.objects, &mut self.spaces, committed);
    }

    /// Counts the pages of all spaces.
    fn status(&mut self, session: u32) -> Reply
        requires from_one { 0 < session }
        requires upto { session ≤ SESSIONS }
        ensures owed { IsOwedStep self.old.store.machine session Status result
            self.new.store.machine }
        ensures told { IsTrue P.S.tells → IsTrue B.on_pages
            → IsToldStep B.laid self.old.store session Status result self.new.store }
        ensures numbers { self.new.store.numbers ≡ self.old.store.numbers }
        ensures port { self.new.meter ≡ self.old.meter }
        ensures fault { result ≡ Reply.Fault → ⊥ }
    {
        let counted = count_all(&mut self.spaces);
        Reply::Status {
            free: counted.free,
            locked: counted.locked,
            held: counted.held,
        }
    }

    /// Runs a command on an object.
    fn ask(&mut self, session: u32, command: Command) -> Reply
        requires from_one { 0 < session }
        requires upto { session ≤ SESSIONS }
        requires short { is_too_long command ≡ false }
        requires object { IsSome (object_of command) }
        requires threshold { NamesThresholdIn command }
        ensures owed { IsOwedStep self.old.store.machine session command result
            self.new.store.machine }
        ensures told { IsTrue P.S.tells → IsTrue B.on_pages
            → IsToldStep B.laid self.old.store session command result self.new.store }
        ensures numbers { self.new.store.numbers ≡ self.old.store.numbers }
        ensures port { UsesPort self.old.meter self.new.meter (result ≡ Reply.Fault) }
        ensures pages { IsTrue P.S.tells → MovesPages B.may_write B.may_read self.old.store
            self.new.store command self.old.meter self.new.meter }
    {
        let Some(object) = command.object() else {
            unreachable!();
        };
        let txn = &mut self.sessions[(session - 1) as usize];
        if !txn.is_open() {
            return Reply::Idle;
        }
        serve(
            txn,
            &mut self.objects,
            &mut self.spaces,
            &mut self.port,
            self.alloc,
            object,
            command,
        )
    }

    /// Aborts each open transaction, in the order of sessions. It takes no memory.
    pub fn stop_all(&mut self)
        ensures stopped { HaveStopped P.S.tells SESSIONS self.old.store self.new.store }
        ensures port { self.new.meter ≡ self.old.meter }
    {
        for place in 0..SESSIONS {
            self.stop(place + 1);
        }
    }

    /// Aborts each open transaction, in the order of sessions, and hands the parts out. It takes no
    /// memory.
    pub fn finish(self) -> Unmade<P, B>
        ensures parts { AreLastParts P.S.tells B.good (shown_by B.form B.told) self.store
            result.spaces.items result.objects.items (P.meter result.port).page }
        ensures port { P.meter result.port ≡ self.meter }
    {
        let mut world = self;
        world.stop_all();
        // With nothing open nothing is held: the type keeps that, for all of its sessions.
        prove!(world.sessions.len() == SESSIONS as usize);
        let World {
            objects,
            spaces,
            port,
            ..
        } = world;
        Unmade {
            spaces: spaces.finish(),
            objects: objects.finish(),
            port,
        }
    }

    /// Aborts the transaction of a session, if one is open.
    fn stop(&mut self, session: u32)
        requires from_one { 0 < session }
        requires upto { session ≤ SESSIONS }
        ensures stopped { IsStopped P.S.tells session self.old.store self.new.store }
        ensures port { self.new.meter ≡ self.old.meter }
    {
        if !self.is_open(session) {
            return;
        }
        self.end(session, false);
    }
}

/// What became of a begin, as a reply.
fn begun(begin: Result<(), BeginFail>) -> Reply
    ensures { result ≡ begin_reply begin }
{
    match begin {
        Ok(()) => Reply::Ok,
        Err(BeginFail::Active) => Reply::Active,
        Err(BeginFail::Worn) => Reply::Worn,
    }
}
