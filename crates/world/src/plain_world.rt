//! All sessions over plain objects, and what a command does to them.

ghost use Rattle.std.specs.Prelude.{◌≡◌, ℕ, ◌<◌, ◌≤◌, true, false, length, replicate, IfOk, IsSome};
ghost use Rattle.std.specs.Prelude.{if◌then◌else◌};
ghost use Rattle.eos_ops.specs.declared.command.Command.TheVariants.{Begin, Commit, Abort};
ghost use Rattle.eos_ops.specs.declared.limits.TheConstants.{SESSIONS};
ghost use Rattle.eos_ops.specs.declared.plain.Plain.TheVariants.{Absent};
ghost use Rattle.eos_ops.specs.Objects.{object_of as object_of_command};
ghost use Rattle.eos_ops.specs.Objects.{is_too_long as is_too_long_command};
ghost use Rattle.history.specs.Event.{Closes};
ghost use Rattle.machine.specs.Machine.{AtRest, is_active, database, fresh};
ghost use Rattle.machine.specs.Next.{next};
ghost use Rattle.machine.specs.Replies.{IsStep};
ghost use Rattle.world.specs.Ending.{aborted, machine_aborted};
ghost use Rattle.world.specs.Session.{begin_reply};

use crate::ending::end;
use crate::serve::{Objects, serve};
use crate::start::{absent_objects, idle_sessions};
use eos_ops::{Blank, Command, Reply, SESSIONS};
use shadow_txn::{BeginFail, Txn};
use std::alloc::{AllocError, Global};
use std::marker::Model;

/// The sessions 1 to `SESSIONS` over so many plain objects. In contracts it is the machine.
#[derive(Drop)]
pub struct PlainWorld {
    alloc: Global,
    /// Session `s` has the place `s - 1`.
    sessions: Vec<Txn<Blank>>,
    /// The objects that no session holds.
    objects: Objects,
}

impl Model for PlainWorld {
    ghost use Rattle.machine.specs.Machine.{Machine};
    ghost use Rattle.world.specs.Ties.{viewed, ShareObjects};

    ghost Value = { Machine };

    ghost view = { λ w. viewed w.objects w.sessions.items };

    ghost invariant = { λ w. ShareObjects w.objects w.sessions.items };
}

impl PlainWorld {
    /// So many absent objects, and no session with a transaction open. `AllocError` says that there
    /// was no memory for the objects or for the places of the sessions.
    pub fn new(alloc: Global, objects: u32) -> Result<PlainWorld, AllocError>
        ensures first { IfOk result (λ world. world ≡ fresh SESSIONS (replicate objects Absent)) }
        ensures rest { IfOk result (λ world. AtRest world) }
        ensures database { IfOk result (λ world. database world ≡ replicate objects Absent) }
        ensures sessions { IfOk result (λ world. length world.seats ≡ SESSIONS) }
    {
        let sessions = idle_sessions(alloc, objects)?;
        let objects = absent_objects(alloc, objects)?;
        Ok(PlainWorld {
            alloc,
            sessions,
            objects,
        })
    }

    /// Runs a command of session 1 to 64 and gives its reply: the first refusal, else the object's
    /// own answer. `Memory` comes only where an object would have answered, and changes nothing.
    pub fn step(&mut self, session: u32, command: Command) -> Reply
        requires from_one { 0 < session }
        requires upto { session ≤ SESSIONS }
        ensures step { IsStep self.old session command result self.new }
        ensures sessions { length self.new.seats ≡ SESSIONS }
    {
        prove!(session as usize <= self.sessions.len());
        if command.is_too_long() {
            return Reply::TooLong;
        }
        match command {
            Command::Begin => self.begin(session),
            Command::Commit => self.close(session, true),
            Command::Abort => self.close(session, false),
            Command::Status => Reply::Status {
                free: 0,
                locked: 0,
                held: 0,
            },
            command => self.ask(session, command),
        }
    }

    /// Whether a transaction of the session is open.
    fn is_open(&self, session: u32) -> bool
        requires from_one { 0 < session }
        requires upto { session ≤ SESSIONS }
        ensures active { result ≡ is_active self.now session }
        ensures sessions { length self.now.seats ≡ SESSIONS }
    {
        self.sessions[(session - 1) as usize].is_open()
    }

    /// Opens a transaction.
    fn begin(&mut self, session: u32) -> Reply
        requires from_one { 0 < session }
        requires upto { session ≤ SESSIONS }
        ensures step { IsStep self.old session Begin result self.new }
        ensures sessions { length self.new.seats ≡ SESSIONS }
    {
        begun(self.sessions[(session - 1) as usize].begin())
    }

    /// Closes the transaction of a session, by a commit or an abort.
    fn close(&mut self, session: u32, committed: bool) -> Reply
        requires from_one { 0 < session }
        requires upto { session ≤ SESSIONS }
        ensures step { IsStep self.old session
            (if committed then Commit else Abort) result self.new }
        ensures sessions { length self.new.seats ≡ SESSIONS }
    {
        if !self.is_open(session) {
            return Reply::Idle;
        }
        self.end(session, committed);
        Reply::Ok
    }

    /// Lets the objects of a session go, and closes its transaction.
    fn end(&mut self, session: u32, committed: bool)
        requires from_one { 0 < session }
        requires upto { session ≤ SESSIONS }
        requires active { is_active self.old session ≡ true }
        ensures state { self.new ≡ next self.old session (Closes committed) }
        ensures sessions { length self.new.seats ≡ SESSIONS }
    {
        let txn = &mut self.sessions[(session - 1) as usize];
        end(txn, &mut self.objects, committed);
    }

    /// Runs a command on an object.
    fn ask(&mut self, session: u32, command: Command) -> Reply
        requires from_one { 0 < session }
        requires upto { session ≤ SESSIONS }
        requires short { is_too_long_command command ≡ false }
        requires object { IsSome (object_of_command command) }
        ensures step { IsStep self.old session command result self.new }
        ensures sessions { length self.new.seats ≡ SESSIONS }
    {
        let Some(object) = command.object() else {
            unreachable!();
        };
        let txn = &mut self.sessions[(session - 1) as usize];
        if !txn.is_open() {
            return Reply::Idle;
        }
        serve(txn, &mut self.objects, self.alloc, object, command)
    }

    /// Aborts each open transaction, in the order of sessions. It takes no memory.
    pub fn finish(&mut self)
        ensures state { self.new ≡ machine_aborted SESSIONS self.old }
        ensures rest { AtRest self.new }
        ensures database { database self.new ≡ database self.old }
    {
        for place in 0..SESSIONS {
            self.stop(place + 1);
        }
        // With nothing open nothing is held: the type keeps that, for all of its sessions.
        prove!(self.sessions.len() == SESSIONS as usize);
    }

    /// Aborts the transaction of a session, if one is open.
    fn stop(&mut self, session: u32)
        requires from_one { 0 < session }
        requires upto { session ≤ SESSIONS }
        ensures state { self.new ≡ aborted session self.old }
        ensures closed { is_active self.new session ≡ false }
        ensures others { (t : ℕ) → is_active self.old t ≡ false → is_active self.new t ≡ false }
        ensures database { database self.new ≡ database self.old }
    {
        if !self.is_open(session) {
            return;
        }
        self.end(session, false);
    }
}

/// What became of a begin, as a reply.
fn begun(begin: Result<(), BeginFail>) -> Reply
    ensures { result ≡ begin_reply begin }
{
    match begin {
        Ok(()) => Reply::Ok,
        Err(BeginFail::Active) => Reply::Active,
        Err(BeginFail::Worn) => Reply::Worn,
    }
}

#[cfg(test)]
mod tests;
