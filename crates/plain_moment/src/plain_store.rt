//! A store that runs a command at a time, by the definitions alone.

ghost use Rattle.std.specs.Prelude.{◌≡◌, ◌<◌, ◌≤◌, ◌^◌, true, false, map, replicate, slice_set};
ghost use Rattle.std.specs.Prelude.{IfOk, OnOk, IsTrue, IsSome, IfSome, Some, None, if◌then◌else◌};
ghost use Rattle.eos_ops.specs.declared.command.Command.TheVariants.{Begin, Commit, Abort, Status};
ghost use Rattle.eos_ops.specs.declared.command.Command.TheVariants.{Length};
ghost use Rattle.eos_ops.specs.declared.limits.TheConstants.{SESSIONS};
ghost use Rattle.eos_ops.specs.declared.plain.Plain.TheVariants.{Absent};
ghost use Rattle.eos_ops.specs.Objects.{object_of as object_of_command, edit_of as edit_of_command};
ghost use Rattle.eos_ops.specs.Objects.{is_too_long as is_too_long_command};
ghost use Rattle.geometry_model.specs.Numbers.{objects};
ghost use Rattle.history.specs.Event.{Takes, deed};
ghost use Rattle.machine.specs.Machine.{fresh as fresh_machine};
ghost use Rattle.machine.specs.Next.{next};
ghost use Rattle.machine.specs.Replies.{IsStep, refused};
ghost use Rattle.moment_model.specs.Edit.{edited_slot};
ghost use Rattle.moment_model.specs.Moment.{absent_slot, with_object_slot};
ghost use Rattle.moment_model.specs.Run.{answer_to, is_accepted, is_ok_reply};
ghost use Rattle.plain_layout.specs.Answers.{answered};
ghost use Rattle.plain_plan.specs.Store.{numbers_of};
ghost use Rattle.plain_moment.specs.Stored.{HoldersAgree, IsStoreStep, HasServedPlain, IsTaking};
ghost use Rattle.plain_moment.specs.Stored.{is_bare};

use crate::answering::{answer_to, is_accepted};
use crate::command::edit_of;
use crate::counts::counts_of;
use crate::ending::{ended_by, let_go};
use crate::holding::{bare, hold, is_look, is_memory, is_ok_reply, is_taken, put, unheld};
use crate::moment::fresh;
use crate::slot::ObjectSlot;
use eos_ops::{Command, Edit, Reply};
use plain_layout::Answer;
use plain_plan::{Fail, Store, as_page, div, mul};
use std::alloc::Global;
use std::marker::Model;
use world::PlainWorld;

/// A store of objects: their bytes with who holds them, and where they stand.
#[derive(Drop)]
pub struct PlainStore {
    alloc: Global,
    store: Store,
    /// The bytes of the objects, and the sessions.
    world: PlainWorld,
    /// Who holds each object.
    holders: Vec<Option<u32>>,
    /// Where the objects stand.
    moment: Vec<ObjectSlot>,
}

impl Model for PlainStore {
    ghost use Rattle.plain_plan.specs.Store.{numbers_of};
    ghost use Rattle.plain_moment.specs.Stored.{Stored};

    ghost Value = { Stored };

    ghost view = { λ s. record {
      numbers = numbers_of s.store;
      machine = s.world;
      holders =
          s.holders.items;
      moment = s.moment.items;
    } };
}

impl PlainStore {
    /// A store whose objects are all absent.
    pub fn new(alloc: Global, store: Store) -> Result<PlainStore, Fail>
        ensures numbers { IfOk result (λ s. s.numbers ≡ numbers_of store) }
        ensures machine { IfOk result (λ s. s.machine
            ≡ fresh_machine SESSIONS (replicate (objects (numbers_of store)) Absent)) }
        ensures moment { IfOk result (λ s. s.moment
            ≡ replicate (objects (numbers_of store)) absent_slot) }
        ensures tied { IfOk result HoldersAgree }
    {
        let objects = div(mul(store.catalog, store.page)?, 16)?;
        let world = match PlainWorld::new(alloc, as_page(objects)?) {
            Ok(world) => world,
            Err(_) => return Err(Fail::Memory),
        };
        Ok(PlainStore {
            alloc,
            store,
            world,
            holders: unheld(alloc, objects)?,
            moment: fresh(alloc, objects)?,
        })
    }

    /// Runs a command of a session. After a failure the store is to be given up.
    pub fn step(&mut self, session: u32, command: Command) -> Result<Reply, Fail>
        requires from_one { 0 < session }
        requires upto { session ≤ SESSIONS }
        requires tied { HoldersAgree self.old }
        ensures step { IfOk result (λ reply. IsStoreStep self.old session command reply self.new) }
        ensures tied { OnOk result (HoldersAgree self.new) }
    {
        match command {
            Command::Begin => self.begin(session),
            Command::Commit => self.close(session, true),
            Command::Abort => self.close(session, false),
            Command::Status => self.status(session),
            Command::Create { .. }
            | Command::Destroy { .. }
            | Command::Length { .. }
            | Command::Read { .. }
            | Command::Append { .. }
            | Command::Insert { .. }
            | Command::Delete { .. }
            | Command::Replace { .. } => self.ask(session, command),
        }
    }

    /// Opens a transaction.
    fn begin(&mut self, session: u32) -> Result<Reply, Fail>
        requires from_one { 0 < session }
        requires upto { session ≤ SESSIONS }
        requires tied { HoldersAgree self.old }
        ensures step { IfOk result (λ reply. IsStoreStep self.old session Begin reply self.new) }
        ensures tied { OnOk result (HoldersAgree self.new) }
    {
        let reply = self.world.step(session, Command::Begin);
        bare(reply)
    }

    /// Ends the transaction of a session.
    fn close(&mut self, session: u32, committed: bool) -> Result<Reply, Fail>
        requires from_one { 0 < session }
        requires upto { session ≤ SESSIONS }
        requires tied { HoldersAgree self.old }
        ensures step { IfOk result (λ reply. IsStoreStep self.old session
            (if committed then Commit else Abort) reply self.new) }
        ensures tied { OnOk result (HoldersAgree self.new) }
    {
        let moment = ended_by(self.alloc, session, committed, &self.holders, &self.moment)?;
        let holders = let_go(self.alloc, session, &self.holders)?;
        match end(&mut self.world, session, committed) {
            Reply::Ok => {
                self.holders = holders;
                self.moment = moment;
                Ok(Reply::Ok)
            }
            Reply::Idle => Ok(Reply::Idle),
            _ => Err(Fail::Big),
        }
    }

    /// The counts of pages.
    fn status(&self, session: u32) -> Result<Reply, Fail>
        requires from_one { 0 < session }
        requires upto { session ≤ SESSIONS }
        requires tied { HoldersAgree self.now }
        ensures step { IfOk result (λ reply. IsStoreStep self.now session Status reply self.now) }
    {
        let counts = counts_of(self.alloc, &self.store, &self.moment)?;
        Ok(Reply::Status {
            free: counts.free,
            locked: counts.locked,
            held: counts.held,
        })
    }

    /// Runs a command on an object.
    #[tactic(auto, using(crate::proofs::Storing::served_tied))]
    fn ask(&mut self, session: u32, command: Command) -> Result<Reply, Fail>
        requires from_one { 0 < session }
        requires upto { session ≤ SESSIONS }
        requires tied { HoldersAgree self.old }
        requires object { IsSome (object_of_command command) }
        ensures step { IfOk result (λ reply. IsStoreStep self.old session command reply self.new) }
        ensures tied { OnOk result (HoldersAgree self.new) }
    {
        let Some(object) = command.object() else {
            unreachable!();
        };
        if command.is_too_long() {
            return self.refuse(session, object, command);
        }
        let edit = edit_of(self.alloc, &command)?;
        match edit {
            None => self.serve(session, object, command),
            Some(edit) => self.edit(session, object, command, &edit),
        }
    }

    /// A command that asks for too much.
    #[tactic(auto, using(crate::proofs::Storing::served_tied))]
    fn refuse(&mut self, session: u32, object: u64, command: Command) -> Result<Reply, Fail>
        requires from_one { 0 < session }
        requires upto { session ≤ SESSIONS }
        requires tied { HoldersAgree self.old }
        requires object { object_of_command command ≡ Some object }
        ensures step { IfOk result (λ reply. IsStoreStep self.old session command reply self.new) }
        ensures tied { OnOk result (HoldersAgree self.new) }
    {
        let reply = self.serve(session, object, command)?;
        if is_ok_reply(&reply) {
            return Err(Fail::Big);
        }
        Ok(reply)
    }

    /// The object's own answer, or what the machine refuses.
    fn serve(&mut self, session: u32, object: u64, command: Command) -> Result<Reply, Fail>
        requires from_one { 0 < session }
        requires upto { session ≤ SESSIONS }
        requires object { object_of_command command ≡ Some object }
        ensures served { IfOk result (λ reply. HasServedPlain self.old session command reply
            self.new) }
    {
        let reply = self.world.step(session, command);
        if is_taken(&reply) {
            hold(&mut self.holders, object, session);
        }
        bare(reply)
    }

    /// Gives an object to a session, unless a refusal stands before it.
    fn take(&mut self, session: u32, object: u64) -> Result<Option<Reply>, Fail>
        requires from_one { 0 < session }
        requires upto { session ≤ SESSIONS }
        ensures taking { IfOk result (λ refusal. IsTaking self.old session object refusal
            self.new) }
        ensures bare { IfOk result (λ refusal. IfSome refusal (λ r. IsTrue (is_bare r)
            × (is_ok_reply r ≡ false))) }
    {
        let reply = self.world.step(session, Command::Length { object });
        if is_look(&reply) {
            hold(&mut self.holders, object, session);
            return Ok(None);
        }
        if is_memory(&reply) {
            return Err(Fail::Memory);
        }
        if is_ok_reply(&reply) {
            return Err(Fail::Big);
        }
        Ok(Some(bare(reply)?))
    }

    /// Edits an object.
    #[tactic(auto, using(crate::proofs::Storing::edited_ties))]
    fn edit(
        &mut self,
        session: u32,
        object: u64,
        command: Command,
        edit: &Edit,
    ) -> Result<Reply, Fail>
        requires from_one { 0 < session }
        requires upto { session ≤ SESSIONS }
        requires tied { HoldersAgree self.old }
        requires object { object_of_command command ≡ Some object }
        requires edit { edit_of_command command ≡ Some edit.now }
        requires short { is_too_long_command command ≡ false }
        ensures step { IfOk result (λ reply. IsStoreStep self.old session command reply self.new) }
        ensures tied { OnOk result (HoldersAgree self.new) }
    {
        match self.answer_to(session, object, edit)? {
            Answer::Refused { pages } => {
                let pages = as_page(pages)?;
                match self.take(session, object)? {
                    None => Ok(Reply::NoSpace(pages)),
                    Some(refusal) => Ok(refusal),
                }
            }
            Answer::Got { value: after, .. } => {
                let accepted = self.is_accepted(object, edit)?;
                let reply = self.serve(session, object, command)?;
                if is_ok_reply(&reply) {
                    if !accepted {
                        return Err(Fail::Big);
                    }
                    self.place(object, after);
                    return Ok(reply);
                }
                Ok(reply)
            }
        }
    }

    /// What an edit of a session is answered where the objects stand now.
    fn answer_to(&self, session: u32, object: u64, edit: &Edit) -> Result<Answer<ObjectSlot>, Fail>
        ensures { IfOk result (λ answer. answered (λ after. after) answer
            ≡ answer_to edited_slot self.now.numbers self.now.moment session object edit.now) }
    {
        answer_to(self.alloc, &self.store, session, &self.moment, object, edit)
    }

    /// Whether the object doesn't refuse the edit where the objects stand now.
    fn is_accepted(&self, object: u64, edit: &Edit) -> Result<bool, Fail>
        ensures { IfOk result (λ is. is ≡ is_accepted self.now.moment object edit.now) }
    {
        is_accepted(self.alloc, &self.moment, object, edit)
    }

    /// Puts a slot in the place of an object's.
    fn place(&mut self, object: u64, slot: ObjectSlot)
        ensures { self.new ≡ record self.old {
          moment =
              with_object_slot self.old.moment object slot;
        } }
    {
        put(&mut self.moment, object, slot);
    }
}

/// Ends the transaction of a session of the world.
fn end(world: &mut PlainWorld, session: u32, committed: bool) -> Reply
    requires from_one { 0 < session }
    requires upto { session ≤ SESSIONS }
    ensures step { IsStep world.old session (if committed then Commit else Abort) result world.new }
{
    if committed {
        world.step(session, Command::Commit)
    } else {
        world.step(session, Command::Abort)
    }
}
