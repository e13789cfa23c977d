//! How an edit changes the bytes of an object.
//!
//! First everything that may fail: the plan is read, the change is made on pages of its own, room is
//! made for the marks of what is dropped, and spans are cut where these marks begin and end. A
//! refusal gives back what was granted. Then nothing fails, and the pages that the new version
//! doesn't use go.

ghost use Rattle.std.specs.Prelude.{◌≡◌, ◌<◌, IfOk, IsTrue, OnErr};
ghost use Rattle.std.specs.List.{AllByRecursion};
ghost use Rattle.eos_ops.specs.declared.outcome.Outcome.TheVariants.{Done};
ghost use Rattle.moment_model.specs.Edit.{edited_slot};
ghost use Rattle.object_body.specs.Calls.{IsEdit};
ghost use Rattle.object_body.specs.Form.{HaveLengths, NamesThreshold};
ghost use Rattle.object_body.specs.Lengths.{outcome_of};
ghost use Rattle.object_body.specs.Places.{IsReady};
ghost use Rattle.object_change.specs.Changed.{HasChanged};
ghost use Rattle.object_change.specs.Scene.{HoldsSpare};
ghost use Rattle.object_plan.specs.Planned.{IsHeldEntry};
ghost use Rattle.object_state.specs.Changes.{ChangesBytes, IsByteEdit, IsOnHeld, IsOnlyCut};
ghost use Rattle.object_state.specs.Changes.{IsReadyFor, IsSameSet, MakesReady, MakesTree};
ghost use Rattle.object_state.specs.Changes.{PlansEdit, StandsOnHeld, answer_in, view_on, working_in};
ghost use Rattle.object_state.specs.Edits.{tree_stage};
ghost use Rattle.object_state.specs.Idle.{IsIdle};
ghost use Rattle.object_state.specs.Keeps.{KeepsTreeBody};
ghost use Rattle.object_state.specs.Kind.{TreeMayRefuse, TreeMayWrite};
ghost use Rattle.object_state.specs.Tree.{tree_form};
ghost use Rattle.page_set.specs.Words.{PageSetView};
ghost use Rattle.superdirectory.specs.Rest.{count};
ghost use Rattle.tree_pages.specs.Entry.{Entry};

use crate::change_runs::{dropped_runs, granted_runs, kept_runs, stands};
use crate::changes::{brought, change_of};
use crate::letting_go::let_go;
use crate::preparing::prepare;
use crate::run_sets::add_runs;
use crate::tree_body::TreeBody;
use eos_ops::{Edit, Outcome};
use layout_model::Extent;
use object_body::EditFail;
use object_change::{Changed, make_change, take_back};
use object_plan::{Planned, WorkingTree, plan_change};
use page_cache::Cache;
use page_port::{Geometry, Port, Span};
use page_set::PageSet;
use span_store::Holdings;
use std::alloc::{AllocError, Global};
use superdirectory::{Hints, Latches};
use tree_model::Root;
use tree_read::TreeFail;

/// No store has so many bytes, and no memory.
const MOST_BYTES: u64 = 4_611_686_018_427_387_904;

impl<P: Port> TreeBody<P> {
    /// Edits the working version, and says what became of the edit. Pages are asked for from space
    /// `start` on and around.
    ///
    /// # Errors
    /// `NoSpace`, `Fault`, and `Memory` if it isn't a `create`. The object, the free pages and the
    /// locked ones are as before.
    pub fn edit<L: Latches<S = P::S>>(
        &mut self,
        alloc: Global,
        port: &mut P,
        latches: &mut L,
        turn: &mut L::Turn,
        start: u16,
        edit: &Edit,
    ) -> Result<Outcome, EditFail>
        requires page { (P.meter port.old).page ≡ (tree_form self.old).numbers.page }
        requires ready { IsReady (tree_form self.old).numbers (L.rest latches.old) }
        requires start { start < count (L.rest latches.old) }
        requires threshold { NamesThreshold edit.now }
        ensures edit { IsEdit P.S.tells HaveLengths edited_slot TreeMayRefuse TreeMayWrite start
            edit.now result
            (tree_stage self.old (L.rest latches.old) (L.trace latches.old))
            (tree_stage self.new (L.rest latches.new) (L.trace latches.new))
            (P.meter port.old) (P.meter port.new) }
    {
        if let Some(outcome) = self.stays(edit) {
            return Ok(outcome);
        }
        match edit {
            Edit::Create { threshold } => Ok(self.create(*threshold)),
            Edit::Destroy => self.destroy(alloc, latches, turn),
            _ => self.change(alloc, port, latches, turn, start, edit),
        }
    }

    /// Makes an edit of the bytes of a present object, which lies within them and isn't idle.
    ///
    /// # Errors
    /// As of `edit`.
    fn change<L: Latches<S = P::S>>(
        &mut self,
        alloc: Global,
        port: &mut P,
        latches: &mut L,
        turn: &mut L::Turn,
        start: u16,
        edit: &Edit,
    ) -> Result<Outcome, EditFail>
        requires page { (P.meter port.old).page ≡ (tree_form self.old).numbers.page }
        requires ready { IsReady (tree_form self.old).numbers (L.rest latches.old) }
        requires start { start < count (L.rest latches.old) }
        requires bytes { ChangesBytes edit.now }
        requires done { outcome_of edit.now (tree_form self.old).working ≡ Done }
        requires changes { IsIdle edit.now → ⊥ }
        ensures edit { IsEdit P.S.tells HaveLengths edited_slot TreeMayRefuse TreeMayWrite start
            edit.now result
            (tree_stage self.old (L.rest latches.old) (L.trace latches.old))
            (tree_stage self.new (L.rest latches.new) (L.trace latches.new))
            (P.meter port.old) (P.meter port.new) }
    {
        let Some(root) = self.working.root else {
            unreachable!()
        };
        let working = WorkingTree {
            root,
            threshold: self.working.threshold as u32,
            spare: self.spare,
        };
        match change_tree(
            alloc,
            &self.geometry,
            &working,
            edit,
            &mut self.held,
            &mut self.cache,
            &mut self.fresh,
            &mut self.locked,
            port,
            latches,
            turn,
            start,
        ) {
            Ok((root, spare)) => {
                self.working.root = Some(root);
                self.spare = spare;
                Ok(Outcome::Done)
            }
            Err(fail) => Err(fail),
        }
    }
}

/// Makes an edit of the bytes of a tree, and lets the pages go that the new one doesn't use. Gives
/// the new root and the new spare.
///
/// # Errors
/// As of `make_change`. All that was granted is given back, and what is held is as it was.
fn change_tree<P: Port, L: Latches<S = P::S>>(
    alloc: Global,
    geometry: &Geometry,
    working: &WorkingTree,
    edit: &Edit,
    held: &mut Holdings<P::S>,
    cache: &mut Cache,
    fresh: &mut PageSet,
    locked: &mut PageSet,
    port: &mut P,
    latches: &mut L,
    turn: &mut L::Turn,
    start: u16,
) -> Result<(Root, Option<Extent>), EditFail>
    requires page { (P.meter port.old).page ≡ geometry.now.page }
    requires ready { IsReady geometry.now (L.rest latches.old) }
    requires start { start < count (L.rest latches.old) }
    requires kept { (committed : Entry) × KeepsTreeBody P.S.tells (view_on geometry.now committed
        working.now held.old cache.old fresh.old locked.old) }
    requires edit { IsByteEdit edit.now working.now.root.length }
    ensures makes { (committed : Entry) → KeepsTreeBody P.S.tells (view_on geometry.now committed
        working.now held.old cache.old fresh.old locked.old) → MakesTree P.S.tells start edit.now
        (answer_in result)
        (view_on geometry.now committed working.now held.old cache.old fresh.old locked.old)
        (view_on geometry.now committed (working_in working.now result) held.new cache.new fresh.new
        locked.new)
        (L.rest latches.old) (L.rest latches.new) (L.trace latches.old) (L.trace latches.new)
        (P.meter port.old) (P.meter port.new) }
{
    let _page = geometry.page();
    let planned = match plan_edit(alloc, geometry, working, edit, held, cache, port) {
        Ok(planned) => planned,
        Err(fail) => return Err(fail),
    };
    let payload = brought(edit);
    let changed = match make_change(
        alloc, geometry, working, &planned, payload, held, cache, port, latches, turn, start,
    ) {
        Ok(changed) => changed,
        Err(fail) => return Err(fail),
    };
    let mut gone = match ready(
        alloc, geometry, working, &planned, &changed, held, fresh, locked, port,
    ) {
        Ok(gone) => gone,
        Err(fail) => {
            take_back(geometry, &changed, held, cache, latches, turn);
            return Err(fail);
        }
    };
    let_go(
        geometry, held, cache, latches, turn, fresh, locked, &mut gone,
    );
    Ok((changed.root, changed.spare))
}

/// Plans an edit of the bytes of a tree.
///
/// # Errors
/// As of `plan_change`; and `Fault` where no store has so many bytes as the root counts, `Memory`
/// where no memory has so many as the edit brings.
fn plan_edit<P: Port>(
    alloc: Global,
    geometry: &Geometry,
    working: &WorkingTree,
    edit: &Edit,
    held: &Holdings<P::S>,
    cache: &mut Cache,
    port: &mut P,
) -> Result<Planned, EditFail>
    requires page { (P.meter port.old).page ≡ geometry.now.page }
    requires kept { (committed : Entry) × (fresh locked : PageSetView) × KeepsTreeBody P.S.tells
        (view_on geometry.now committed working.now held.now cache.old fresh locked) }
    requires edit { IsByteEdit edit.now working.now.root.length }
    ensures { PlansEdit P.S.tells geometry.now working.now edit.now held.now cache.new result
        (P.meter port.old) (P.meter port.new) }
{
    let _page = geometry.page();
    let change = change_of(edit, working.root.length);
    if change.added >= MOST_BYTES {
        return Err(EditFail::Memory);
    }
    if working.root.length >= MOST_BYTES {
        port.blame();
        return Err(EditFail::Fault);
    }
    match plan_change(alloc, geometry, working, change, held, cache, port) {
        Ok(planned) => Ok(planned),
        Err(TreeFail::Fault) => Err(EditFail::Fault),
        Err(TreeFail::Memory) => Err(EditFail::Memory),
    }
}

/// Makes everything ready for the pages that a change drops to go, so that nothing can fail any
/// more. The granted pages are fresh afterwards. Gives the pages that go.
///
/// # Errors
/// `Fault` where the change drops or keeps pages that aren't held: the device gave what was never
/// written. `Memory` where there was none. The same pages are held, in the same spans or parts of
/// them, and the same are fresh and locked.
fn ready<P: Port>(
    alloc: Global,
    geometry: &Geometry,
    working: &WorkingTree,
    planned: &Planned,
    changed: &Changed,
    held: &mut Holdings<P::S>,
    fresh: &mut PageSet,
    locked: &mut PageSet,
    port: &mut P,
) -> Result<PageSet, EditFail>
    requires replaced { AllByRecursion (IsHeldEntry geometry.now held.old)
        planned.now.replaced.items }
    requires spare { HoldsSpare held.old working.now.spare }
    requires changed { HasChanged geometry.now working.now planned.now changed.now }
    requires told { IsTrue P.S.tells → IsOnHeld held.old geometry.now.page changed.now }
    ensures { MakesReady P.S.tells geometry.now.page planned.now working.now.spare changed.now
        result held.old held.new fresh.old fresh.new locked.old locked.new (P.meter port.old)
        (P.meter port.new) }
{
    if !stands(geometry, held, changed) {
        port.blame();
        return Err(EditFail::Fault);
    }
    match marked(
        alloc, geometry, working, planned, changed, held, fresh, locked,
    ) {
        Ok(gone) => Ok(gone),
        Err(_) => Err(EditFail::Memory),
    }
}

/// Marks the granted pages as fresh, and makes room for the marks of those that go.
fn marked<S: Span>(
    alloc: Global,
    geometry: &Geometry,
    working: &WorkingTree,
    planned: &Planned,
    changed: &Changed,
    held: &mut Holdings<S>,
    fresh: &mut PageSet,
    locked: &mut PageSet,
) -> Result<PageSet, AllocError>
    requires replaced { AllByRecursion (IsHeldEntry geometry.now held.old)
        planned.now.replaced.items }
    requires spare { HoldsSpare held.old working.now.spare }
    requires changed { HasChanged geometry.now working.now planned.now changed.now }
    requires stands { StandsOnHeld held.old geometry.now.page changed.now }
    ensures ready { IfOk result (IsReadyFor geometry.now.page planned.now working.now.spare
        changed.now held.new fresh.old fresh.new locked.new) }
    ensures only { IsOnlyCut S.tells held.old held.new }
    ensures fresh { OnErr result (IsSameSet fresh.old fresh.new) }
    ensures locked { IsSameSet locked.old locked.new }
{
    // These two say that the numbers are in range, and that those of held pages have 32 bits.
    let _page = geometry.page();
    let _end = held.end();
    let dropped = dropped_runs(alloc, geometry, planned, working.spare, changed)?;
    let kept = kept_runs(alloc, geometry, changed)?;
    let granted = granted_runs(alloc, changed)?;
    let gone = prepare(
        alloc,
        dropped.as_slice(),
        kept.as_slice(),
        granted.as_slice(),
        held,
        fresh,
        locked,
    )?;
    let Ok(()) = add_runs(fresh, granted.as_slice()) else {
        unreachable!()
    };
    Ok(gone)
}
