//! The pages that all objects use together.

ghost use Rattle.std.specs.Prelude.{◌≡◌, ℕ, IfOk, nat_eq, if◌then◌else◌};
ghost use Rattle.moment_model.specs.Version.{covers, uses};
ghost use Rattle.moment_model.specs.Moment.{all_committed, all_working, working_uses};
ghost use Rattle.plain_plan.specs.Store.{numbers_of};

use crate::slot::ObjectSlot;
use crate::version::version_runs;
use layout_model::Extent;
use plain_plan::{Fail, Store, join};
use std::alloc::Global;

/// The pages that the committed versions use.
#[tactic(auto, using(crate::proofs::Uses::committed_rules))]
pub fn all_committed_runs(
    alloc: Global,
    store: &Store,
    moment: &[ObjectSlot],
) -> Result<Vec<Extent>, Fail>
    ensures { IfOk result (λ runs. (page : ℕ) →
        uses page runs.items ≡ all_committed (numbers_of store.now) page moment.now) }
{
    match moment {
        [] => Ok(Vec::new(alloc)),
        [slot, others @ ..] => join(
            version_runs(alloc, store, slot.committed())?,
            &all_committed_runs(alloc, store, others)?,
        ),
    }
}

/// The pages that a slot's working version and its spare use.
#[tactic(auto, using(crate::proofs::Uses::working_rules))]
fn working_runs(alloc: Global, store: &Store, slot: &ObjectSlot) -> Result<Vec<Extent>, Fail>
    ensures { IfOk result (λ runs. (page : ℕ) →
        uses page runs.items ≡ working_uses (numbers_of store.now) page slot.now) }
{
    let runs = version_runs(alloc, store, slot.working())?;
    match slot.spare() {
        None => Ok(runs),
        Some(spare) => join(runs, &[spare]),
    }
}

/// The pages that the working versions and their spares use.
#[tactic(auto, using(crate::proofs::Uses::working_rules))]
pub fn all_working_runs(
    alloc: Global,
    store: &Store,
    moment: &[ObjectSlot],
) -> Result<Vec<Extent>, Fail>
    ensures { IfOk result (λ runs. (page : ℕ) →
        uses page runs.items ≡ all_working (numbers_of store.now) page moment.now) }
{
    match moment {
        [] => Ok(Vec::new(alloc)),
        [slot, others @ ..] => join(
            working_runs(alloc, store, slot)?,
            &all_working_runs(alloc, store, others)?,
        ),
    }
}

/// Whether a run has a page.
fn has_page(page: u64, run: Extent) -> bool
    ensures { (if result then 1 else 0) ≡ covers page run }
{
    let first = run.page as u64;
    first <= page && page < first + run.pages as u64
}

/// Whether none of these runs has a page.
#[tactic(auto, using(crate::proofs::Uses::unused_more))]
pub fn is_unused(page: u64, runs: &[Extent]) -> bool
    ensures { result ≡ nat_eq (uses page runs.now) 0 }
{
    match runs {
        [] => true,
        [run, others @ ..] => !has_page(page, *run) && is_unused(page, others),
    }
}
