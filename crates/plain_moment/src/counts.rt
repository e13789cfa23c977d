//! The counts of pages that a status is answered.

ghost use Rattle.std.specs.Prelude.{◌≡◌, ◌+◌, IfOk};
ghost use Rattle.moment_model.specs.Run.{AreCounts};
ghost use Rattle.plain_plan.specs.Store.{numbers_of};

use crate::counting::{count_pages, free_of, locked_of};
use crate::slot::ObjectSlot;
use plain_plan::{Fail, Store, as_page, mul, space_pages};
use std::alloc::Global;

/// How many pages are free, how many are locked, and how many are neither.
#[derive(Clone, Copy)]
pub struct Counts {
    pub free: u32,
    pub locked: u32,
    pub held: u32,
}

/// What is left of so many pages.
fn left_of(all: u64, free: u64, locked: u64) -> Result<u64, Fail>
    ensures { IfOk result (λ held. free + locked + held ≡ all) }
{
    if all < free {
        return Err(Fail::Big);
    }
    if all - free < locked {
        return Err(Fail::Big);
    }
    Ok(all - free - locked)
}

/// The counts of pages of a moment.
pub fn counts_of(alloc: Global, store: &Store, moment: &[ObjectSlot]) -> Result<Counts, Fail>
    ensures { IfOk result (λ counts. AreCounts (numbers_of store.now) moment.now counts.free
        counts.locked counts.held) }
{
    let free = count_pages(&free_of(alloc, store, moment)?)?;
    let locked = count_pages(&locked_of(alloc, store, moment)?)?;
    let all = mul(store.spaces, space_pages(store)?)?;
    let held = left_of(all, free, locked)?;
    Ok(Counts {
        free: as_page(free)?,
        locked: as_page(locked)?,
        held: as_page(held)?,
    })
}
