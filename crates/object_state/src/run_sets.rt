//! Sets of the pages of runs: which pages go, and room for those that come.

ghost use Rattle.std.specs.Prelude.{◌≡◌, ℕ, ◌&&◌, ◌||◌, not, nat_lt, OnOk, IfOk, IsOk};
ghost use Rattle.std.specs.List.{AllByRecursion};
ghost use Rattle.layout_model.specs.declared.extent.Extent.{Extent};
ghost use Rattle.moment_model.specs.Version.{uses};
ghost use Rattle.page_set.specs.Members.{AreSame, Keeps};
ghost use Rattle.page_set.specs.Words.{in_set, room_in};
ghost use Rattle.object_state.specs.Runs.{HasRoomOn, IsNumbered, goes};

use layout_model::Extent;
use page_set::PageSet;
use std::alloc::{AllocError, Global};

/// The pages of the dropped runs that none of the kept ones has.
///
/// # Errors
/// There was no memory.
pub fn gone_pages(alloc: Global, dropped: &[Extent], kept: &[Extent]) -> Result<PageSet, AllocError>
    requires dropped { AllByRecursion IsNumbered dropped.now }
    requires kept { AllByRecursion IsNumbered kept.now }
    ensures { IfOk result (λ gone. (page : ℕ) →
        in_set gone page ≡ goes dropped.now kept.now page) }
{
    let mut gone = PageSet::new(alloc);
    add_runs(&mut gone, dropped)?;
    remove_runs(&mut gone, kept);
    Ok(gone)
}

/// Adds the pages of runs. Where there is room for all of them it takes no memory.
///
/// # Errors
/// There was no memory. The set may have some of the pages.
pub fn add_runs(set: &mut PageSet, runs: &[Extent]) -> Result<(), AllocError>
    requires { AllByRecursion IsNumbered runs.now }
    ensures added { OnOk result ((page : ℕ) →
        in_set set.new page ≡ (in_set set.old page || nat_lt 0 (uses page runs.now))) }
    ensures enough { AllByRecursion (HasRoomOn set.old) runs.now → IsOk result }
{
    for run in runs {
        set.add(run.page, run.pages)?;
    }
    Ok(())
}

/// Removes the pages of runs. It takes no memory.
fn remove_runs(set: &mut PageSet, runs: &[Extent])
    requires { AllByRecursion IsNumbered runs.now }
    ensures { (page : ℕ) →
        in_set set.new page ≡ (in_set set.old page && not (nat_lt 0 (uses page runs.now))) }
{
    for run in runs {
        set.remove(run.page, run.pages);
    }
}

/// Makes room for the pages of runs.
///
/// # Errors
/// There was no memory: the set has the pages that it had.
pub fn reserve_runs(set: &mut PageSet, runs: &[Extent]) -> Result<(), AllocError>
    requires { AllByRecursion IsNumbered runs.now }
    ensures room { OnOk result (AllByRecursion (HasRoomOn set.new) runs.now) }
    ensures same { AreSame (in_set set.old) (in_set set.new) }
    ensures size { set.new.size ≡ set.old.size }
    ensures keeps { Keeps (room_in set.old) (room_in set.new) }
{
    for run in runs {
        set.reserve(run.page, run.pages)?;
    }
    Ok(())
}
