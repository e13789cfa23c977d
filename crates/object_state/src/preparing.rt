//! What has to be there before pages go, so that nothing can fail any more: the set of the pages
//! that go, room for the marks, and spans of their own.

ghost use Rattle.std.specs.Prelude.{◌≡◌, ℕ, ◌+◌, ◌*◌, length, OnOk, IfOk};
ghost use Rattle.std.specs.List.{AllByRecursion};
ghost use Rattle.layout_model.specs.declared.extent.Extent.{Extent};
ghost use Rattle.page_set.specs.Members.{AreSame, Keeps};
ghost use Rattle.page_set.specs.Words.{in_set, room_in};
ghost use Rattle.span_store.specs.Held.{AllSized};
ghost use Rattle.object_state.specs.Cuts.{HasBorders, IsCutMore};
ghost use Rattle.object_state.specs.Keeps.{IsMarked};
ghost use Rattle.object_state.specs.Runs.{HasRoomOn, HoldsExtent, IsNumbered, goes};

use crate::cutting::cut_runs;
use crate::run_sets::{gone_pages, reserve_runs};
use layout_model::Extent;
use page_port::Span;
use page_set::PageSet;
use span_store::Holdings;
use std::alloc::{AllocError, Global};

/// The pages of the dropped runs that none of the kept ones has, in spans of their own. There is
/// room for them among the locked pages, and for the granted ones among the fresh; and each kept run
/// has spans of its own too.
///
/// # Errors
/// There was no memory: the same pages are held, in the same spans or parts of them, and the same
/// are fresh and locked.
pub fn prepare<S: Span>(
    alloc: Global,
    dropped: &[Extent],
    kept: &[Extent],
    granted: &[Extent],
    held: &mut Holdings<S>,
    fresh: &mut PageSet,
    locked: &mut PageSet,
) -> Result<PageSet, AllocError>
    requires dropped { AllByRecursion IsNumbered dropped.now }
    requires kept { AllByRecursion IsNumbered kept.now }
    requires granted { AllByRecursion IsNumbered granted.now }
    requires held { AllByRecursion (HoldsExtent held.old) dropped.now }
    ensures gone { IfOk result (λ gone. (page : ℕ) →
        in_set gone page ≡ goes dropped.now kept.now page) }
    ensures marked { IfOk result (λ gone. IsMarked held.new (in_set gone)) }
    ensures locked_room { IfOk result (λ gone. Keeps (in_set gone) (room_in locked.new)) }
    ensures fresh_room { OnOk result (AllByRecursion (HasRoomOn fresh.new) granted.now) }
    ensures borders { OnOk result (AllByRecursion (HasBorders held.new) kept.now) }

    // What stays, whatever the answer.
    ensures cut { IsCutMore (2 * (length dropped.now + length kept.now)) held.old held.new }
    ensures sized { (size : ℕ) → AllSized S.tells size held.old → AllSized S.tells size held.new }
    ensures fresh { AreSame (in_set fresh.old) (in_set fresh.new) }
    ensures fresh_size { fresh.new.size ≡ fresh.old.size }
    ensures locked { AreSame (in_set locked.old) (in_set locked.new) }
    ensures locked_size { locked.new.size ≡ locked.old.size }
{
    let gone = gone_pages(alloc, dropped, kept)?;
    reserve_runs(locked, dropped)?;
    reserve_runs(fresh, granted)?;
    held.reserve(2 * (dropped.len() + kept.len()))?;
    cut_runs(held, dropped);
    cut_runs(held, kept);
    Ok(gone)
}
