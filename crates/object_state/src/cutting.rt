//! Spans of their own: a run of held pages gets the borders of spans at both of its ends.

ghost use Rattle.std.specs.Prelude.{◌≡◌, ℕ, ◌+◌, ◌*◌, ◌^◌, ◌<◌, ◌≤◌, length, IsTrue};
ghost use Rattle.std.specs.List.{AllByRecursion};
ghost use Rattle.layout_model.specs.declared.extent.Extent.{Extent};
ghost use Rattle.span_store.specs.Held.{AllSized, begins, has};
ghost use Rattle.object_state.specs.Cuts.{HasBorders, HasRoomFor, IsCutMore};

use layout_model::Extent;
use page_port::Span;
use span_store::Holdings;

/// A span begins at a page, where it is held. It takes no memory: there is room for one more span.
fn cut_border<S: Span>(held: &mut Holdings<S>, page: u32)
    requires room { HasRoomFor 1 held.old }
    ensures begun { IsTrue (has held.new page) → IsTrue (begins held.new page) }
    ensures cut { IsCutMore 1 held.old held.new }
    ensures sized { (size : ℕ) → AllSized S.tells size held.old → AllSized S.tells size held.new }
{
    if !held.holds(page, 1) {
        return;
    }
    let Ok(()) = held.cut_at(page) else {
        unreachable!()
    };
}

/// Where each of these runs begins and where it ends a span begins, if the page is held. No page
/// goes. It takes no memory: there is room for two more spans a run.
pub fn cut_runs<S: Span>(held: &mut Holdings<S>, runs: &[Extent])
    requires room { HasRoomFor (2 * length runs.now) held.old }
    requires fits { AllByRecursion (λ run. run.page + run.pages < 2 ^ 32) runs.now }
    ensures borders { AllByRecursion (HasBorders held.new) runs.now }
    ensures cut { IsCutMore (2 * length runs.now) held.old held.new }
    ensures sized { (size : ℕ) → AllSized S.tells size held.old → AllSized S.tells size held.new }
{
    for run in runs {
        cut_border(held, run.page);
        cut_border(held, run.page + run.pages);
    }
}
