//! Pages that an object lets go: they leave what it holds, and go back to their spaces. None of
//! these calls takes memory.

ghost use Rattle.std.specs.Prelude.{◌≡◌, ℕ, ◌+◌, ◌^◌, ◌<◌, ◌≤◌, IsTrue, IfSome};
ghost use Rattle.geometry_model.specs.Pages.{is_data_page};
ghost use Rattle.layout_model.specs.declared.extent.Extent.{Extent};
ghost use Rattle.page_set.specs.Words.{in_set};
ghost use Rattle.span_store.specs.Held.{AllSized};
ghost use Rattle.page_cache.specs.Kept.{is_on_run};
ghost use Rattle.object_body.specs.Places.{IsReady};
ghost use Rattle.object_state.specs.Keeps.{AreOnData, IsMarked, in_spare};
ghost use Rattle.give_back.specs.Giving.{IsWholeRun, LeavesNodes, LeavesSized, LetsGo, gives};
ghost use Rattle.object_state.specs.Ends.{unlocks};

use give_back::{give_run, space_of};
use layout_model::Extent;
use page_cache::Cache;
use page_port::{Geometry, Span};
use page_set::PageSet;
use span_store::Holdings;
use superdirectory::{Hints, Latches, unlock_run};

/// Gives the spare pages back to their space.
pub fn give_spare<S: Span, L: Latches<S = S>>(
    geometry: &Geometry,
    held: &mut Holdings<S>,
    cache: &mut Cache,
    latches: &mut L,
    turn: &mut L::Turn,
    spare: Option<Extent>,
)
    requires ready { IsReady geometry.now (L.rest latches.old) }
    requires on_data { AreOnData geometry.now held.old }
    requires some { IfSome spare (λ run. 1 ≤ run.pages) }
    requires marked { IsMarked held.old (in_spare spare) }
    requires sized { AllSized S.tells geometry.now.page held.old }
    ensures left { LeavesNodes S.tells geometry.now.page (in_spare spare)
        held.old held.new cache.old cache.new }
    ensures given { LetsGo geometry.now (gives (in_spare spare))
        (L.rest latches.old) (L.rest latches.new) (L.trace latches.old) (L.trace latches.new) }
{
    if let Some(run) = spare {
        give_run(geometry, held, cache, latches, turn, run);
        return;
    }
}

/// Gives the marked pages back to their spaces, run by run. The marks go.
pub fn give_marked<S: Span, L: Latches<S = S>>(
    geometry: &Geometry,
    held: &mut Holdings<S>,
    cache: &mut Cache,
    latches: &mut L,
    turn: &mut L::Turn,
    marked: &mut PageSet,
)
    requires ready { IsReady geometry.now (L.rest latches.old) }
    requires on_data { AreOnData geometry.now held.old }
    requires marked { IsMarked held.old (in_set marked.old) }
    requires sized { AllSized S.tells geometry.now.page held.old }
    ensures left { LeavesNodes S.tells geometry.now.page (in_set marked.old)
        held.old held.new cache.old cache.new }
    ensures given { LetsGo geometry.now (gives (in_set marked.old))
        (L.rest latches.old) (L.rest latches.new) (L.trace latches.old) (L.trace latches.new) }
{
    while let Some(run) = marked.pop_first_run() {
        let whole = Extent {
            page: run.first,
            pages: run.pages,
        };
        give_run(geometry, held, cache, latches, turn, whole);
    }
}

/// Unlocks the marked pages in their spaces, run by run. The marks go.
pub fn unlock_marked<S: Span, L: Latches<S = S>>(
    geometry: &Geometry,
    latches: &mut L,
    turn: &mut L::Turn,
    marked: &mut PageSet,
)
    requires ready { IsReady geometry.now (L.rest latches.old) }
    requires on_data { (page : ℕ) → IsTrue (in_set marked.old page) →
        IsTrue (is_data_page geometry.now page) }
    ensures unlocked { LetsGo geometry.now (unlocks (in_set marked.old))
        (L.rest latches.old) (L.rest latches.new) (L.trace latches.old) (L.trace latches.new) }
{
    while let Some(run) = marked.pop_first_run() {
        let space = space_of(geometry, run.first);
        unlock_run(latches, turn, space, run.first, run.pages);
    }
}
