//! Runs of pages that are given back: they leave what is held, and go back to their spaces. None of
//! these calls takes memory.

ghost use Rattle.std.specs.Prelude.{◌≡◌, ℕ, ◌+◌, ◌^◌, ◌<◌, ◌≤◌, IsTrue};
ghost use Rattle.geometry_model.specs.Pages.{IsPlace, is_data_page};
ghost use Rattle.moment_laws.specs.Granting.{LiesInSpace};
ghost use Rattle.page_cache.specs.Kept.{is_on_run};
ghost use Rattle.span_store.specs.Held.{AllSized};
ghost use Rattle.object_body.specs.Places.{IsReady};
ghost use Rattle.give_back.specs.Giving.{AreDataPages, CanGiveRuns, IsWholeRun, LeavesNodes};
ghost use Rattle.give_back.specs.Giving.{LeavesSized, LetsGo, gives, is_in_runs};

use layout_model::Extent;
use page_cache::Cache;
use page_port::{Geometry, Span};
use space_directory::Segment;
use span_store::Holdings;
use superdirectory::{Latches, release};

/// The space of a data page.
pub fn space_of(geometry: &Geometry, page: u32) -> u16
    requires { IsTrue (is_data_page geometry.now page) }
    ensures { (at : ℕ) × IsPlace geometry.now page result at }
{
    match geometry.place(page) {
        Some((space, _)) => space,
        None => unreachable!(),
    }
}

/// Gives the spans of a run back to its space.
fn give_spans<S: Span, L: Latches<S = S>>(
    geometry: &Geometry,
    held: &mut Holdings<S>,
    latches: &mut L,
    turn: &mut L::Turn,
    first: u32,
    pages: u32,
)
    requires ready { IsReady geometry.now (L.rest latches.old) }
    requires on_data { AreDataPages geometry.now first pages }
    requires whole { IsWholeRun held.old first pages }
    requires within { first + pages < 2 ^ 32 }
    requires sized { AllSized S.tells geometry.now.page held.old }
    ensures left { LeavesSized S.tells geometry.now.page (is_on_run first pages)
        held.old held.new }
    ensures given { LetsGo geometry.now (gives (is_on_run first pages))
        (L.rest latches.old) (L.rest latches.new) (L.trace latches.old) (L.trace latches.new) }
{
    let space = space_of(geometry, first);
    let end = first + pages;
    let mut at = first;
    while at < end {
        let span = held.remove(at);
        at += span.pages();
        release(latches, turn, Segment { space, span });
    }
}

/// Gives the pages of a run back to its space, and forgets the nodes on them.
pub fn give_run<S: Span, L: Latches<S = S>>(
    geometry: &Geometry,
    held: &mut Holdings<S>,
    cache: &mut Cache,
    latches: &mut L,
    turn: &mut L::Turn,
    run: Extent,
)
    requires ready { IsReady geometry.now (L.rest latches.old) }
    requires lies { LiesInSpace geometry.now run }
    requires whole { IsWholeRun held.old run.page run.pages }
    requires sized { AllSized S.tells geometry.now.page held.old }
    ensures left { LeavesNodes S.tells geometry.now.page (is_on_run run.page run.pages)
        held.old held.new cache.old cache.new }
    ensures given { LetsGo geometry.now (gives (is_on_run run.page run.pages))
        (L.rest latches.old) (L.rest latches.new) (L.trace latches.old) (L.trace latches.new) }
{
    // Who asks for the page size learns that the numbers are in range, so that pages are counted
    // by 32 bits.
    let _page = geometry.page();
    give_spans(geometry, held, latches, turn, run.page, run.pages);
    cache.forget_run(run.page, run.pages);
}

/// Gives the pages of runs back to their spaces, run by run.
pub fn give_runs<S: Span, L: Latches<S = S>>(
    geometry: &Geometry,
    runs: &[Extent],
    held: &mut Holdings<S>,
    cache: &mut Cache,
    latches: &mut L,
    turn: &mut L::Turn,
)
    requires ready { IsReady geometry.now (L.rest latches.old) }
    requires can { CanGiveRuns geometry.now held.old runs.now }
    requires sized { AllSized S.tells geometry.now.page held.old }
    ensures left { LeavesNodes S.tells geometry.now.page (is_in_runs runs.now)
        held.old held.new cache.old cache.new }
    ensures given { LetsGo geometry.now (gives (is_in_runs runs.now))
        (L.rest latches.old) (L.rest latches.new) (L.trace latches.old) (L.trace latches.new) }
{
    for run in runs {
        give_run(geometry, held, cache, latches, turn, *run);
    }
}
