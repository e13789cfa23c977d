//! Pages that were granted go back to their spaces.

ghost use Rattle.std.specs.Prelude.{◌≡◌, length, map, sum};
ghost use Rattle.fault_count.specs.Counts.{Meter};
ghost use Rattle.moment_laws.specs.Granting.{page_run};
ghost use Rattle.span_store.specs.Held.{AllSized};
ghost use Rattle.tree_splice.specs.Splice.{firsts_of};
ghost use Rattle.object_body.specs.Places.{IsReady};
ghost use Rattle.object_change.specs.Calls.{TakesBack};
ghost use Rattle.object_change.specs.Changed.{granted_in};
ghost use Rattle.give_back.specs.Giving.{CanGiveRuns, LeavesNodes, LetsGo, gives, is_in_runs};
ghost use Rattle.held_parts.specs.Holding.{KeepsRight};

use crate::changed::Changed;
use give_back::{give_run, give_runs};
use layout_model::Extent;
use page_cache::Cache;
use page_port::{Geometry, Span};
use span_store::Holdings;
use superdirectory::Latches;
use tree_splice::Run;

/// Gives all pages back that a change was granted, as though it had never been asked for. It takes
/// no memory. What stands on the spare pages doesn't come back.
pub fn take_back<S: Span, L: Latches<S = S>>(
    geometry: &Geometry,
    changed: &Changed,
    held: &mut Holdings<S>,
    cache: &mut Cache,
    latches: &mut L,
    turn: &mut L::Turn,
)
    requires ready { IsReady geometry.now (L.rest latches.old) }
    requires whole { sum changed.now.counts.items ≡ length changed.now.runs.items }
    requires can { CanGiveRuns geometry.now held.old (granted_in changed.now) }
    requires right { KeepsRight S.tells geometry.now held.old cache.old }
    ensures back { (meter : Meter) → TakesBack S.tells geometry.now (granted_in changed.now)
        (record {
          held = held.old;
          nodes = cache.old;
          meter = meter;
          rest = L.rest latches.old;
          trace = L.trace latches.old;
        })
        (record {
          held = held.new;
          nodes = cache.new;
          meter = meter;
          rest = L.rest latches.new;
          trace = L.trace latches.new;
        }) }
{
    give_runs(
        geometry,
        changed.runs.as_slice(),
        held,
        cache,
        latches,
        turn,
    );
    give_pages(
        geometry,
        changed.made.as_slice(),
        held,
        cache,
        latches,
        turn,
    );
}

/// Gives single pages back to their spaces.
fn give_pages<S: Span, L: Latches<S = S>>(
    geometry: &Geometry,
    pages: &[Run],
    held: &mut Holdings<S>,
    cache: &mut Cache,
    latches: &mut L,
    turn: &mut L::Turn,
)
    requires ready { IsReady geometry.now (L.rest latches.old) }
    requires can { CanGiveRuns geometry.now held.old (map page_run (firsts_of pages.now)) }
    requires sized { AllSized S.tells geometry.now.page held.old }
    ensures left { LeavesNodes S.tells geometry.now.page
        (is_in_runs (map page_run (firsts_of pages.now))) held.old held.new cache.old cache.new }
    ensures given { LetsGo geometry.now
        (gives (is_in_runs (map page_run (firsts_of pages.now)))) (L.rest latches.old)
        (L.rest latches.new) (L.trace latches.old) (L.trace latches.new) }
{
    for page in pages {
        let run = Extent {
            page: page.first,
            pages: 1,
        };
        give_run(geometry, held, cache, latches, turn, run);
    }
}
