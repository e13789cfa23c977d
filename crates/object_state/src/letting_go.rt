//! Pages that the working version drops: those that this transaction was granted go back to their
//! spaces, and the others, which the committed version uses, are locked there until its end. None of
//! these calls takes memory.

ghost use Rattle.std.specs.Prelude.{◌≡◌, ℕ, ◌+◌, ◌^◌, ◌<◌, IsTrue};
ghost use Rattle.page_set.specs.Members.{AllOn, Keeps};
ghost use Rattle.page_set.specs.Words.{in_set, room_in};
ghost use Rattle.span_store.specs.Held.{begins};
ghost use Rattle.page_cache.specs.Kept.{is_on_run};
ghost use Rattle.object_state.specs.Keeps.{IsMarked};
ghost use Rattle.give_back.specs.Giving.{IsWholeRun};
ghost use Rattle.object_state.specs.Drops.{CanDrop, Drops, IsOneSpan};

use give_back::{give_run, space_of};
use layout_model::Extent;
use page_cache::Cache;
use page_port::{Geometry, Span};
use page_set::PageSet;
use span_store::Holdings;
use superdirectory::{Hints, Latches, lock_run};

/// How many pages the span has that begins at a page.
fn span_pages<S: Span>(held: &Holdings<S>, first: u32) -> u32
    requires { IsTrue (begins held.now first) }
    ensures { IsOneSpan held.now first result }
{
    match held.span_from(first) {
        Some(span) => span.pages(),
        None => unreachable!(),
    }
}

/// Drops the pages of a span.
fn drop_span<S: Span, L: Latches<S = S>>(
    geometry: &Geometry,
    held: &mut Holdings<S>,
    cache: &mut Cache,
    latches: &mut L,
    turn: &mut L::Turn,
    fresh: &mut PageSet,
    locked: &mut PageSet,
    first: u32,
    pages: u32,
)
    requires can { CanDrop S.tells geometry.now (record {
      held = held.old;
      cache = cache.old;
      fresh = fresh.old;
      locked = locked.old;
      rest = L.rest latches.old;
      trace = L.trace latches.old;
    }) }
    requires span { IsOneSpan held.old first pages }
    requires within { first + pages < 2 ^ 32 }
    requires room { AllOn (room_in locked.old) first pages }
    ensures drops { Drops S.tells geometry.now (is_on_run first pages)
        (record {
          held = held.old;
          cache = cache.old;
          fresh = fresh.old;
          locked = locked.old;
          rest = L.rest latches.old;
          trace = L.trace latches.old;
        })
        (record {
          held = held.new;
          cache = cache.new;
          fresh = fresh.new;
          locked = locked.new;
          rest = L.rest latches.new;
          trace = L.trace latches.new;
        }) }
{
    if fresh.has(first) {
        let run = Extent { page: first, pages };
        give_run(geometry, held, cache, latches, turn, run);
        fresh.remove(first, pages);
        return;
    }
    let space = space_of(geometry, first);
    lock_run(latches, turn, space, first, pages);
    let Ok(()) = locked.add(first, pages) else {
        unreachable!()
    };
}

/// Drops the pages of a run, span by span.
fn drop_run<S: Span, L: Latches<S = S>>(
    geometry: &Geometry,
    held: &mut Holdings<S>,
    cache: &mut Cache,
    latches: &mut L,
    turn: &mut L::Turn,
    fresh: &mut PageSet,
    locked: &mut PageSet,
    first: u32,
    pages: u32,
)
    requires can { CanDrop S.tells geometry.now (record {
      held = held.old;
      cache = cache.old;
      fresh = fresh.old;
      locked = locked.old;
      rest = L.rest latches.old;
      trace = L.trace latches.old;
    }) }
    requires whole { IsWholeRun held.old first pages }
    requires within { first + pages < 2 ^ 32 }
    requires room { AllOn (room_in locked.old) first pages }
    ensures drops { Drops S.tells geometry.now (is_on_run first pages)
        (record {
          held = held.old;
          cache = cache.old;
          fresh = fresh.old;
          locked = locked.old;
          rest = L.rest latches.old;
          trace = L.trace latches.old;
        })
        (record {
          held = held.new;
          cache = cache.new;
          fresh = fresh.new;
          locked = locked.new;
          rest = L.rest latches.new;
          trace = L.trace latches.new;
        }) }
{
    let end = first + pages;
    let mut at = first;
    while at < end {
        let count = span_pages(held, at);
        drop_span(
            geometry, held, cache, latches, turn, fresh, locked, at, count,
        );
        at += count;
    }
}

/// Drops the pages of a set, run by run. The set is empty afterwards.
pub fn let_go<S: Span, L: Latches<S = S>>(
    geometry: &Geometry,
    held: &mut Holdings<S>,
    cache: &mut Cache,
    latches: &mut L,
    turn: &mut L::Turn,
    fresh: &mut PageSet,
    locked: &mut PageSet,
    gone: &mut PageSet,
)
    requires can { CanDrop S.tells geometry.now (record {
      held = held.old;
      cache = cache.old;
      fresh = fresh.old;
      locked = locked.old;
      rest = L.rest latches.old;
      trace = L.trace latches.old;
    }) }
    requires marked { IsMarked held.old (in_set gone.old) }
    requires room { Keeps (in_set gone.old) (room_in locked.old) }
    ensures drops { Drops S.tells geometry.now (in_set gone.old)
        (record {
          held = held.old;
          cache = cache.old;
          fresh = fresh.old;
          locked = locked.old;
          rest = L.rest latches.old;
          trace = L.trace latches.old;
        })
        (record {
          held = held.new;
          cache = cache.new;
          fresh = fresh.new;
          locked = locked.new;
          rest = L.rest latches.new;
          trace = L.trace latches.new;
        }) }
{
    while let Some(run) = gone.pop_first_run() {
        drop_run(
            geometry, held, cache, latches, turn, fresh, locked, run.first, run.pages,
        );
    }
}
