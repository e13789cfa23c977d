//! The pages of made parts: they are asked for, and held from then on.

ghost use Rattle.std.specs.Prelude.{◌≡◌, ◌+◌, ◌<◌, ◌≤◌, length, IfOk, OnOk};
ghost use Rattle.std.specs.List.{AllByRecursion};
ghost use Rattle.geometry_model.specs.Numbers.{space_pages};
ghost use Rattle.superdirectory.specs.Grants.{AreRunsIn};
ghost use Rattle.superdirectory.specs.Parts.{extents};
ghost use Rattle.superdirectory.specs.Rest.{count};
ghost use Rattle.part_store.specs.Asking.{IsAskable};
ghost use Rattle.object_body.specs.Places.{IsReady};
ghost use Rattle.held_parts.specs.Asking.{AsksRuns, HoldsParts};
ghost use Rattle.held_parts.specs.Holding.{KeepsRight};

use crate::holding::{hold_all, runs_of};
use crate::part_runs::PartRuns;
use give_back::give_runs;
use layout_model::{Extent, Request};
use object_body::EditFail;
use page_cache::Cache;
use page_port::{Geometry, Span};
use part_store::{AskFail, Granted, ask_parts};
use space_directory::Segment;
use span_store::Holdings;
use std::alloc::{AllocError, Global};
use superdirectory::{Latches, give_all};

/// Asks for the pages of parts, and holds them, each run in a span of its own.
///
/// # Errors
/// `NoSpace` as of `ask_parts`. `Memory` where there was none, or a page was granted that is held
/// already. All that was granted is given back then.
pub fn ask_runs<S: Span, L: Latches<S = S>>(
    alloc: Global,
    geometry: &Geometry,
    threshold: u32,
    requests: &[Request],
    held: &mut Holdings<S>,
    cache: &mut Cache,
    latches: &mut L,
    turn: &mut L::Turn,
    start: u16,
) -> Result<PartRuns, EditFail>
    requires ready { IsReady geometry.now (L.rest latches.old) }
    requires there { start < count (L.rest latches.old) }
    requires each { AllByRecursion (IsAskable (space_pages geometry.now)) requests.now }
    requires threshold { 1 ≤ threshold }
    requires right { KeepsRight S.tells geometry.now held.old cache.old }
    ensures asks { AsksRuns S.tells geometry.now start threshold requests.now result
        held.old held.new cache.new (L.rest latches.old) (L.rest latches.new)
        (L.trace latches.old) (L.trace latches.new) }
{
    match ask_parts(alloc, latches, turn, start, threshold, requests) {
        Ok(granted) => hold_granted(alloc, geometry, granted, held, cache, latches, turn),
        Err(AskFail::NoSpace(pages)) => Err(EditFail::NoSpace(pages)),
        Err(AskFail::Memory) => Err(EditFail::Memory),
    }
}

/// Holds the pages that were granted for parts.
///
/// # Errors
/// `Memory` where there was none, or one of the pages is held already: all are given back.
fn hold_granted<S: Span, L: Latches<S = S>>(
    alloc: Global,
    geometry: &Geometry,
    granted: Granted<S>,
    held: &mut Holdings<S>,
    cache: &mut Cache,
    latches: &mut L,
    turn: &mut L::Turn,
) -> Result<PartRuns, EditFail>
    requires ready { IsReady geometry.now (L.rest latches.old) }
    requires inside { AreRunsIn (λ g. g.space) (λ g. S.start g.span) (λ g. S.contents g.span)
        S.tells (L.rest latches.old).frame granted.segments.items }
    requires right { KeepsRight S.tells geometry.now held.old cache.old }
    ensures holds { HoldsParts S.tells geometry.now granted.counts.items
        (extents (λ g. S.start g.span) (λ g. S.contents g.span) granted.segments.items) result
        held.old held.new cache.new (L.rest latches.old) (L.rest latches.new)
        (L.trace latches.old) (L.trace latches.new) }
{
    let Granted {
        mut segments,
        counts,
    } = granted;
    let Ok(runs) = runs_and_room(alloc, segments.as_slice(), held) else {
        give_all(latches, turn, &mut segments);
        return Err(EditFail::Memory);
    };
    let parts = PartRuns { runs, counts };
    hold_or_give(geometry, parts, segments, held, cache, latches, turn)
}

/// The runs of segments, and room to hold these.
fn runs_and_room<S: Span>(
    alloc: Global,
    segments: &[Segment<S>],
    held: &mut Holdings<S>,
) -> Result<Vec<Extent>, AllocError>
    ensures runs { IfOk result (λ runs. runs.items ≡ extents (λ g. S.start g.span)
        (λ g. S.contents g.span) segments.now) }
    ensures room { OnOk result (length held.new.spans + length segments.now ≤ held.new.room) }
    ensures spans { held.new.spans ≡ held.old.spans }
{
    held.reserve(segments.len())?;
    runs_of(alloc, segments)
}

/// Holds segments, or where one of their pages is held already gives all of them back.
fn hold_or_give<S: Span, L: Latches<S = S>>(
    geometry: &Geometry,
    parts: PartRuns,
    segments: Vec<Segment<S>>,
    held: &mut Holdings<S>,
    cache: &mut Cache,
    latches: &mut L,
    turn: &mut L::Turn,
) -> Result<PartRuns, EditFail>
    requires ready { IsReady geometry.now (L.rest latches.old) }
    requires inside { AreRunsIn (λ g. g.space) (λ g. S.start g.span) (λ g. S.contents g.span)
        S.tells (L.rest latches.old).frame segments.items }
    requires runs { parts.runs.items
        ≡ extents (λ g. S.start g.span) (λ g. S.contents g.span) segments.items }
    requires room { length held.old.spans + length segments.items ≤ held.old.room }
    requires right { KeepsRight S.tells geometry.now held.old cache.old }
    ensures holds { HoldsParts S.tells geometry.now parts.counts.items
        (extents (λ g. S.start g.span) (λ g. S.contents g.span) segments.items) result
        held.old held.new cache.new (L.rest latches.old) (L.rest latches.new)
        (L.trace latches.old) (L.trace latches.new) }
{
    let mut segments = segments;
    if hold_all(held, &mut segments) {
        return Ok(parts);
    }
    let left = segments.len();
    give_all(latches, turn, &mut segments);
    give_runs(geometry, &parts.runs[left..], held, cache, latches, turn);
    Err(EditFail::Memory)
}
