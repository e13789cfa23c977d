//! Asking for the pages of parts: for each the wish as one piece, or else the need, in halves where
//! it must be.

ghost use Rattle.std.specs.Prelude.{◌≡◌, ℕ, ◌+◌, ◌/◌, ◌<◌, ◌≤◌, List, [], ◌∷◌, length, IfOk};
ghost use Rattle.std.specs.Prelude.{IfErr, IfSome, OnOk, Some, None, option_map, vec_len};
ghost use Rattle.std.specs.Prelude.{vec_capacity};
ghost use Rattle.std.specs.Result.{result_err};
ghost use Rattle.geometry_model.specs.Numbers.{Numbers};
ghost use Rattle.layout_model.specs.Grants.{all_runs};
ghost use Rattle.space_directory.specs.SpaceView.{SpaceView};
ghost use Rattle.superdirectory.specs.Trace.{Part};
ghost use Rattle.superdirectory.specs.Rest.{count};
ghost use Rattle.superdirectory.specs.Grants.{AreTold, KeepsFrame, free_sets};
ghost use Rattle.superdirectory.specs.Parts.{IsLaid};
ghost use Rattle.part_store.specs.Asking.{IsAskable, MayAsk, AreRuns, AreRunsOf, LeavesTold};
ghost use Rattle.part_store.specs.Asking.{IsRefusedFor, IsLowAt, AddsPart, RefusesPart};
ghost use Rattle.part_store.specs.Asking.{most_pieces, HasRoomToAsk};
ghost use Rattle.part_store.specs.Asking.{AreAsked, IsStopped, pages_refused};

use crate::granted::{AskFail, Granted};
use layout_model::Request;
use page_port::Span;
use space_directory::Segment;
use std::alloc::{AllocError, Global};
use superdirectory::{Latches, NoSpace, give_all, grant, grant_parts};

/// Asks for the pages of parts in their order, from space `start` on and around: for each the pages
/// that it wishes for in one piece, and where no space has a place for them those that it needs,
/// halved down to pieces of `threshold` pages where they must be.
///
/// # Errors
/// - `NoSpace(p)`: p pages were refused in one piece and not cut, fewer than twice `threshold`.
///   What was granted before is given back, and told spaces are the very same.
/// - `Memory`: there is no memory for the lists. Nothing was asked for.
pub fn ask_parts<S: Span, L: Latches<S = S>>(
    alloc: Global,
    latches: &mut L,
    turn: &mut L::Turn,
    start: u16,
    threshold: u32,
    requests: &[Request],
) -> Result<Granted<S>, AskFail>
    requires from { MayAsk (L.rest latches.old) start requests.now }
    requires threshold { 1 ≤ threshold }
    ensures rest { KeepsFrame (L.rest latches.old) (L.rest latches.new) }
    ensures runs { IfOk result (λ g. AreRuns (λ s. s.space) (λ s. S.start s.span)
        (λ s. S.contents s.span) S.tells (L.rest latches.old).frame threshold requests.now
        g.counts.items g.segments.items) }

    // Where the spaces are told, the runs and what they leave are those of the rule.
    ensures exact { IfOk result (λ g. (numbers : Numbers) (views : List SpaceView)
        → AreTold (L.rest latches.old) views → length views ≡ count (L.rest latches.old)
        → AreRunsOf (λ s. s.space) (λ s. S.start s.span) (λ s. S.contents s.span) views
        (IsLaid numbers (L.rest latches.old).frame.firsts)
        (all_runs numbers start threshold requests.now (free_sets views))
        g.counts.items g.segments.items (L.rest latches.new)) }
    ensures refused { IfErr result (λ e. IfSome (pages_refused e) (λ p.
        IsRefusedFor start threshold p requests.now (L.rest latches.old))) }
    ensures left { IfErr result (λ e. LeavesTold (L.rest latches.old) (L.rest latches.new)) }

    // A refusal of pages found every space low for them.
    ensures low { Part (λ part. IfErr result (λ e. IsLowAt (count (L.rest latches.old))
        (pages_refused e) part)) (L.trace latches.old) (L.trace latches.new) }
{
    let Ok(mut granted) = prepared(alloc, threshold, requests) else {
        return Err(AskFail::Memory);
    };
    match ask_all(latches, turn, start, threshold, requests, &mut granted) {
        Ok(()) => Ok(granted),
        Err(refused) => {
            give_all(latches, turn, &mut granted.segments);
            Err(AskFail::NoSpace(refused.pages))
        }
    }
}

/// Room for what can be granted for these parts.
fn prepared<S: Span>(
    alloc: Global,
    threshold: u32,
    requests: &[Request],
) -> Result<Granted<S>, AllocError>
    requires threshold { 1 ≤ threshold }
    ensures { IfOk result (λ g. HasRoomToAsk threshold requests.now g.segments.items
        g.counts.items (vec_capacity g.segments) (vec_capacity g.counts)) }
{
    let Some(room) = room_for(threshold, requests) else {
        return Err(AllocError);
    };
    let segments = Vec::with_capacity(alloc, room)?;
    let counts = Vec::with_capacity(alloc, requests.len())?;
    Ok(Granted { segments, counts })
}

/// How many pieces can be granted for these parts.
fn room_for(threshold: u32, requests: &[Request]) -> Option<usize>
    requires threshold { 1 ≤ threshold }
    ensures { IfSome result (λ room. room ≡ most_pieces threshold requests.now) }
{
    let mut room = 0usize;
    for request in requests {
        let pieces = (request.need / threshold) as usize + 1;
        room = room.checked_add(pieces)?;
    }
    Some(room)
}

/// Asks for the pages of parts in their order.
///
/// # Errors
/// As of `ask_parts`, but what was granted before the refusal stays in `granted`.
fn ask_all<S: Span, L: Latches<S = S>>(
    latches: &mut L,
    turn: &mut L::Turn,
    start: u16,
    threshold: u32,
    requests: &[Request],
    granted: &mut Granted<S>,
) -> Result<(), NoSpace>
    requires from { MayAsk (L.rest latches.old) start requests.now }
    requires threshold { 1 ≤ threshold }
    requires prepared { HasRoomToAsk threshold requests.now granted.old.segments.items
        granted.old.counts.items (vec_capacity granted.old.segments)
        (vec_capacity granted.old.counts) }
    ensures rest { KeepsFrame (L.rest latches.old) (L.rest latches.new) }
    ensures asked { OnOk result (AreAsked (λ s. s.space) (λ s. S.start s.span)
        (λ s. S.contents s.span) S.tells start threshold requests.now [] (L.rest latches.old)
        (L.rest latches.new) granted.new.counts.items granted.new.segments.items) }
    ensures refused { IfErr result (λ e. IsStopped (λ s. s.space) (λ s. S.start s.span)
        (λ s. S.contents s.span) S.tells start threshold e.pages requests.now
        (L.rest latches.old) (L.rest latches.new) granted.new.segments.items) }
    ensures low { Part (IsLowAt (count (L.rest latches.old))
        (option_map (λ e. e.pages) (result_err result))) (L.trace latches.old)
        (L.trace latches.new) }
{
    for request in requests {
        let before = granted.segments.len();
        ask_part(
            latches,
            turn,
            start,
            threshold,
            *request,
            &mut granted.segments,
        )?;
        let now = granted.segments.len();
        granted.counts.push_reserved(now - before);
    }
    Ok(())
}

/// Asks for the pages of one part.
///
/// # Errors
/// As of `grant_parts`, for the need.
fn ask_part<S: Span, L: Latches<S = S>>(
    latches: &mut L,
    turn: &mut L::Turn,
    start: u16,
    threshold: u32,
    request: Request,
    into: &mut Vec<Segment<S>>,
) -> Result<(), NoSpace>
    requires from { MayAsk (L.rest latches.old) start (request ∷ []) }
    requires threshold { 1 ≤ threshold }
    requires room { vec_len into.old + request.need / threshold + 1 ≤ vec_capacity into.old }
    ensures rest { KeepsFrame (L.rest latches.old) (L.rest latches.new) }
    ensures kept { vec_capacity into.new ≡ vec_capacity into.old }
    ensures added { OnOk result (AddsPart (λ s. s.space) (λ s. S.start s.span)
        (λ s. S.contents s.span) S.tells start threshold request (L.rest latches.old)
        (L.rest latches.new) into.old.items into.new.items) }
    ensures refused { IfErr result (λ e. RefusesPart start threshold e.pages request
        (L.rest latches.old) (L.rest latches.new) into.old.items into.new.items) }
    ensures low { Part (IsLowAt (count (L.rest latches.old))
        (option_map (λ e. e.pages) (result_err result))) (L.trace latches.old)
        (L.trace latches.new) }
{
    if request.want == request.need {
        return grant_parts(latches, turn, start, request.need, threshold, into);
    }
    match grant(latches, turn, start, request.want) {
        Ok(segment) => {
            into.push_reserved(segment);
            Ok(())
        }
        Err(_) => grant_parts(latches, turn, start, request.need, threshold, into),
    }
}
