//! A part granted in one piece or, where no space has room for it, in halves.

ghost use Rattle.std.specs.Prelude.{◌≡◌, ℕ, ◌+◌, ◌*◌, ◌/◌, ◌<◌, ◌≤◌, length, List, drop, IfErr};
ghost use Rattle.std.specs.Prelude.{OnOk, option_map, vec_len, vec_capacity};
ghost use Rattle.std.specs.Result.{result_err};
ghost use Rattle.geometry_model.specs.Numbers.{Numbers};
ghost use Rattle.layout_model.specs.Grants.{halved};
ghost use Rattle.space_directory.specs.SpaceView.{SpaceView};
ghost use Rattle.superdirectory.specs.Trace.{Part};
ghost use Rattle.superdirectory.specs.Rest.{count};
ghost use Rattle.superdirectory.specs.Grants.{AreTold, IsGrantFrom, free_sets, KeepsFrame};
ghost use Rattle.superdirectory.specs.Parts.{IsLaid, AnswersHalved, AppendsPieces, LeavesAll};
ghost use Rattle.superdirectory.specs.Parts.{IsAsked, IsAskedAll, AddsPieces};

use crate::giving::give_from;
use crate::granting::grant;
use crate::hint::NoSpace;
use crate::latches::Latches;
use page_port::Span;
use space_directory::Segment;

/// Grants `n` pages as one piece, or where no space has room for them, the larger half and then the
/// smaller one in the same way, down to pieces of `threshold` pages. The pieces are appended to
/// `into`. It takes no memory.
///
/// # Errors
/// `NoSpace` names the pages of the first piece that was refused and not cut, fewer than twice
/// `threshold`. The pieces before it are given back, and `into` is as before; so are the told
/// spaces, with what their free pages hold.
pub fn grant_parts<S: Span, L: Latches<S = S>>(
    latches: &mut L,
    turn: &mut L::Turn,
    start: u16,
    n: u32,
    threshold: u32,
    into: &mut Vec<Segment<S>>,
) -> Result<(), NoSpace>
    requires from { IsGrantFrom (L.rest latches.old) start n }
    requires threshold { 1 ≤ threshold }
    requires room { vec_len into.old + n / threshold + 1 ≤ vec_capacity into.old }
    ensures rest { KeepsFrame (L.rest latches.old) (L.rest latches.new) }
    ensures pieces { OnOk result (AppendsPieces (λ g. g.space) (λ g. S.start g.span)
        (λ g. S.contents g.span) S.tells (L.rest latches.old).frame n threshold (vec_len into.old)
        (vec_capacity into.old) (vec_capacity into.new) into.old.items into.new.items) }
    ensures refused { IfErr result (λ e. LeavesAll n threshold e.pages
        (vec_capacity into.old) (vec_capacity into.new) into.old.items into.new.items
        (L.rest latches.old) (L.rest latches.new)) }

    // Each enter of a grant follows a look that showed room, and a refusal found every space low.
    ensures trace { Part (IsAskedAll n threshold (count (L.rest latches.old))
        (option_map (λ e. e.pages) (result_err result))) (L.trace latches.old)
        (L.trace latches.new) }

    // Where the spaces are told, the pieces and what they leave are those of the rule of halves; a
    // refusal leaves the spaces as they were. That the spaces begin where the numbers say is asked
    // only of the pages that the rule names.
    ensures exact { (numbers : Numbers) (views : List SpaceView)
        → AreTold (L.rest latches.old) views → length views ≡ count (L.rest latches.old)
        → AnswersHalved (λ g. g.space) (λ g. S.start g.span) (λ g. S.contents g.span) views
        (IsLaid numbers (L.rest latches.old).frame.firsts)
        (halved n numbers start threshold n (free_sets views))
        (option_map (λ e. e.pages) (result_err result)) (drop (vec_len into.old) into.new.items)
        (L.rest latches.new) }
{
    let kept = into.len();
    match grant_halved(latches, turn, start, n, threshold, into) {
        Ok(()) => Ok(()),
        Err(refused) => {
            give_from(latches, turn, into, kept);
            Err(refused)
        }
    }
}

/// Grants `n` pages by halves.
///
/// # Errors
/// As of `grant_parts`, but the pieces before the refusal stay in `into`.
fn grant_halved<S: Span, L: Latches<S = S>>(
    latches: &mut L,
    turn: &mut L::Turn,
    start: u16,
    n: u32,
    threshold: u32,
    into: &mut Vec<Segment<S>>,
) -> Result<(), NoSpace>
    requires from { IsGrantFrom (L.rest latches.old) start n }
    requires threshold { 1 ≤ threshold }
    requires room { (free : ℕ) × (vec_len into.old + free ≡ vec_capacity into.old)
        × (n < threshold * free) }
    ensures rest { KeepsFrame (L.rest latches.old) (L.rest latches.new) }
    ensures room { vec_capacity into.new ≡ vec_capacity into.old }
    ensures pieces { AddsPieces (λ g. g.space) (λ g. S.start g.span) (λ g. S.contents g.span)
        S.tells (L.rest latches.old).frame start n threshold
        (option_map (λ e. e.pages) (result_err result)) (L.rest latches.old) (L.rest latches.new)
        into.old.items into.new.items }
    ensures trace { Part (IsAsked n threshold (count (L.rest latches.old))
        (option_map (λ e. e.pages) (result_err result))) (L.trace latches.old)
        (L.trace latches.new) }
{
    let refused = match grant(latches, turn, start, n) {
        Ok(segment) => {
            into.push_reserved(segment);
            return Ok(());
        }
        Err(refused) => refused,
    };
    let half = n / 2;
    if half < threshold {
        return Err(refused);
    }
    grant_halved(latches, turn, start, n - half, threshold, into)?;
    grant_halved(latches, turn, start, half, threshold, into)
}
