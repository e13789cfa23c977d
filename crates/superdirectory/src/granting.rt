//! A grant over all spaces, from a start on and around.

ghost use Rattle.std.specs.Prelude.{◌≡◌, ◌≤◌, ◌-◌, length, List, IfSome, IfOk, IfErr, is_none};
ghost use Rattle.std.specs.Prelude.{is_err, Some, None, option_map};
ghost use Rattle.std.specs.Result.{result_ok};
ghost use Rattle.std.specs.List.{range_with_len};
ghost use Rattle.block_model.specs.Place.{least_order};
ghost use Rattle.block_model.specs.Block.{IsOrder};
ghost use Rattle.layout_model.specs.Grants.{spot_in, around};
ghost use Rattle.space_directory.specs.SpaceView.{SpaceView};
ghost use Rattle.superdirectory.specs.Trace.{Part, IsSearched, IsInTurn};
ghost use Rattle.superdirectory.specs.Rest.{count};
ghost use Rattle.superdirectory.specs.Grants.{AreTold, IsGrantFrom, free_sets, KeepsFrame};
ghost use Rattle.superdirectory.specs.Grants.{IsSegmentIn, IsExact};

use crate::hint::NoSpace;
use crate::latches::Latches;
use crate::try_space::try_space;
use block_model::order_of;
use page_port::Span;
use space_directory::Segment;

/// Grants `n` pages in the first space, from `start` on and around, that has room. Each space is
/// looked at once at most, and entered only where its hint showed room. It takes no memory.
///
/// # Errors
/// `NoSpace`, of `n` pages, comes only where every space, at a look or an enter of this call, had
/// no block for them; where the spaces are told, exactly where none of them has one, and they are
/// the very same afterwards, with what their free pages hold.
pub fn grant<S: Span, L: Latches<S = S>>(
    latches: &mut L,
    turn: &mut L::Turn,
    start: u16,
    n: u32,
) -> Result<Segment<S>, NoSpace>
    requires from { IsGrantFrom (L.rest latches.old) start n }
    ensures rest { KeepsFrame (L.rest latches.old) (L.rest latches.new) }
    ensures pages { IfErr result (λ e. e.pages ≡ n) }
    ensures segment { IfOk result (λ g. IsSegmentIn (L.rest latches.old).frame n g.space
        (S.start g.span) (S.contents g.span) S.tells) }

    // Each space is visited once at most, each enter comes right after a look that showed room, and
    // a refusal found every space low. They are looked at in turn, and the grant ends the search.
    ensures trace { Part (IsSearched (least_order n) 0 (count (L.rest latches.old)) (is_err result))
        (L.trace latches.old) (L.trace latches.new) }

    ensures turn { Part (IsInTurn (around start (count (L.rest latches.old))) (is_err result))
        (L.trace latches.old) (L.trace latches.new) }

    // Where the spaces are told, the pages are those of the first place, and all else stays.
    ensures exact { (views : List SpaceView) → AreTold (L.rest latches.old) views
        → length views ≡ count (L.rest latches.old)
        → IsExact views n (spot_in (free_sets views) n (around start (count (L.rest latches.old))))
        (L.rest latches.old).frame
        (option_map (λ g. (g.space, (S.start g.span, S.contents g.span))) (result_ok result))
        (L.rest latches.new) }
{
    let spaces = latches.spaces();
    let order = order_of(n);
    if let Some(segment) = grant_between(latches, turn, start, spaces, order, n) {
        return Ok(segment);
    }
    if let Some(segment) = grant_between(latches, turn, 0, start, order, n) {
        return Ok(segment);
    }
    Err(NoSpace { pages: n })
}

/// Grants `n` pages, of order `order`, in the first of the spaces from `from` up to `to` that has
/// room.
fn grant_between<S: Span, L: Latches<S = S>>(
    latches: &mut L,
    turn: &mut L::Turn,
    from: u16,
    to: u16,
    order: u8,
    n: u32,
) -> Option<Segment<S>>
    requires from { IsGrantFrom (L.rest latches.old) from n }
    requires to { (from ≤ to) × (to ≤ count (L.rest latches.old)) }
    requires order { IsOrder n order }
    ensures rest { KeepsFrame (L.rest latches.old) (L.rest latches.new) }
    ensures trace { Part (IsSearched order from to (is_none result)) (L.trace latches.old)
        (L.trace latches.new) }
    ensures turn { Part (IsInTurn (range_with_len from (to - from)) (is_none result))
        (L.trace latches.old) (L.trace latches.new) }
    ensures segment { IfSome result (λ g. IsSegmentIn (L.rest latches.old).frame n g.space
        (S.start g.span) (S.contents g.span) S.tells) }
    ensures exact { (views : List SpaceView) → AreTold (L.rest latches.old) views
        → length views ≡ count (L.rest latches.old)
        → IsExact views n (spot_in (free_sets views) n (range_with_len from (to - from)))
        (L.rest latches.old).frame
        (option_map (λ g. (g.space, (S.start g.span, S.contents g.span))) result)
        (L.rest latches.new) }
{
    for s in from..to {
        if let Some(segment) = try_space(latches, turn, s, order, n) {
            return Some(segment);
        }
    }
    None
}
