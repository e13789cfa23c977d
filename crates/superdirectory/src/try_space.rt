//! One space tried for a grant: a look, and an enter only where it showed room.

ghost use Rattle.std.specs.Prelude.{◌≡◌, length, List, IfSome, is_none, Some, None};
ghost use Rattle.std.specs.Prelude.{option_map, ◌∷◌, []};
ghost use Rattle.block_model.specs.Place.{least_order};
ghost use Rattle.block_model.specs.Block.{IsOrder};
ghost use Rattle.layout_model.specs.Grants.{spot_in};
ghost use Rattle.space_directory.specs.SpaceView.{SpaceView};
ghost use Rattle.superdirectory.specs.Trace.{Part, IsTried, IsInTurn};
ghost use Rattle.superdirectory.specs.Rest.{count};
ghost use Rattle.superdirectory.specs.Grants.{AreTold, IsGrantFrom, free_sets, KeepsFrame};
ghost use Rattle.superdirectory.specs.Grants.{IsSegmentIn, IsExact};

use crate::latches::Latches;
use page_port::Span;
use space_directory::Segment;

/// Grants `n` pages, of order `order`, in one space, where it has room.
pub fn try_space<S: Span, L: Latches<S = S>>(
    latches: &mut L,
    turn: &mut L::Turn,
    s: u16,
    order: u8,
    n: u32,
) -> Option<Segment<S>>
    requires from { IsGrantFrom (L.rest latches.old) s n }
    requires order { IsOrder n order }
    ensures rest { KeepsFrame (L.rest latches.old) (L.rest latches.new) }
    ensures trace { Part (IsTried order s (is_none result)) (L.trace latches.old)
        (L.trace latches.new) }
    ensures turn { Part (IsInTurn (s ∷ []) (is_none result)) (L.trace latches.old)
        (L.trace latches.new) }
    ensures segment { IfSome result (λ g. IsSegmentIn (L.rest latches.old).frame n g.space
        (S.start g.span) (S.contents g.span) S.tells) }
    ensures exact { (views : List SpaceView) → AreTold (L.rest latches.old) views
        → length views ≡ count (L.rest latches.old)
        → IsExact views n (spot_in (free_sets views) n (s ∷ [])) (L.rest latches.old).frame
        (option_map (λ g. (g.space, (S.start g.span, S.contents g.span))) result)
        (L.rest latches.new) }
{
    let hint = latches.look(s);
    if !hint.admits(order) {
        return None;
    }
    let mut space = latches.enter(turn, s);
    let granted = space.grant(n);
    latches.leave(s, space);
    granted
}
