//! Pages given back, locked and unlocked in the space that has them. None of these calls takes
//! memory, and each enters one space.

ghost use Rattle.std.specs.Prelude.{◌≡◌, ◌-◌, ◌<◌, ◌≤◌, length, List, [], map, reverse, drop};
ghost use Rattle.std.specs.Prelude.{None, vec_capacity};
ghost use Rattle.page_port.specs.Pages.{IsSized};
ghost use Rattle.space_directory.specs.SpaceView.{SpaceView, after_give, after_lock, after_unlock};
ghost use Rattle.superdirectory.specs.Trace.{Part, IsEntered, AreAt, AreEnters};
ghost use Rattle.superdirectory.specs.Rest.{count};
ghost use Rattle.superdirectory.specs.Grants.{AreTold, KeepsFrame, IsRunIn, UsesSpace, AreRunsIn};
ghost use Rattle.superdirectory.specs.Grants.{IsGivenAll, IsCutTo};

use crate::latches::Latches;
use page_port::Span;
use space_directory::Segment;

/// Gives a segment's pages back to its space: they are free there, and not locked.
fn give<S: Span, L: Latches<S = S>>(latches: &mut L, turn: &mut L::Turn, segment: Segment<S>)
    requires none { (L.rest latches.old).entered ≡ None }
    requires run { IsRunIn (L.rest latches.old).frame segment.space (S.start segment.span)
        (length (S.contents segment.span)) }
    requires sized { IsSized S.tells (L.rest latches.old).frame.page (S.contents segment.span) }
    ensures { UsesSpace segment.space
        (λ v. after_give v (S.start segment.span - v.first) (S.contents segment.span))
        (L.rest latches.old) (L.rest latches.new) (L.trace latches.old) (L.trace latches.new) }
{
    let s = segment.space;
    let mut space = latches.enter(turn, s);
    space.give(segment);
    latches.leave(s, space);
}

/// Gives a segment's pages back that were locked: they are free there, and no longer locked.
pub fn release<S: Span, L: Latches<S = S>>(latches: &mut L, turn: &mut L::Turn, segment: Segment<S>)
    requires none { (L.rest latches.old).entered ≡ None }
    requires run { IsRunIn (L.rest latches.old).frame segment.space (S.start segment.span)
        (length (S.contents segment.span)) }
    requires sized { IsSized S.tells (L.rest latches.old).frame.page (S.contents segment.span) }
    ensures { UsesSpace segment.space
        (λ v. after_give v (S.start segment.span - v.first) (S.contents segment.span))
        (L.rest latches.old) (L.rest latches.new) (L.trace latches.old) (L.trace latches.new) }
{
    give(latches, turn, segment);
}

/// Locks those of the `n` pages from `first` on of a space that aren't free.
pub fn lock_run<S: Span, L: Latches<S = S>>(
    latches: &mut L,
    turn: &mut L::Turn,
    s: u16,
    first: u32,
    n: u32,
)
    requires none { (L.rest latches.old).entered ≡ None }
    requires run { IsRunIn (L.rest latches.old).frame s first n }
    ensures { UsesSpace s (λ v. after_lock v (first - v.first) n)
        (L.rest latches.old) (L.rest latches.new) (L.trace latches.old) (L.trace latches.new) }
{
    let mut space = latches.enter(turn, s);
    space.lock(first, n);
    latches.leave(s, space);
}

/// Unlocks the `n` pages from `first` on of a space.
pub fn unlock_run<S: Span, L: Latches<S = S>>(
    latches: &mut L,
    turn: &mut L::Turn,
    s: u16,
    first: u32,
    n: u32,
)
    requires none { (L.rest latches.old).entered ≡ None }
    requires run { IsRunIn (L.rest latches.old).frame s first n }
    ensures { UsesSpace s (λ v. after_unlock v (first - v.first) n)
        (L.rest latches.old) (L.rest latches.new) (L.trace latches.old) (L.trace latches.new) }
{
    let mut space = latches.enter(turn, s);
    space.unlock(first, n);
    latches.leave(s, space);
}

/// Gives each segment back to its space, the last one first, and empties the list.
pub fn give_all<S: Span, L: Latches<S = S>>(
    latches: &mut L,
    turn: &mut L::Turn,
    segments: &mut Vec<Segment<S>>,
)
    requires none { (L.rest latches.old).entered ≡ None }
    requires runs { AreRunsIn (λ g. g.space) (λ g. S.start g.span) (λ g. S.contents g.span) S.tells
        (L.rest latches.old).frame segments.old.items }
    ensures empty { segments.new.items ≡ [] }
    ensures rest { KeepsFrame (L.rest latches.old) (L.rest latches.new) }
    ensures trace { Part AreEnters (L.trace latches.old) (L.trace latches.new) }
    ensures turn { Part (AreAt (reverse (map (λ g. g.space) segments.old.items)))
        (L.trace latches.old) (L.trace latches.new) }
    ensures told { (views : List SpaceView) → AreTold (L.rest latches.old) views
        → length views ≡ count (L.rest latches.old)
        → ((after : List SpaceView) × AreTold (L.rest latches.new) after
        × IsGivenAll (λ g. g.space) (λ g. S.start g.span) (λ g. S.contents g.span)
        views segments.old.items after) }
{
    give_from(latches, turn, segments, 0);
}

/// Gives the segments from place `from` on back to their spaces, the last one first.
pub(crate) fn give_from<S: Span, L: Latches<S = S>>(
    latches: &mut L,
    turn: &mut L::Turn,
    segments: &mut Vec<Segment<S>>,
    from: usize,
)
    requires none { (L.rest latches.old).entered ≡ None }
    requires within { from ≤ length segments.old.items }
    requires runs { AreRunsIn (λ g. g.space) (λ g. S.start g.span) (λ g. S.contents g.span) S.tells
        (L.rest latches.old).frame (drop from segments.old.items) }
    ensures left { IsCutTo from (vec_capacity segments.old) (vec_capacity segments.new)
        segments.old.items segments.new.items }
    ensures rest { KeepsFrame (L.rest latches.old) (L.rest latches.new) }
    ensures trace { Part AreEnters (L.trace latches.old) (L.trace latches.new) }
    ensures turn { Part (AreAt (reverse (map (λ g. g.space) (drop from segments.old.items))))
        (L.trace latches.old) (L.trace latches.new) }
    ensures told { (views : List SpaceView) → AreTold (L.rest latches.old) views
        → length views ≡ count (L.rest latches.old)
        → ((after : List SpaceView) × AreTold (L.rest latches.new) after
        × IsGivenAll (λ g. g.space) (λ g. S.start g.span) (λ g. S.contents g.span)
        views (drop from segments.old.items) after) }
{
    while segments.len() > from
        && let Some(segment) = segments.pop()
    {
        give(latches, turn, segment);
    }
}
