//! The data pages of a space cut apart: the free ones into slots, the others into runs.

ghost use Rattle.std.specs.Prelude.{◌≡◌, ◌+◌, ◌-◌, ◌<◌, ◌≤◌, ◌++◌, ◌∷◌, [], ℕ, Bool, length};
ghost use Rattle.std.specs.Prelude.{replicate, take, drop, slice_index_or, None, MatchBool};
ghost use Rattle.std.specs.Prelude.{vec_capacity, vec_len};
ghost use Rattle.block_model.specs.Block.{has_page};
ghost use Rattle.space_directory.specs.Slots.{KeepsSlots, AreSpread, pages_held};
ghost use Rattle.space_directory.specs.Held.{HoldsFree};
ghost use Rattle.space_directory.specs.Opening.{IsRest, AreUsedRuns, held_where};
ghost use Rattle.page_port.specs.Pages.{IsSized};

use crate::runs::run_end;
use crate::slots::put_run;
use buddy_map::BuddyMap;
use page_port::Span;

/// Cuts the data pages of a space apart: each free one into its slot, and the others into a list
/// of runs. It takes no memory: the list has room for all.
pub fn cut_apart<S: Span>(span: S, map: &BuddyMap, slots: &mut Vec<Option<S>>, used: &mut Vec<S>)
    requires count { length (S.contents span) ≡ length map.now }
    requires some { 1 ≤ length map.now }
    requires slots { slots.old.items ≡ replicate (length map.now) None }
    requires empty { used.old.items ≡ [] }
    requires room { length map.now ≤ vec_capacity used.old }
    ensures slots { (size : ℕ) → IsSized S.tells size (S.contents span)
        → HoldsFree S.start S.contents S.tells size (S.start span) map.now slots.new.items }
    ensures held { pages_held S.contents slots.new.items ≡ held_where map.now (S.contents span) }
    ensures used { AreUsedRuns S.start S.contents (S.start span) map.now (S.contents span)
        used.new.items }
{
    let pages = span.pages();
    let mut rest = Some(span);
    let mut at = 0;
    'runs: while let Some(span) = rest {
        let end = run_end(map, at, pages);
        let (run, tail) = split(span, end - at);
        place_run(map.is_free(at), slots, used, at, run);
        rest = tail;
        at = end;
    }
}

/// Cuts off the first `n` pages of a span, and gives them and what is left.
pub fn split<S: Span>(span: S, n: u32) -> (S, Option<S>)
    requires some { 1 ≤ n }
    requires within { n ≤ length (S.contents span) }
    ensures first { S.start result.0 ≡ S.start span }
    ensures pages { S.contents result.0 ≡ take n (S.contents span) }
    ensures rest { IsRest S.start S.contents (S.start span) (S.contents span) n result.1 }
{
    let mut rest = span;
    if n < rest.pages() {
        let front = rest.cut(n);
        return (front, Some(rest));
    }
    (rest, None)
}

/// Puts the pages of a run into their slots where they are free, and else the run into the list.
pub fn place_run<S: Span>(
    is_free: bool,
    slots: &mut Vec<Option<S>>,
    used: &mut Vec<S>,
    at: u32,
    run: S,
)
    requires within { at + length (S.contents run) ≤ length slots.old.items }
    requires room { vec_len used.old < vec_capacity used.old }
    ensures slots { MatchBool is_free
        (AreSpread S.start S.contents (S.start run)
        (S.contents run) slots.new.items at (length (S.contents run)))
        (slots.new.items ≡ slots.old.items) }
    ensures others { KeepsSlots slots.old.items slots.new.items at (length (S.contents run)) }
    ensures used { MatchBool is_free (used.new.items ≡ used.old.items)
        (used.new.items ≡ used.old.items ++ run ∷ []) }
    ensures room { vec_capacity used.new ≡ vec_capacity used.old }
    ensures one { vec_len used.new ≤ vec_len used.old + 1 }
{
    if is_free {
        put_run(slots, at as usize, run);
    } else {
        used.push_reserved(run);
    }
}
