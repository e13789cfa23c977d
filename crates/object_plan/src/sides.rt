//! The entries on the two sides of a window that stay as they are.

ghost use Rattle.std.specs.Prelude.{◌≡◌, ◌+◌, ◌<◌, ◌≤◌, ◌^◌, ◌-◌, length, map, take, drop, nat_lt, IfOk};
ghost use Rattle.tree_model.specs.Range.{pairs_of, start_of};
ghost use Rattle.tree_model.specs.Tree.{bytes_of};
ghost use Rattle.layout_model.specs.Plan.{begins_kept, ends_kept, is_kept};
ghost use Rattle.window_laws.specs.Searches.{end_of};
ghost use Rattle.moment_model.specs.Moment.{count_true};
ghost use Rattle.edit_parts.specs.Parts.{layout_part};
ghost use Rattle.object_plan.specs.Sides.{count_sides, sides_of, trimmed};
ghost use Rattle.layout_model.specs.Parts.{count_begun, count_ended};

use crate::usable::{bytes_of, start_of};
use edit_parts::Part;
use std::alloc::{AllocError, Global};
use tree_model::{Pair, Placed};

/// Whether the entry before the place stays, and the one behind the cut.
#[derive(Clone, Copy)]
pub struct Sides {
    /// The one before the place.
    pub front: bool,
    /// The one behind the cut.
    pub back: bool,
}

/// Which entries at the sides of a window stay, by the parts that its plan has once they are merged.
pub fn sides_of(window: &[Placed], at: u64, cut: u64, parts: &[Part]) -> Sides
    requires first { start_of window.now ≤ at }
    requires last { at + cut ≤ end_of window.now }
    requires fits { end_of window.now < 2 ^ 64 }
    ensures { result ≡ sides_of window.now at cut (map layout_part parts.now) }
{
    let place = at - start_of(window);
    Sides {
        front: has_before(window, place) && begins_kept(parts),
        back: has_after(window, place + cut) && ends_kept(parts),
    }
}

/// Whether a segment ends at a place or before it.
fn has_before(window: &[Placed], place: u64) -> bool
    ensures { result ≡ nat_lt 0 (count_ended place (pairs_of window.now)) }
{
    !window.is_empty() && window[0].pair.bytes <= place
}

/// Whether a segment begins at a place or behind it.
fn has_after(window: &[Placed], place: u64) -> bool
    requires fits { bytes_of (pairs_of window.now) < 2 ^ 64 }
    ensures { result ≡ nat_lt (count_begun place (pairs_of window.now))
        (length (pairs_of window.now)) }
{
    let count = window.len();
    if count == 0 {
        return false;
    }
    bytes_of(window) - window[count - 1].pair.bytes >= place
}

/// Whether the first of the parts is one that stays.
fn begins_kept(parts: &[Part]) -> bool
    ensures { result ≡ begins_kept (map layout_part parts.now) }
{
    if parts.is_empty() {
        return false;
    }
    is_kept(&parts[0])
}

/// Whether the last of the parts is one that stays.
fn ends_kept(parts: &[Part]) -> bool
    ensures { result ≡ ends_kept (map layout_part parts.now) }
{
    let count = parts.len();
    if count == 0 {
        return false;
    }
    is_kept(&parts[count - 1])
}

/// Whether a part is one that stays.
fn is_kept(part: &Part) -> bool
    ensures { result ≡ is_kept (layout_part part.now) }
{
    match part {
        Part::Keep(_) => true,
        Part::Make(_) => false,
    }
}

/// Takes the parts of the entries that stay out, where there are such parts.
pub fn trim(parts: &mut Vec<Part>, sides: Sides)
    requires { count_sides sides ≤ length parts.old.items }
    ensures { parts.new.items ≡ trimmed sides parts.old.items }
{
    without_last(parts, sides.back);
    without_first(parts, sides.front);
}

/// Takes the last part out, where it is to go.
fn without_last(parts: &mut Vec<Part>, goes: bool)
    ensures { parts.new.items
        ≡ take (length parts.old.items - count_true goes) parts.old.items }
{
    if goes {
        let count = parts.len();
        parts.truncate(count.saturating_sub(1));
    }
}

/// Takes the first part out, where it is to go.
fn without_first(parts: &mut Vec<Part>, goes: bool)
    requires { count_true goes ≤ length parts.old.items }
    ensures { parts.new.items ≡ drop (count_true goes) parts.old.items }
{
    if goes {
        let _ = parts.remove(0);
    }
}

/// The pairs of the segments between those that stay.
pub fn pairs_between(
    alloc: Global,
    window: &[Placed],
    sides: Sides,
) -> Result<Vec<Pair>, AllocError>
    requires { count_sides sides ≤ length window.now }
    ensures { IfOk result (λ pairs. pairs.items ≡ trimmed sides (pairs_of window.now)) }
{
    let first = one_where(sides.front);
    let end = window.len() - one_where(sides.back);
    pairs_in(alloc, &window[first..end])
}

/// One where it is so, and else none.
fn one_where(so: bool) -> usize
    ensures { result ≡ count_true so }
{
    if so { 1 } else { 0 }
}

/// The pairs of segments.
fn pairs_in(alloc: Global, window: &[Placed]) -> Result<Vec<Pair>, AllocError>
    ensures { IfOk result (λ pairs. pairs.items ≡ pairs_of window.now) }
{
    let mut pairs = Vec::with_capacity(alloc, window.len())?;
    for segment in window {
        pairs.push(segment.pair)?;
    }
    Ok(pairs)
}
