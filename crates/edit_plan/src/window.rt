//! The window of an edit: where it begins and ends, and whether a plan can be made from it.

ghost use Rattle.std.specs.Prelude.{◌≡◌, ◌<◌, ◌≤◌, ◌^◌, ◌↔◌, IsTrue, SomeIff};
ghost use Rattle.std.specs.List.{AllByRecursion};
ghost use Rattle.tree_model.specs.Range.{pairs_of, start_of};
ghost use Rattle.tree_model.specs.Tree.{page_count};
ghost use Rattle.window_laws.specs.Searches.{end_of};
ghost use Rattle.edit_plan.specs.Planned.{CanPlan, IsEntry};

use page_port::Geometry;
use tree_model::{Pair, Placed};

/// Whether `plan` can be called with these: a test of segments that come from a device which may
/// give others than were written.
pub fn can_plan(geometry: &Geometry, window: &[Placed], at: u64, cut: u64, given: u64) -> bool
    ensures { IsTrue result ↔ CanPlan geometry.now window.now at cut given }
{
    let Some(last) = end_of(window) else {
        return false;
    };
    let Some(end) = at.checked_add(cut) else {
        return false;
    };
    if at < start_of(window) || end > last || given >= 1 << 63 {
        return false;
    }
    are_entries(geometry, window)
}

/// The place at which segments begin.
pub fn start_of(window: &[Placed]) -> u64
    ensures { result ≡ start_of window.now }
{
    match window {
        [] => 0,
        [segment, ..] => segment.start,
    }
}

/// The place at which segments end that stand one after the other, where 64 bits have room for it.
fn end_of(window: &[Placed]) -> Option<u64>
    ensures { SomeIff result (end_of window.now < 2 ^ 64) (end_of window.now) }
{
    let mut end = start_of(window);
    for segment in window {
        end = end.checked_add(segment.pair.bytes)?;
    }
    Some(end)
}

/// Whether each segment is one that a store can have.
fn are_entries(geometry: &Geometry, window: &[Placed]) -> bool
    ensures { IsTrue result ↔ AllByRecursion (IsEntry geometry.now) (pairs_of window.now) }
{
    for segment in window {
        if !is_entry(geometry, segment.pair) {
            return false;
        }
    }
    true
}

/// Whether a segment has a byte, at most those of a space, and lies on pages of the store.
fn is_entry(geometry: &Geometry, pair: Pair) -> bool
    ensures { IsTrue result ↔ IsEntry geometry.now pair }
{
    let most = geometry.space_pages() as u64 * geometry.page() as u64;
    if pair.bytes == 0 || pair.bytes > most {
        return false;
    }
    pair.page as u64 + page_count(geometry.page(), pair.bytes) <= geometry.pages() as u64
}

/// The pages that so many bytes fill, where one has `page` bytes.
pub fn page_count(page: u32, bytes: u64) -> u64
    requires some { 0 < page }
    requires few { bytes < 2 ^ 63 }
    ensures { result ≡ page_count page bytes }
{
    (bytes + (page as u64 - 1)) / page as u64
}
