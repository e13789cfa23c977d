//! Whether entries that were read can be those of the object: a test before they are used, since a
//! device may give others than were written.

ghost use Rattle.std.specs.Prelude.{◌≡◌, ◌+◌, ◌-◌, ◌<◌, ◌≤◌, ◌^◌, ◌↔◌, IsTrue, length};
ghost use Rattle.std.specs.List.{AllByRecursion};
ghost use Rattle.tree_model.specs.Range.{pairs_of, start_of};
ghost use Rattle.tree_model.specs.Tree.{bytes_of};
ghost use Rattle.layout_model.specs.Parts.{count_begun, count_ended};
ghost use Rattle.window_laws.specs.Searches.{end_of};
ghost use Rattle.content_laws.specs.Spelling.{HaveBytes};
ghost use Rattle.edit_plan.specs.Planned.{IsTight};
ghost use Rattle.object_plan.specs.Planned.{IsHeldEntry};
ghost use Rattle.object_plan.specs.Window.{IsUsable};

use edit_plan::{can_plan, page_count};
use layout_model::Change;
use page_port::{Geometry, Span};
use span_store::Holdings;
use tree_model::{Pair, Placed};

/// Whether a plan can be made from these entries of an object of `length` bytes: each is a segment
/// of the store on pages that are held, they end within the object, and none stands before or
/// behind those that the change needs.
pub fn is_usable<S: Span>(
    geometry: &Geometry,
    held: &Holdings<S>,
    length: u64,
    change: &Change,
    window: &[Placed],
) -> bool
    ensures { IsTrue result ↔ IsUsable geometry.now held.now length change.now window.now }
{
    if !can_plan(geometry, window, change.at, change.removed, change.added) {
        return false;
    }
    if !are_held(geometry, held, window) {
        return false;
    }
    let place = change.at - start_of(window);
    let bytes = bytes_of(window);
    if start_of(window) + bytes > length {
        return false;
    }
    is_tight_before(window, place) && is_tight_behind(window, bytes, place + change.removed)
}

/// The place at which segments begin.
pub fn start_of(window: &[Placed]) -> u64
    ensures { result ≡ start_of window.now }
{
    if window.is_empty() {
        0
    } else {
        window[0].start
    }
}

/// The bytes of segments together.
pub fn bytes_of(window: &[Placed]) -> u64
    requires fits { bytes_of (pairs_of window.now) < 2 ^ 64 }
    ensures { result ≡ bytes_of (pairs_of window.now) }
{
    let mut bytes = 0;
    for segment in window {
        bytes += segment.pair.bytes;
    }
    bytes
}

/// Whether at most one of the segments ends at a place or before it.
fn is_tight_before(window: &[Placed], place: u64) -> bool
    ensures { IsTrue result ↔ (count_ended place (pairs_of window.now) ≤ 1) }
{
    if window.len() < 2 || window[0].pair.bytes > place {
        return true;
    }
    window[1].pair.bytes > place - window[0].pair.bytes
}

/// Whether at most one of segments of so many bytes begins at a place or behind it.
fn is_tight_behind(window: &[Placed], bytes: u64, place: u64) -> bool
    requires bytes { bytes ≡ bytes_of (pairs_of window.now) }
    ensures { IsTrue result
        ↔ (length (pairs_of window.now) ≤ count_begun place (pairs_of window.now) + 1) }
{
    let count = window.len();
    if count < 2 {
        return true;
    }
    bytes - window[count - 1].pair.bytes - window[count - 2].pair.bytes < place
}

/// Whether each segment is one of the store, on pages that are held.
fn are_held<S: Span>(geometry: &Geometry, held: &Holdings<S>, window: &[Placed]) -> bool
    ensures { IsTrue result ↔ AllByRecursion (IsHeldEntry geometry.now held.now)
        (pairs_of window.now) }
{
    for segment in window {
        if !is_held(geometry, held, segment.pair) {
            return false;
        }
    }
    true
}

/// Whether a segment has a byte, at most those of a space, and lies on held pages of one space.
fn is_held<S: Span>(geometry: &Geometry, held: &Holdings<S>, pair: Pair) -> bool
    ensures { IsTrue result ↔ IsHeldEntry geometry.now held.now pair }
{
    let page = geometry.page();
    if pair.bytes == 0 || pair.bytes > geometry.space_pages() as u64 * page as u64 {
        return false;
    }
    let pages = page_count(page, pair.bytes) as u32;
    let Some((_, at)) = geometry.place(pair.page) else {
        return false;
    };
    if at + pages > geometry.space_pages() {
        return false;
    }
    held.holds(pair.page, pages)
}
