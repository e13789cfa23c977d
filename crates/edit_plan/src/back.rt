//! What is kept behind a place: the bytes up to the next border of a page, what is left of the
//! segment that the place lies inside, and the segment that begins at it or behind it.

ghost use Rattle.std.specs.Prelude.{◌≡◌, ◌<◌, None, take, drop, option_to_list};
ghost use Rattle.std.specs.List.{AllByRecursion};
ghost use Rattle.tree_model.specs.Range.{pairs_of};
ghost use Rattle.tree_model.specs.Tree.{page_count};
ghost use Rattle.layout_model.specs.Parts.{without_pages};
ghost use Rattle.edit_parts.specs.declared.piece.Piece.TheVariants.{Given};
ghost use Rattle.edit_plan.specs.Planned.{IsEntry};
ghost use Rattle.edit_plan.specs.Spots.{IsBack, LiesInside, head_in};

use crate::spot::spot_of;
use crate::window::page_count;
use edit_parts::Piece;
use page_port::Geometry;
use tree_model::{Pair, Placed};

/// What is kept behind a place.
#[derive(Clone, Copy)]
pub struct Back {
    /// The bytes that are written anew: those up to the next border of a page.
    pub head: Piece,
    /// The rest of the segment that the place lies inside.
    pub right: Option<Pair>,
    /// The first segment that begins at the place or behind it.
    pub after: Option<Pair>,
}

/// What is kept behind a place, counted from the start of the first segment.
pub fn back_of(geometry: &Geometry, window: &[Placed], place: u64) -> Back
    requires { AllByRecursion (IsEntry geometry.now) (pairs_of window.now) }
    ensures { IsBack geometry.now.page place (pairs_of window.now) result }
{
    let spot = spot_of(window, place);
    if spot.ended >= window.len() {
        return whole(None);
    }
    let pair = window[spot.ended].pair;
    if spot.inside == 0 {
        return whole(Some(pair));
    }
    rest(geometry, pair, spot.inside, pair_at(window, spot.ended + 1))
}

/// What is kept behind a border of segments: the next one as it is.
fn whole(after: Option<Pair>) -> Back
    ensures { result ≡ record { head = Given 0 0; right = None; after = after } }
{
    Back {
        head: Piece::Given { from: 0, bytes: 0 },
        right: None,
        after,
    }
}

/// What is kept behind a place inside a segment: of the segment, and the one behind it.
fn rest(geometry: &Geometry, pair: Pair, inside: u64, after: Option<Pair>) -> Back
    requires entry { IsEntry geometry.now pair }
    requires within { inside < pair.bytes }
    ensures head { result.head ≡ head_in geometry.now.page inside pair }
    ensures right { option_to_list result.right
        ≡ without_pages geometry.now.page (page_count geometry.now.page inside) pair }
    ensures after { result.after ≡ after }
{
    let page = geometry.page();
    Back {
        head: head(pair, page, inside),
        right: right(pair, page, inside),
        after,
    }
}

/// The segment of this number, where there is one.
fn pair_at(window: &[Placed], number: usize) -> Option<Pair>
    ensures { option_to_list result ≡ take 1 (drop number (pairs_of window.now)) }
{
    if number < window.len() {
        Some(window[number].pair)
    } else {
        None
    }
}

/// The bytes of a segment from inside it up to the next border of a page or its end.
fn head(pair: Pair, page: u32, inside: u64) -> Piece
    requires { LiesInside page inside pair }
    ensures { result ≡ head_in page inside pair }
{
    let border = page_count(page, inside) * page as u64;
    Piece::Old {
        page: pair.page + (inside / page as u64) as u32,
        skip: (inside % page as u64) as u32,
        bytes: border.min(pair.bytes) - inside,
    }
}

/// A segment without the pages up to the next border, where any byte is left.
fn right(pair: Pair, page: u32, inside: u64) -> Option<Pair>
    requires { LiesInside page inside pair }
    ensures { option_to_list result ≡ without_pages page (page_count page inside) pair }
{
    let pages = page_count(page, inside);
    let border = pages * page as u64;
    if border >= pair.bytes {
        return None;
    }
    Some(Pair {
        bytes: pair.bytes - border,
        page: pair.page + pages as u32,
    })
}
