//! Places among spans in pieces: the last span that begins at a page or before it, found by
//! halving, and the spans beside one.

ghost use Rattle.std.specs.Prelude.{◌≡◌, ◌+◌, ◌-◌, ◌<◌, ◌≤◌, length, slice_index_or};
ghost use Rattle.std.specs.Prelude.{IfSome, IfNone};
ghost use Rattle.span_store.specs.Held.{span_of, spans_of};
ghost use Rattle.span_store.specs.Order.{IsRank, no_span};
ghost use Rattle.span_store.specs.Pieces.{AreWithinLimit, IsAt, IsAtOrEnd, IsBefore, IsFirstFrom};
ghost use Rattle.span_store.specs.Pieces.{IsLastBegun, IsPieceOf, rank_of, spans_in};

use crate::piece::Piece;
use page_port::Span;

/// A place among spans in pieces: a piece, and a span in it.
#[derive(Clone, Copy)]
pub struct Place {
    pub piece: usize,
    pub index: usize,
}

/// How many of the spans begin at this page or before it. It looks at about the logarithm of their
/// number.
pub fn place_of<S: Span>(spans: &[S], page: u64) -> usize
    ensures { IsRank (spans_of S.start S.contents spans.now) page result }
{
    let mut low = 0;
    let mut high = spans.len();
    while low < high {
        let middle = low + (high - low) / 2;
        if spans[middle].first() as u64 <= page {
            low = middle + 1;
        } else {
            high = middle;
        }
    }
    low
}

/// The piece that a page belongs to. It looks at about the logarithm of their number.
pub fn piece_of<S: Span>(pieces: &[Piece<S>], page: u64) -> usize
    requires some { 1 ≤ length pieces.now }
    requires filled { AreWithinLimit pieces.now }
    ensures { IsPieceOf pieces.now page result }
{
    let mut low = 0;
    let mut high = pieces.len();
    while low + 1 < high {
        let middle = low + (high - low) / 2;
        if pieces[middle].first() as u64 <= page {
            low = middle;
        } else {
            high = middle;
        }
    }
    low
}

/// The last span that begins at a page or before it. `None` comes exactly where none does.
pub fn last_begun<S: Span>(pieces: &[Piece<S>], page: u64) -> Option<Place>
    requires { AreWithinLimit pieces.now }
    ensures found { IfSome result (λ at. IsLastBegun pieces.now page at.piece at.index) }
    ensures none { IfNone result (IsRank (spans_in pieces.now) page 0) }
{
    if pieces.is_empty() {
        return None;
    }
    let piece = piece_of(pieces, page);
    let begun = pieces[piece].rank(page);
    if begun == 0 {
        return None;
    }
    Some(Place {
        piece,
        index: begun - 1,
    })
}

/// The span at a place.
pub fn span_at<S: Span>(pieces: &[Piece<S>], at: Place) -> &S
    requires { IsAt pieces.now at.piece at.index }
    ensures { span_of S.start S.contents result.now
        ≡ slice_index_or (spans_in pieces.now) (rank_of pieces.now at.piece at.index) no_span }
{
    pieces[at.piece].span(at.index)
}

/// The place behind one: that of the next span, or no piece's.
pub fn after<S: Span>(pieces: &[Piece<S>], at: Place) -> Place
    requires filled { AreWithinLimit pieces.now }
    requires at { IsAt pieces.now at.piece at.index }
    ensures at { IsAtOrEnd pieces.now result.piece result.index }
    ensures rank { rank_of pieces.now result.piece result.index
        ≡ rank_of pieces.now at.piece at.index + 1 }
{
    let index = at.index + 1;
    if index < pieces[at.piece].len() {
        return Place {
            piece: at.piece,
            index,
        };
    }
    Place {
        piece: at.piece + 1,
        index: 0,
    }
}

/// The place of the first span that begins at a page or behind it: no piece's where none does.
pub fn first_from<S: Span>(pieces: &[Piece<S>], page: u32) -> Place
    requires { AreWithinLimit pieces.now }
    ensures { IsFirstFrom pieces.now page result.piece result.index }
{
    if page == 0 {
        return Place { piece: 0, index: 0 };
    }
    match last_begun(pieces, page as u64 - 1) {
        Some(begun) => after(pieces, begun),
        None => Place { piece: 0, index: 0 },
    }
}

/// The place of the span before one. `None` comes exactly where there is none.
pub fn before<S: Span>(pieces: &[Piece<S>], at: Place) -> Option<Place>
    requires filled { AreWithinLimit pieces.now }
    requires at { IsAt pieces.now at.piece at.index }
    ensures some { IfSome result (λ front.
        IsBefore pieces.now front.piece front.index at.piece at.index) }
    ensures none { IfNone result (rank_of pieces.now at.piece at.index ≡ 0) }
{
    if at.index > 0 {
        return Some(Place {
            piece: at.piece,
            index: at.index - 1,
        });
    }
    if at.piece == 0 {
        return None;
    }
    let piece = at.piece - 1;
    Some(Place {
        piece,
        index: pieces[piece].len() - 1,
    })
}
