//! One span more, one cut, and one less, among spans in pieces.

ghost use Rattle.std.specs.Prelude.{◌≡◌, ℕ, ◌+◌, ◌≤◌, ◌++◌, true, false, length, take, drop};
ghost use Rattle.std.specs.Prelude.{slice_index_or, vec_capacity, is_some};
ghost use Rattle.span_store.specs.Held.{begins_in, page_in, span_of};
ghost use Rattle.span_store.specs.Order.{InOrder, no_span};
ghost use Rattle.span_store.specs.Pieces.{AreEnough, IsAt, IsCutIn, IsInserted, IsSameUpTo};
ghost use Rattle.span_store.specs.Pieces.{IsStocked, load, rank_of, spans_in};

use crate::piece::Piece;
use crate::place::Place;
use crate::row::piece_with_room;
use page_port::Span;

/// Puts a span into its place. It takes no memory: it may take a spare piece.
pub fn put_in<S: Span>(pieces: &mut Vec<Piece<S>>, spare: &mut Vec<Piece<S>>, span: S)
    requires row { IsStocked pieces.old.items spare.old.items
        (vec_capacity pieces.old) (vec_capacity spare.old) }
    requires some { 1 ≤ length spare.old.items }
    ensures row { IsStocked pieces.new.items spare.new.items
        (vec_capacity pieces.new) (vec_capacity spare.new) }
    ensures spans { IsInserted (span_of S.start S.contents span)
        (spans_in pieces.old.items) (spans_in pieces.new.items) }
    ensures room { (n : ℕ)
        → AreEnough (length spare.old.items) (load pieces.old.items) (n + 1)
        → AreEnough (length spare.new.items) (load pieces.new.items) n }
{
    if pieces.is_empty() {
        return put_first(pieces, spare, span);
    }
    let page = span.first() as u64;
    let piece = piece_with_room(pieces, spare, page);
    let index = pieces[piece].rank(page);
    pieces[piece].add(index, span);
}

/// Makes a piece of a first span.
fn put_first<S: Span>(pieces: &mut Vec<Piece<S>>, spare: &mut Vec<Piece<S>>, span: S)
    requires row { IsStocked pieces.old.items spare.old.items
        (vec_capacity pieces.old) (vec_capacity spare.old) }
    requires none { length pieces.old.items ≡ 0 }
    requires some { 1 ≤ length spare.old.items }
    ensures row { IsStocked pieces.new.items spare.new.items
        (vec_capacity pieces.new) (vec_capacity spare.new) }
    ensures spans { IsInserted (span_of S.start S.contents span)
        (spans_in pieces.old.items) (spans_in pieces.new.items) }
    ensures room { (n : ℕ)
        → AreEnough (length spare.old.items) (load pieces.old.items) (n + 1)
        → AreEnough (length spare.new.items) (load pieces.new.items) n }
{
    let Some(mut piece) = spare.pop() else {
        unreachable!()
    };
    piece.add(0, span);
    pieces.push_reserved(piece);
}

/// Cuts the span that has a page, and begins before it, at the page. It takes no memory: it may
/// take a spare piece.
pub fn cut_in<S: Span>(pieces: &mut Vec<Piece<S>>, spare: &mut Vec<Piece<S>>, page: u32)
    requires row { IsStocked pieces.old.items spare.old.items
        (vec_capacity pieces.old) (vec_capacity spare.old) }
    requires order { InOrder 0 (spans_in pieces.old.items) }
    requires some { 1 ≤ length spare.old.items }
    requires held { is_some (page_in (spans_in pieces.old.items) page) ≡ true }
    requires inner { begins_in (spans_in pieces.old.items) page ≡ false }
    ensures row { IsStocked pieces.new.items spare.new.items
        (vec_capacity pieces.new) (vec_capacity spare.new) }
    ensures spans { IsCutIn page (spans_in pieces.old.items) (spans_in pieces.new.items) }
    ensures room { (n : ℕ)
        → AreEnough (length spare.old.items) (load pieces.old.items) (n + 1)
        → AreEnough (length spare.new.items) (load pieces.new.items) n }
{
    let piece = piece_with_room(pieces, spare, page as u64);
    let index = pieces[piece].rank(page as u64) - 1;
    let before = page - pieces[piece].span(index).first();
    pieces[piece].cut(index, before);
}

/// Takes a span out; a piece that has none left is spare again. It takes no memory.
pub fn take_out<S: Span>(pieces: &mut Vec<Piece<S>>, spare: &mut Vec<Piece<S>>, at: Place) -> S
    requires row { IsStocked pieces.old.items spare.old.items
        (vec_capacity pieces.old) (vec_capacity spare.old) }
    requires at { IsAt pieces.old.items at.piece at.index }
    ensures row { IsStocked pieces.new.items spare.new.items
        (vec_capacity pieces.new) (vec_capacity spare.new) }
    ensures span { span_of S.start S.contents result ≡ slice_index_or (spans_in pieces.old.items)
        (rank_of pieces.old.items at.piece at.index) no_span }
    ensures spans { spans_in pieces.new.items
        ≡ take (rank_of pieces.old.items at.piece at.index) (spans_in pieces.old.items)
        ++ drop (rank_of pieces.old.items at.piece at.index + 1) (spans_in pieces.old.items) }
    ensures before { IsSameUpTo at.piece at.index pieces.old.items pieces.new.items }
    ensures room { (n : ℕ)
        → AreEnough (length spare.old.items) (load pieces.old.items) n
        → AreEnough (length spare.new.items) (load pieces.new.items) n }
{
    let span = pieces[at.piece].remove(at.index);
    if pieces[at.piece].len() > 0 {
        return span;
    }
    let empty = pieces.remove(at.piece);
    spare.push_reserved(empty);
    span
}
