//! Two spans in pieces that meet at a page: how they are found and made one.

ghost use Rattle.std.specs.Prelude.{◌≡◌, ℕ, ◌+◌, ◌<◌, ◌≤◌, false, length, slice_index_or};
ghost use Rattle.std.specs.Prelude.{vec_capacity, IfSome, IfNone};
ghost use Rattle.span_store.specs.Held.{is_border_in};
ghost use Rattle.span_store.specs.Order.{InOrder, first_at, no_span, with_join};
ghost use Rattle.span_store.specs.Pieces.{AreEnough, AreWithinLimit, IsAt, IsBefore, IsBorderAt};
ghost use Rattle.span_store.specs.Pieces.{IsStocked, load, rank_of, spans_in};

use crate::filing::take_out;
use crate::piece::Piece;
use crate::place::{Place, before, last_begun, span_at};
use page_port::Span;

/// Two spans, the first of which ends where the second begins.
#[derive(Clone, Copy)]
pub struct Border {
    pub front: Place,
    pub next: Place,
}

/// The two spans that meet at a page. `None` comes exactly where no two do.
pub fn border_at<S: Span>(pieces: &[Piece<S>], page: u32) -> Option<Border>
    requires filled { AreWithinLimit pieces.now }
    requires order { InOrder 0 (spans_in pieces.now) }
    ensures found { IfSome result (λ border. IsBorderAt pieces.now page
        border.front.piece border.front.index border.next.piece border.next.index) }
    ensures none { IfNone result (is_border_in (spans_in pieces.now) page ≡ false) }
{
    let Some(next) = last_begun(pieces, page as u64) else {
        return None;
    };
    let Some(front) = before(pieces, next) else {
        return None;
    };
    let begun = span_at(pieces, next).first();
    if begun != page {
        return None;
    }
    let span = span_at(pieces, front);
    let end = span.first() + span.pages();
    if end != page {
        return None;
    }
    Some(Border { front, next })
}

/// Makes two spans that meet one. It takes no memory.
pub fn join_in<S: Span>(pieces: &mut Vec<Piece<S>>, spare: &mut Vec<Piece<S>>, at: Border)
    requires row { IsStocked pieces.old.items spare.old.items
        (vec_capacity pieces.old) (vec_capacity spare.old) }
    requires next { IsAt pieces.old.items at.next.piece at.next.index }
    requires before { IsBefore pieces.old.items
        at.front.piece at.front.index at.next.piece at.next.index }
    requires meets { first_at (spans_in pieces.old.items)
        (rank_of pieces.old.items at.next.piece at.next.index)
        ≡ first_at (spans_in pieces.old.items)
        (rank_of pieces.old.items at.front.piece at.front.index)
        + length (slice_index_or (spans_in pieces.old.items)
        (rank_of pieces.old.items at.front.piece at.front.index) no_span).pages }
    ensures row { IsStocked pieces.new.items spare.new.items
        (vec_capacity pieces.new) (vec_capacity spare.new) }
    ensures spans { spans_in pieces.new.items ≡ with_join (spans_in pieces.old.items)
        (rank_of pieces.old.items at.front.piece at.front.index) }
    ensures room { (n : ℕ)
        → AreEnough (length spare.old.items) (load pieces.old.items) n
        → AreEnough (length spare.new.items) (load pieces.new.items) n }
{
    let next = take_out(pieces, spare, at.next);
    pieces[at.front.piece].join(at.front.index, next);
}
