//! Whether spans in pieces have all pages of a run, and whether they have none.

ghost use Rattle.std.specs.Prelude.{◌≡◌, ◌+◌, ◌<◌, ◌≤◌, ◌↔◌, length, IsTrue};
ghost use Rattle.span_store.specs.Order.{HaveRun, InOrder, LackRun};
ghost use Rattle.span_store.specs.Pieces.{AreWithinLimit, spans_in};

use crate::piece::Piece;
use crate::place::{after, last_begun, span_at};
use page_port::Span;

/// Are the `pages` pages from `first` on pages of these spans? It looks at the spans that have
/// them.
pub fn has_run<S: Span>(pieces: &[Piece<S>], first: u32, pages: u32) -> bool
    requires filled { AreWithinLimit pieces.now }
    requires order { InOrder 0 (spans_in pieces.now) }
    ensures { IsTrue result ↔ HaveRun (spans_in pieces.now) first pages }
{
    let Some(mut at) = last_begun(pieces, first as u64) else {
        return pages == 0;
    };
    let end = first as u64 + pages as u64;
    let mut page = first as u64;
    while page < end {
        if at.piece >= pieces.len() {
            return false;
        }
        let span = span_at(pieces, at);
        if page < span.first() as u64 {
            return false;
        }
        let next = span.first() as u64 + span.pages() as u64;
        if next <= page {
            return false;
        }
        page = next;
        at = after(pieces, at);
    }
    true
}

/// Is none of the `pages` pages from `first` on a page of these spans? It looks at the last span
/// that begins before the end of the run.
pub fn lacks_run<S: Span>(pieces: &[Piece<S>], first: u32, pages: u32) -> bool
    requires filled { AreWithinLimit pieces.now }
    requires order { InOrder 0 (spans_in pieces.now) }
    ensures { IsTrue result ↔ LackRun (spans_in pieces.now) first pages }
{
    if pages == 0 {
        return true;
    }
    let Some(begun) = last_begun(pieces, first as u64 + (pages as u64 - 1)) else {
        return true;
    };
    let last = span_at(pieces, begun);
    last.first() + last.pages() <= first
}
