//! Holdings: the spans that an object owns.

ghost use Rattle.std.specs.Prelude.{◌≡◌, ℕ, ◌+◌, ◌/◌, ◌<◌, ◌≤◌, ◌↔◌, [], length, true, false};
ghost use Rattle.std.specs.Prelude.{IsTrue, IsOk, IsErr, IsNone, OnOk, OnErr, IfSome, IfNone};
ghost use Rattle.tree_model.specs.Content.{run_bytes};
ghost use Rattle.fault_count.specs.Counts.{HasCause, Reads, Writes, after_read, after_write};
ghost use Rattle.page_port.specs.Pages.{IsSized, IsWhole};
ghost use Rattle.span_store.specs.Held.{AllSized, HoldsRun, IsEmpty, IsEnd, LacksRun, begins};
ghost use Rattle.span_store.specs.Held.{bytes_on, has, is_border, span_of};
ghost use Rattle.span_store.specs.Calls.{IsAdded, IsCutAt, IsJoined, IsOverwritten, IsRemoved};
ghost use Rattle.span_store.specs.Calls.{IsSpanFrom};

use crate::border::{border_at, join_in};
use crate::filing::{cut_in, put_in, take_out};
use crate::piece::{HALF, Piece};
use crate::place::{Place, first_from, last_begun, span_at};
use crate::read::read_spans;
use crate::row::prepare;
use crate::run::{has_run, lacks_run};
use crate::write::write_spans;
use page_port::{DeviceFault, Port, Span};
use std::alloc::{AllocError, Global};
use std::marker::Model;

/// Spans that no page is in twice, found by their first pages.
///
/// They are kept in the order of their pages, in pieces of at most 128 spans. A span is found by
/// halving, among the pieces and within one. A change moves records of one piece, and no page, so
/// its cost doesn't grow with the number of spans. Only where a full piece is split by a spare one,
/// which `reserve` made, or one has no span left, the records of the pieces behind it are moved.
#[derive(Drop)]
pub struct Holdings<S: Span> {
    alloc: Global,
    pieces: Vec<Piece<S>>,
    spare: Vec<Piece<S>>,
    // For how many more spans there is room.
    free: usize,
}

impl<S: Span> Model for Holdings<S> {
    ghost use Rattle.std.specs.Prelude.{◌+◌, length, vec_capacity};
    ghost use Rattle.span_store.specs.Held.{Held};
    ghost use Rattle.span_store.specs.Pieces.{IsFiled, spans_in};

    ghost Value = { Held };

    ghost view = { λ h. record {
      spans = spans_in h.pieces.items;
      room = length (spans_in h.pieces.items) + h.free;
    } };

    ghost invariant = { λ h. IsFiled h.pieces.items h.spare.items
        (vec_capacity h.pieces) (vec_capacity h.spare) h.free };
}

impl<S: Span> Holdings<S> {
    /// Nothing is held.
    pub fn new(alloc: Global) -> Holdings<S>
        ensures nothing { result.spans ≡ [] }
    {
        Holdings {
            alloc,
            pieces: Vec::new(alloc),
            spare: Vec::new(alloc),
            free: 0,
        }
    }

    /// Makes room for `n` more spans: it takes the memory of `n` pieces at most, and of one for
    /// every 64 spans beside one for each piece where these are fewer.
    ///
    /// # Errors
    /// There was no memory: nothing changed.
    pub fn reserve(&mut self, n: usize) -> Result<(), AllocError>
        ensures room { OnOk result (length self.new.spans + n ≤ self.new.room) }
        ensures spans { self.new.spans ≡ self.old.spans }
        ensures kept { self.old.room ≤ self.new.room }
        ensures enough { length self.old.spans + n ≤ self.old.room → IsOk result }
        ensures err { OnErr result (self.new ≡ self.old) }
    {
        if n <= self.free {
            return Ok(());
        }
        // Each span takes a spare piece at most; and all take one for every 64 of them, and one for
        // each piece that there is.
        let wanted = n.min(n / HALF + 2 + self.pieces.len());
        prepare(&mut self.pieces, &mut self.spare, self.alloc, wanted)?;
        self.free = n;
        Ok(())
    }

    /// Holds a span more. It takes no memory: `reserve` made the room. It moves the records of the
    /// spans behind this one in its piece.
    pub fn add(&mut self, span: S)
        requires room { length self.old.spans < self.old.room }
        requires apart { LacksRun self.old (S.start span) (length (S.contents span)) }
        ensures added { IsAdded (span_of S.start S.contents span) self.old self.new }
        ensures sized { (size : ℕ) → IsSized S.tells size (S.contents span)
            → AllSized S.tells size self.old → AllSized S.tells size self.new }
    {
        // That a span has a page at least keeps the order of the spans.
        let pages = span.pages();
        prove!(pages > 0);
        self.free -= 1;
        put_in(&mut self.pieces, &mut self.spare, span);
    }

    /// Cuts the span that has this page, so that one begins there. Where one begins there already,
    /// or there is room for one more, it takes no memory. A cut moves the records of the spans
    /// behind the page in its piece.
    ///
    /// # Errors
    /// There was no memory: nothing changed.
    pub fn cut_at(&mut self, page: u32) -> Result<(), AllocError>
        requires { IsTrue (has self.old page) }
        ensures cut { OnOk result (IsCutAt page self.old self.new) }
        ensures sized { (size : ℕ) → AllSized S.tells size self.old
            → AllSized S.tells size self.new }
        ensures room { self.old.room ≤ self.new.room }
        ensures already { IsTrue (begins self.old page) → IsOk result }
        ensures enough { length self.old.spans < self.old.room → IsOk result }
        ensures err { OnErr result (self.new ≡ self.old) }
    {
        let Some(at) = last_begun(self.pieces.as_slice(), page as u64) else {
            unreachable!()
        };
        if span_at(self.pieces.as_slice(), at).first() == page {
            return Ok(());
        }
        self.reserve(1)?;
        self.free -= 1;
        cut_in(&mut self.pieces, &mut self.spare, page);
        Ok(())
    }

    /// Makes the span that ends before this page and the one that begins at it one, where there are
    /// both: the reverse of a cut. It takes no memory, and moves the records of the spans behind
    /// the page in its piece.
    pub fn join_at(&mut self, page: u32)
        ensures joined { IsTrue (is_border self.old page) → IsJoined page self.old self.new }
        ensures unchanged { is_border self.old page ≡ false → self.new ≡ self.old }
        ensures sized { (size : ℕ) → AllSized S.tells size self.old
            → AllSized S.tells size self.new }
    {
        let Some(border) = border_at(self.pieces.as_slice(), page) else {
            return;
        };
        join_in(&mut self.pieces, &mut self.spare, border);
    }

    /// Takes out the span that begins at this page. It takes no memory, and moves the records of
    /// the spans behind this one in its piece.
    pub fn remove(&mut self, first: u32) -> S
        requires { IsTrue (begins self.old first) }
        ensures first { S.start result ≡ first }
        ensures removed { IsRemoved (span_of S.start S.contents result) self.old self.new }
        ensures sized { (size : ℕ) → AllSized S.tells size self.old
            → IsSized S.tells size (S.contents result) × AllSized S.tells size self.new }
    {
        let Some(at) = last_begun(self.pieces.as_slice(), first as u64) else {
            unreachable!()
        };
        take_out(&mut self.pieces, &mut self.spare, at)
    }

    /// Takes out some span. `None` comes exactly where no page is held. It takes no memory, and
    /// moves no record.
    pub fn take_any(&mut self) -> Option<S>
        ensures removed { IfSome result (λ span.
            IsRemoved (span_of S.start S.contents span) self.old self.new) }
        ensures sized { IfSome result (λ span. (size : ℕ) → AllSized S.tells size self.old
            → IsSized S.tells size (S.contents span) × AllSized S.tells size self.new) }
        ensures none { IsNone result ↔ IsEmpty self.old }
        ensures nothing { IfNone result (self.old.spans ≡ []) }
        ensures unchanged { IfNone result (self.new ≡ self.old) }
    {
        if self.pieces.is_empty() {
            return None;
        }
        let piece = self.pieces.len() - 1;
        let index = self.pieces[piece].len() - 1;
        let last = Place { piece, index };
        Some(take_out(&mut self.pieces, &mut self.spare, last))
    }

    /// One more than the number of the last page that is held, 0 where none is. It looks at one
    /// span.
    pub fn end(&self) -> u32
        ensures { IsEnd self.now result }
    {
        match self.pieces.last() {
            Some(piece) => piece.end(),
            None => 0,
        }
    }

    /// The first span that begins at a page or behind it. `None` comes exactly where none does. It
    /// is found by halving.
    pub fn span_from(&self, page: u32) -> Option<&S>
        ensures found { IfSome result (λ span.
            IsSpanFrom page (span_of S.start S.contents span.now) self.now) }
        ensures none { IfNone result ((q : ℕ) → page ≤ q → begins self.now q ≡ false) }
    {
        let pieces = self.pieces.as_slice();
        let at = first_from(pieces, page);
        if at.piece >= pieces.len() {
            return None;
        }
        Some(span_at(pieces, at))
    }

    /// Are the `pages` pages from `first` on held?
    pub fn holds(&self, first: u32, pages: u32) -> bool
        ensures { IsTrue result ↔ HoldsRun self.now first pages }
    {
        has_run(self.pieces.as_slice(), first, pages)
    }

    /// Is none of the `pages` pages from `first` on held? It looks at one span, found by halving.
    pub fn lacks(&self, first: u32, pages: u32) -> bool
        ensures { IsTrue result ↔ LacksRun self.now first pages }
    {
        lacks_run(self.pieces.as_slice(), first, pages)
    }

    /// Reads the pages from `first` on into `out`, by one call of the device for each span that has
    /// some of them.
    ///
    /// # Errors
    /// The device failed: the port's count of faults rose.
    pub fn read_run<P: Port<S = S>>(
        &self,
        port: &mut P,
        first: u32,
        out: &mut [u8],
    ) -> Result<(), DeviceFault>
        requires whole { IsWhole (P.meter port.old).page (length out.old) }
        requires held { HoldsRun self.now first (length out.old / (P.meter port.old).page) }
        requires sized { AllSized S.tells (P.meter port.old).page self.now }
        ensures bytes { OnOk result (IsTrue S.tells → out.new
            ≡ run_bytes (bytes_on self.now) first (length out.old / (P.meter port.old).page)) }
        ensures counts { OnOk result (P.meter port.new ≡ after_read (P.meter port.old)
            (length out.old / (P.meter port.old).page) (P.meter port.new).faults) }
        ensures reads { Reads (length out.old / (P.meter port.old).page)
            (P.meter port.old) (P.meter port.new) }
        ensures cause { HasCause (P.meter port.old).faults (P.meter port.new).faults
            (IsErr result) }
    {
        read_spans(self.pieces.as_slice(), port, first, out)
    }

    /// Writes `bytes` to the pages from `first` on, by one call of the device for each span that
    /// has some of them. After an error these pages may hold anything.
    ///
    /// # Errors
    /// The device failed: the port's count of faults rose.
    pub fn write_run<P: Port<S = S>>(
        &mut self,
        port: &mut P,
        first: u32,
        bytes: &[u8],
    ) -> Result<(), DeviceFault>
        requires whole { IsWhole (P.meter port.old).page (length bytes.now) }
        requires held { HoldsRun self.old first (length bytes.now / (P.meter port.old).page) }
        requires sized { AllSized S.tells (P.meter port.old).page self.old }
        ensures bytes { OnOk result (IsTrue S.tells
            → run_bytes (bytes_on self.new) first (length bytes.now / (P.meter port.old).page)
            ≡ bytes.now) }
        ensures others { IsOverwritten first (length bytes.now / (P.meter port.old).page)
            self.old self.new }
        ensures sized { AllSized S.tells (P.meter port.old).page self.new }
        ensures counts { OnOk result (P.meter port.new ≡ after_write (P.meter port.old)
            (length bytes.now / (P.meter port.old).page) (P.meter port.new).faults) }
        ensures writes { Writes (length bytes.now / (P.meter port.old).page)
            (P.meter port.old) (P.meter port.new) }
        ensures cause { HasCause (P.meter port.old).faults (P.meter port.new).faults
            (IsErr result) }
    {
        write_spans(&mut self.pieces, port, first, bytes)
    }
}
