//! A piece of the holdings: at most 128 spans, for which it took its memory at once.

ghost use Rattle.std.specs.Prelude.{◌≡◌, ℕ, ◌+◌, ◌-◌, ◌/◌, ◌<◌, ◌≤◌, [], ◌∷◌, ◌++◌, length, take};
ghost use Rattle.std.specs.Prelude.{drop, set, slice_index_or, vec_len, vec_capacity};
ghost use Rattle.std.specs.Prelude.{IsTrue, IsErr, IfOk, OnOk};
ghost use Rattle.fault_count.specs.Counts.{HasCause, after_write};
ghost use Rattle.page_port.specs.Pages.{FitsPages, IsSized, run_bytes};
ghost use Rattle.span_store.specs.Held.{span_of};
ghost use Rattle.span_store.specs.Order.{IsRank, as_one, first_at, no_span, with_cut};
ghost use Rattle.span_store.specs.Pieces.{IsOverAt, end_in};

use crate::place::place_of;
use crate::spans::{cut, put};
use page_port::{DeviceFault, Port, Span};
use std::alloc::{AllocError, Global};
use std::marker::Model;

/// How many spans a piece has at most.
pub const LIMIT: usize = 128;

/// How many spans stay in a piece that is split.
pub const HALF: usize = 64;

/// Spans in a row. In contracts it is the list of them.
#[derive(Drop)]
pub struct Piece<S: Span> {
    spans: Vec<S>,
}

impl<S: Span> Model for Piece<S> {
    ghost use Rattle.std.specs.Prelude.{◌≤◌, List, vec_capacity};
    ghost use Rattle.span_store.specs.Held.{HeldSpan, spans_of};

    ghost Value = { List HeldSpan };

    ghost view = { λ p. spans_of S.start S.contents p.spans.items };

    ghost invariant = { λ p. 128 ≤ vec_capacity p.spans };
}

impl<S: Span> Piece<S> {
    /// A piece without spans.
    ///
    /// # Errors
    /// There was no memory.
    pub fn new(alloc: Global) -> Result<Piece<S>, AllocError>
        ensures { IfOk result (λ piece. piece ≡ []) }
    {
        Ok(Piece {
            spans: Vec::with_capacity(alloc, LIMIT)?,
        })
    }

    /// How many spans it has.
    pub fn len(&self) -> usize
        ensures { result ≡ length self.now }
    {
        self.spans.len()
    }

    /// The span at an index.
    pub fn span(&self, index: usize) -> &S
        requires { index < length self.now }
        ensures { span_of S.start S.contents result.now ≡ slice_index_or self.now index no_span }
    {
        &self.spans[index]
    }

    /// Where its first span begins.
    pub fn first(&self) -> u32
        requires { 1 ≤ length self.now }
        ensures { result ≡ first_at self.now 0 }
    {
        self.span(0).first()
    }

    /// Where its last span ends.
    pub fn end(&self) -> u32
        requires { 1 ≤ length self.now }
        ensures { result ≡ end_in self.now }
    {
        let last = self.span(self.len() - 1);
        last.first() + last.pages()
    }

    /// How many of its spans begin at this page or before it.
    pub fn rank(&self, page: u64) -> usize
        ensures { IsRank self.now page result }
    {
        place_of(self.spans.as_slice(), page)
    }

    /// Puts a span before the one at `index`. It takes no memory.
    pub fn add(&mut self, index: usize, span: S)
        requires within { index ≤ length self.old }
        requires room { length self.old < 128 }
        ensures { self.new
            ≡ take index self.old ++ (span_of S.start S.contents span ∷ drop index self.old) }
    {
        put(&mut self.spans, index, span);
    }

    /// Cuts the first `n` pages off a span and puts them before it. It takes no memory.
    pub fn cut(&mut self, index: usize, n: u32)
        requires within { index < length self.old }
        requires room { length self.old < 128 }
        requires some { 1 ≤ n }
        requires fewer { n < length (slice_index_or self.old index no_span).pages }
        ensures { self.new ≡ with_cut self.old index n }
    {
        cut(&mut self.spans, index, n);
    }

    /// Appends a span to the one that ends where it begins. It takes no memory.
    pub fn join(&mut self, index: usize, next: S)
        requires within { index < length self.old }
        requires meets { S.start next ≡ (slice_index_or self.old index no_span).first
            + length (slice_index_or self.old index no_span).pages }
        ensures { self.new ≡ set self.old index (as_one (slice_index_or self.old index no_span)
            (span_of S.start S.contents next)) }
    {
        self.spans[index].join(next);
    }

    /// Takes a span out. It takes no memory.
    pub fn remove(&mut self, index: usize) -> S
        requires { index < length self.old }
        ensures span { span_of S.start S.contents result ≡ slice_index_or self.old index no_span }
        ensures rest { self.new ≡ take index self.old ++ drop (index + 1) self.old }
    {
        self.spans.remove(index)
    }

    /// Moves all spans but the first 64 to an empty piece. It takes no memory.
    pub fn halve(&mut self, back: &mut Piece<S>)
        requires some { 64 ≤ length self.old }
        requires most { length self.old ≤ 128 }
        requires empty { back.old ≡ [] }
        ensures front { self.new ≡ take 64 self.old }
        ensures back { back.new ≡ drop 64 self.old }
    {
        move_back(&mut self.spans, &mut back.spans, HALF);
    }

    /// Writes pages of the span at an index, from `page` on, by one call of the device. After an
    /// error these pages may hold anything.
    pub fn write<P: Port<S = S>>(
        &mut self,
        index: usize,
        port: &mut P,
        page: u32,
        bytes: &[u8],
    ) -> Result<(), DeviceFault>
        requires within { index < length self.old }
        requires from { first_at self.old index ≤ page }
        requires fits { FitsPages S.tells (P.meter port.old).page (page - first_at self.old index)
            (length bytes.now) (slice_index_or self.old index no_span).pages }
        ensures over { IsOverAt index page (length bytes.now / (P.meter port.old).page)
            self.old self.new }
        ensures sized { IsSized S.tells (P.meter port.old).page
            (slice_index_or self.new index no_span).pages }
        ensures bytes { OnOk result (IsTrue S.tells →
            run_bytes (page - first_at self.old index)
            (length bytes.now / (P.meter port.old).page)
            (slice_index_or self.new index no_span).pages ≡ bytes.now) }
        ensures counts { P.meter port.new ≡ after_write (P.meter port.old)
            (length bytes.now / (P.meter port.old).page) (P.meter port.new).faults }
        ensures kept { (P.meter port.old).written ≤ (P.meter port.new).written }
        ensures cause { HasCause (P.meter port.old).faults (P.meter port.new).faults
            (IsErr result) }
    {
        let span = &mut self.spans[index];
        let from = page - span.first();
        port.write(span, from, bytes)
    }
}

/// Moves all elements but the first `keep` to an empty vector. It takes no memory.
fn move_back<S: Span>(from: &mut Vec<S>, to: &mut Vec<S>, keep: usize)
    requires within { keep ≤ vec_len from.old }
    requires empty { to.old.items ≡ [] }
    requires room { vec_len from.old ≤ vec_capacity to.old + keep }
    ensures front { from.new.items ≡ take keep from.old.items }
    ensures back { to.new.items ≡ drop keep from.old.items }
    ensures room { (vec_capacity from.new ≡ vec_capacity from.old)
        × (vec_capacity to.new ≡ vec_capacity to.old) }
{
    while from.len() > keep {
        let Some(last) = from.pop() else {
            unreachable!()
        };
        to.push_reserved(last);
    }
    to.reverse();
}
