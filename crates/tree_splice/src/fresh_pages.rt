//! New pages for nodes: asked for one by one, written, and either held or given back.

ghost use Rattle.std.specs.Prelude.{◌≡◌, ◌≢◌, ℕ, ◌+◌, ◌<◌, ◌≤◌, ◌||◌, ◌∷◌, ◌++◌, [], List, length};
ghost use Rattle.std.specs.Prelude.{map, drop, IsTrue, IsErr, IfOk, OnOk, OnErr, Err, false};
ghost use Rattle.std.specs.Prelude.{slice_index_or};
ghost use Rattle.std.specs.Option.{option_or};
ghost use Rattle.fault_count.specs.Counts.{HasCause, Writes};
ghost use Rattle.block_model.specs.Place.{least_order};
ghost use Rattle.space_directory.specs.SpaceView.{SpaceView};
ghost use Rattle.span_store.specs.Held.{AllSized, begins, page_at};
ghost use Rattle.superdirectory.specs.Grants.{AreTold, IsGrantFrom, KeepsFrame};
ghost use Rattle.superdirectory.specs.Rest.{count};
ghost use Rattle.superdirectory.specs.Trace.{Part, AreEnters, IsLow};
ghost use Rattle.tree_splice.specs.Fresh.{AreAllOf, ArePagesApart, AreHomely, GivesBack};
ghost use Rattle.tree_splice.specs.Fresh.{ArePagesAsked, IsOneMore, IsPageWritten, fresh_at};
ghost use Rattle.tree_splice.specs.Fresh.{is_on_pages, no_fresh_page, page_numbers};

use crate::failure::SpliceFail;
use page_port::{DeviceFault, Port, Span};
use space_directory::Segment;
use span_store::Holdings;
use std::alloc::{AllocError, Global};
use std::marker::Model;
use superdirectory::{Latches, give_all, grant, release};

/// Pages that were granted one by one, each its own span, and their numbers.
#[derive(Drop)]
pub struct FreshPages<S: Span> {
    segments: Vec<Segment<S>>,
    numbers: Vec<u32>,
}

impl<S: Span> Model for FreshPages<S> {
    ghost use Rattle.std.specs.Prelude.{◌≡◌, [], length, map, slice_index_or, vec_capacity};
    ghost use Rattle.std.specs.List.{AllByRecursion};
    ghost use Rattle.tree_splice.specs.Fresh.{FreshList};

    ghost Value = { FreshList };

    ghost view = { λ f. record {
      pages = map (λ g. record {
        space = g.space;
        page = S.start g.span;
        bytes = slice_index_or (S.contents g.span) 0 [];
      }) f.segments.items;
      room = vec_capacity f.segments;
    } };

    ghost invariant = { λ f. (f.numbers.items ≡ map (λ g. S.start g.span) f.segments.items)
        × (vec_capacity f.numbers ≡ vec_capacity f.segments)
        × AllByRecursion (λ g. length (S.contents g.span) ≡ 1) f.segments.items };
}

impl<S: Span> FreshPages<S> {
    /// No page, and room for so many.
    pub fn with_room(alloc: Global, room: usize) -> Result<FreshPages<S>, AllocError>
        ensures empty { IfOk result (λ fresh. fresh.pages ≡ []) }
        ensures room { IfOk result (λ fresh. fresh.room ≡ room) }
    {
        let segments = Vec::with_capacity(alloc, room)?;
        let numbers = Vec::with_capacity(alloc, room)?;
        Ok(FreshPages { segments, numbers })
    }

    /// The numbers of the pages.
    pub fn numbers(&self) -> &[u32]
        ensures { result.now ≡ page_numbers self.now.pages }
    {
        self.numbers.as_slice()
    }

    /// Asks for one page more. It takes no memory.
    ///
    /// # Errors
    /// `NoSpace`, and `Memory` where the page is held already, or is one of these: it is given
    /// back, since the spaces that granted it lie.
    pub fn ask<L: Latches<S = S>>(
        &mut self,
        latches: &mut L,
        turn: &mut L::Turn,
        start: u16,
        held: &Holdings<S>,
    ) -> Result<(), SpliceFail>
        requires from { IsGrantFrom (L.rest latches.old) start 1 }
        requires room { length self.old.pages < self.old.room }
        requires home { AreHomely S.tells (L.rest latches.old).frame self.old.pages }
        requires apart { ArePagesApart self.old.pages }
        ensures rest { KeepsFrame (L.rest latches.old) (L.rest latches.new) }
        ensures kept { self.new.room ≡ self.old.room }
        ensures home { AreHomely S.tells (L.rest latches.old).frame self.new.pages }
        ensures apart { ArePagesApart self.new.pages }
        ensures more { OnOk result (IsOneMore (page_at held.now) self.old.pages self.new.pages) }
        ensures err { OnErr result (self.new ≡ self.old) }
        ensures no_fault { (result ≡ Err SpliceFail.Fault) → ⊥ }
        ensures told { (views : List SpaceView) → AreTold (L.rest latches.old) views
            → length views ≡ count (L.rest latches.old)
            → ArePagesAsked views start 1 (L.rest latches.old).frame
            (drop (length self.old.pages) self.new.pages) result (L.rest latches.new) }
        ensures low { Part (λ part. (result ≡ Err SpliceFail.NoSpace) → (space : ℕ)
            → space < count (L.rest latches.old) → IsLow space (least_order 1) part)
            (L.trace latches.old) (L.trace latches.new) }
    {
        let segment = match grant(latches, turn, start, 1) {
            Ok(segment) => segment,
            Err(_) => return Err(SpliceFail::NoSpace),
        };
        let page = segment.span.first();
        if is_known(held, self.numbers.as_slice(), page) {
            release(latches, turn, segment);
            return Err(SpliceFail::Memory);
        }
        self.segments.push_reserved(segment);
        self.numbers.push_reserved(page);
        Ok(())
    }

    /// Writes the page with this number in the list. After an error it may hold anything.
    ///
    /// # Errors
    /// The device failed: the port's count of faults rose.
    pub fn write<P: Port<S = S>>(
        &mut self,
        port: &mut P,
        index: usize,
        bytes: &[u8],
    ) -> Result<(), DeviceFault>
        requires some { 1 ≤ (P.meter port.old).page }
        requires whole { length bytes.now ≡ (P.meter port.old).page }
        requires within { index < length self.old.pages }
        requires sized { AreAllOf S.tells (P.meter port.old).page self.old.pages }
        ensures written { IsPageWritten index self.old.pages self.new.pages }
        ensures kept { self.new.room ≡ self.old.room }
        ensures bytes { OnOk result (IsTrue S.tells
            → (slice_index_or self.new.pages index no_fresh_page).bytes ≡ bytes.now) }
        ensures sized { AreAllOf S.tells (P.meter port.old).page self.new.pages }
        ensures writes { Writes 1 (P.meter port.old) (P.meter port.new) }
        ensures cause { HasCause (P.meter port.old).faults (P.meter port.new).faults
            (IsErr result) }
    {
        let segment = &mut self.segments[index];
        port.write(&mut segment.span, 0, bytes)
    }

    /// Gives each page back to its space, the last one first. It takes no memory.
    pub fn give_back<L: Latches<S = S>>(self, latches: &mut L, turn: &mut L::Turn)
        requires none { (L.rest latches.old).entered ≡ None }
        requires home { AreHomely S.tells (L.rest latches.old).frame self.pages }
        ensures rest { KeepsFrame (L.rest latches.old) (L.rest latches.new) }
        ensures trace { Part AreEnters (L.trace latches.old) (L.trace latches.new) }
        ensures told { GivesBack self.pages (L.rest latches.old) (L.rest latches.new) }
    {
        let FreshPages {
            mut segments,
            numbers: _,
        } = self;
        give_all(latches, turn, &mut segments);
    }

    /// Puts each page into what is held, where room was made. It takes no memory.
    pub fn hold(self, held: &mut Holdings<S>)
        requires room { length held.old.spans + length self.pages ≤ held.old.room }
        requires lacks { (q : ℕ) → IsTrue (is_on_pages q (page_numbers self.pages))
            → page_at held.old q ≡ None }
        requires apart { ArePagesApart self.pages }
        ensures pages { (q : ℕ) → page_at held.new q
            ≡ option_or (fresh_at self.pages q) (page_at held.old q) }
        ensures begun { (q : ℕ) → begins held.new q
            ≡ (is_on_pages q (page_numbers self.pages) || begins held.old q) }
        ensures sized { (size : ℕ) → AreAllOf S.tells size self.pages
            → AllSized S.tells size held.old → AllSized S.tells size held.new }
    {
        let FreshPages {
            mut segments,
            numbers: _,
        } = self;
        'moves: while let Some(segment) = segments.pop() {
            held.add(segment.span);
        }
    }
}

/// Is the page held, or one of these?
fn is_known<S: Span>(held: &Holdings<S>, numbers: &[u32], page: u32) -> bool
    ensures held { result ≡ false → page_at held.now page ≡ None }
    ensures apart { result ≡ false → is_on_pages page numbers.now ≡ false }
{
    if !held.lacks(page, 1) {
        return true;
    }
    for number in numbers {
        if *number == page {
            return true;
        }
    }
    false
}
