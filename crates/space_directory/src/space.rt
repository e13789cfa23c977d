//! One space: its maps, the spans of its free pages, and its calls but the reading of its
//! directory page.

ghost use Rattle.std.specs.Prelude.{◌≡◌, ◌↔◌, ◌+◌, ◌-◌, ◌<◌, ◌≤◌, ℕ, length, false, IsNone, IfNone};
ghost use Rattle.std.specs.Prelude.{IfSome, None};
ghost use Rattle.block_model.specs.Block.{has_page, count_of};
ghost use Rattle.block_model.specs.Place.{place, largest as greatest};
ghost use Rattle.block_model.specs.Directory.{directory_page};
ghost use Rattle.space_directory.specs.SpaceView.{IsSpace, IsRunOf, IsSegmentOf, IsGrant};
ghost use Rattle.space_directory.specs.SpaceView.{IsAnyGrant, after_give, after_lock, after_unlock};

use crate::directory::write_directory;
use crate::held::lock_held;
use crate::runs::{next_free, run_end};
use crate::segment::{Counts, Segment};
use crate::slots::{put_run, take_run};
use buddy_map::BuddyMap;
use page_port::Span;
use release_locks::Locks;
use std::marker::Model;

/// A space: its free pages, with their spans, and its locked pages.
#[derive(Drop)]
pub struct Space<S: Span> {
    pub(crate) number: u16,
    pub(crate) page: u32,
    pub(crate) first: u32,
    pub(crate) map: BuddyMap,
    pub(crate) locks: Locks,
    pub(crate) spans: Vec<Option<S>>,
    /// No page before this place of the space is free.
    pub(crate) low: u32,
}

impl<S: Span> Model for Space<S> {
    ghost use Rattle.space_directory.specs.SpaceView.{SpaceView};
    ghost use Rattle.space_directory.specs.Slots.{pages_held};
    ghost use Rattle.space_directory.specs.Held.{OwnsFree, HasNoneBefore};

    ghost Value = { SpaceView };

    ghost view = { λ s. record {
      number = s.number;
      first = s.first;
      page = s.page;
      free = s.map;
      locked = s.locks;
      held = pages_held S.contents s.spans.items;
    } };

    ghost invariant = { λ s. OwnsFree S.start S.contents S.tells (record {
      number = s.number;
      first = s.first;
      page = s.page;
      free = s.map;
      locked = s.locks;
      held = pages_held S.contents s.spans.items;
    }) s.spans.items × HasNoneBefore s.map s.low };
}

impl<S: Span> Space<S> {
    /// Grants `n` pages: the first ones of the lowest maximal block among those of the least order
    /// that holds them. `None` comes exactly where no block has `n` pages, and then nothing
    /// changes. It takes no memory.
    pub fn grant(&mut self, n: u32) -> Option<Segment<S>>
        requires some { 1 ≤ n }
        requires fits { n ≤ length self.old.free }
        ensures granted { IfSome result (λ g. IsGrant self.old self.new n g.space
            (S.start g.span) (S.contents g.span) S.tells) }
        ensures refused { IsNone result ↔ (place self.old.free n ≡ None) }
        ensures unchanged { IfNone result (self.new ≡ self.old) }
        ensures space { IsSpace self.new }
    {
        let Some(at) = self.map.grant(n) else {
            return None;
        };
        let span = take_run(&mut self.spans, at as usize, n as usize);
        Some(Segment {
            space: self.number,
            span,
        })
    }

    /// Takes a whole run of free pages out, some one of them. `None` comes exactly where no page is
    /// free. It takes no memory. A row of these calls until none is left passes each page once.
    pub fn take_any(&mut self) -> Option<S>
        ensures taken { IfSome result (λ s. IsAnyGrant self.old self.new
            (S.start s) (S.contents s) S.tells) }
        ensures none { IsNone result ↔ ((page : ℕ) → has_page self.old.free page ≡ false) }
        ensures unchanged { IfNone result (self.new ≡ self.old) }
        ensures space { IsSpace self.new }
    {
        let pages = self.spans.len() as u32;
        let Some(at) = next_free(&self.map, self.low, pages) else {
            return None;
        };
        let end = run_end(&self.map, at, pages);
        self.map.take_out(at, end - at);
        self.low = end;
        let span = take_run(&mut self.spans, at as usize, (end - at) as usize);
        Some(span)
    }

    /// Gives the pages of a segment back: they are free, and not locked. It takes no memory. Of a
    /// page that was free already, which the caller's own book-keeping rules out, one of the two
    /// spans is dropped.
    pub fn give(&mut self, segment: Segment<S>)
        requires { IsSegmentOf self.old segment.space (S.start segment.span)
            (S.contents segment.span) S.tells }
        ensures given { self.new ≡ after_give self.old (S.start segment.span - self.old.first)
            (S.contents segment.span) }
        ensures space { IsSpace self.new }
    {
        let Segment { space: _, span } = segment;
        let at = span.first() - self.first;
        let n = span.pages();
        self.map.give(at, n);
        self.locks.unlock(at, n);
        self.low = self.low.min(at);
        put_run(&mut self.spans, at as usize, span);
    }

    /// Gives the pages of a segment back that were locked: what `give` does, under the name that
    /// tells what the caller had. It takes no memory.
    pub fn give_locked(&mut self, segment: Segment<S>)
        requires { IsSegmentOf self.old segment.space (S.start segment.span)
            (S.contents segment.span) S.tells }
        ensures given { self.new ≡ after_give self.old (S.start segment.span - self.old.first)
            (S.contents segment.span) }
        ensures space { IsSpace self.new }
    {
        self.give(segment);
    }

    /// Locks those of the `n` pages from `first` on that aren't free. It takes no memory.
    pub fn lock(&mut self, first: u32, n: u32)
        requires { IsRunOf self.old first n }
        ensures locked { self.new ≡ after_lock self.old (first - self.old.first) n }
        ensures space { IsSpace self.new }
    {
        let at = first - self.first;
        lock_held(&self.map, &mut self.locks, at, n);
    }

    /// Unlocks the `n` pages from `first` on. It takes no memory.
    pub fn unlock(&mut self, first: u32, n: u32)
        requires { IsRunOf self.old first n }
        ensures unlocked { self.new ≡ after_unlock self.old (first - self.old.first) n }
        ensures space { IsSpace self.new }
    {
        self.locks.unlock(first - self.first, n);
    }

    /// Whether a page of the space is free.
    pub fn is_free(&self, page: u32) -> bool
        requires from { self.now.first ≤ page }
        requires to { page < self.now.first + length self.now.free }
        ensures { result ≡ has_page self.now.free (page - self.now.first) }
    {
        self.map.is_free(page - self.first)
    }

    /// Whether a page of the space is locked.
    pub fn is_locked(&self, page: u32) -> bool
        requires from { self.now.first ≤ page }
        requires to { page < self.now.first + length self.now.free }
        ensures { result ≡ has_page self.now.locked (page - self.now.first) }
    {
        self.locks.has(page - self.first)
    }

    /// The greatest order of a free block, and none where no page is free.
    pub fn largest(&self) -> Option<u8>
        ensures greatest { result ≡ greatest self.now.free }
        ensures space { IsSpace self.now }
    {
        self.map.largest()
    }

    /// How many pages are free, and how many are locked.
    pub fn counts(&self) -> Counts
        ensures free { result.free ≡ count_of self.now.free }
        ensures locked { result.locked ≡ count_of self.now.locked }
        ensures space { IsSpace self.now }
    {
        Counts {
            free: self.map.count(),
            locked: self.locks.count(),
        }
    }

    /// The number of the space.
    pub fn number(&self) -> u16
        ensures number { result ≡ self.now.number }
        ensures space { IsSpace self.now }
    {
        self.number
    }

    /// The first page of the space.
    pub fn first(&self) -> u32
        ensures first { result ≡ self.now.first }
        ensures space { IsSpace self.now }
    {
        self.first
    }

    /// The bytes of a page.
    pub fn page_size(&self) -> u32
        ensures page { result ≡ self.now.page }
        ensures space { IsSpace self.now }
    {
        self.page
    }

    /// How many pages the space has.
    pub fn pages(&self) -> u32
        ensures pages { result ≡ length self.now.free }
        ensures space { IsSpace self.now }
    {
        self.spans.len() as u32
    }

    /// Writes the directory page: the encoding of the free pages. It takes no memory.
    pub fn write_page(&self, out: &mut [u8])
        requires { length out.old ≡ self.now.page }
        ensures { out.new ≡ directory_page self.now.page self.now.number self.now.free }
    {
        write_directory(out, self.number, &self.map, self.spans.len());
    }
}

impl<S: Span> AsRef<BuddyMap> for Space<S> {
    /// Its free pages.
    fn as_ref(&self) -> &BuddyMap
        ensures free { result.now ≡ self.now.free }
        ensures space { IsSpace self.now }
    {
        &self.map
    }
}
