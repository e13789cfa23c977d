//! Spans in memory.
ghost use Rattle.std.specs.Prelude.{◌≡◌, ◌+◌, ◌-◌, ◌*◌, ◌/◌, ◌^◌, ◌<◌, ◌≤◌, ◌++◌, length, take};
ghost use Rattle.std.specs.Prelude.{drop, true};
ghost use Rattle.page_port.specs.Memory.{Row};
ghost use Rattle.page_port.specs.Pages.{AreOf, KeepsOthers, run_bytes};

use crate::page_list::PageList;
use crate::span::Span;
use std::marker::Model;

/// Pages in memory, whose bytes contracts know: a linked list.
#[derive(Drop)]
pub struct MemSpan {
    first: u32,
    pages: PageList,
}

impl Model for MemSpan {
    ghost use Rattle.std.specs.Prelude.{◌+◌, ◌^◌, ◌<◌, ◌≤◌, length};
    ghost use Rattle.page_port.specs.Memory.{Row};

    ghost Value = { Row };

    ghost view = { λ s. record { first = s.first; pages = s.pages } };

    ghost invariant = { λ s. (1 ≤ length s.pages) × (s.first + length s.pages < 2 ^ 32) };
}

impl Span for MemSpan {
    ghost tells = { true };

    ghost start = { λ s. s.first };

    ghost contents = { λ s. s.pages };

    fn first(&self) -> u32 {
        self.first
    }

    fn pages(&self) -> u32 {
        self.pages.len() as u32
    }

    fn cut(&mut self, n: u32) -> MemSpan {
        let rest = self.pages.split_off(n as usize);
        let front = std::mem::replace(&mut self.pages, rest);
        let first = self.first;
        self.first = first + n;
        MemSpan {
            first,
            pages: front,
        }
    }

    fn join(&mut self, next: MemSpan) {
        let MemSpan { first: _, pages } = next;
        self.pages.append(pages);
    }
}

impl MemSpan {
    /// Pages in a row, from page `first` on.
    pub(crate) fn new(first: u32, pages: PageList) -> MemSpan
        requires some { 1 ≤ length pages }
        requires fits { first + length pages < 2 ^ 32 }
        ensures { result ≡ record { first = first; pages = pages } }
    {
        MemSpan { first, pages }
    }

    /// Its pages, one by one.
    pub(crate) fn into_pages(self) -> PageList
        ensures { result ≡ self.pages }
    {
        let MemSpan { first: _, pages } = self;
        pages
    }

    /// Copies whole pages of `size` bytes into `out`, from page `from` on.
    pub(crate) fn read(&self, from: usize, size: usize, out: &mut [u8])
        requires whole { (length out.old / size) * size ≡ length out.old }
        requires range { from + length out.old / size ≤ length self.now.pages }
        requires sized { AreOf size self.now.pages }
        requires some { 0 < size }
        ensures { out.new ≡ run_bytes from (length out.old / size) self.now.pages }
    {
        self.pages.read(from, size, out);
    }

    /// Copies `bytes` over whole pages of `size` bytes, from page `from` on.
    pub(crate) fn write(&mut self, from: usize, size: usize, bytes: &[u8])
        requires whole { (length bytes.now / size) * size ≡ length bytes.now }
        requires range { from + length bytes.now / size ≤ length self.old.pages }
        requires sized { AreOf size self.old.pages }
        requires some { 0 < size }
        ensures first { self.new.first ≡ self.old.first }
        ensures others { KeepsOthers from (length bytes.now / size) self.old.pages self.new.pages }
        ensures sized { AreOf size self.new.pages }
        ensures bytes { run_bytes from (length bytes.now / size) self.new.pages ≡ bytes.now }
    {
        self.pages.write(from, size, bytes);
    }
}
