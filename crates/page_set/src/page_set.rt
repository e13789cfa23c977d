//! The set, and its calls.

ghost use Rattle.std.specs.Prelude.{◌≡◌, ℕ, ◌+◌, ◌^◌, ◌<◌, ◌↔◌, false, IsTrue, IsOk, OnOk, OnErr};
ghost use Rattle.std.specs.Prelude.{IfSome, IfNone};
ghost use Rattle.page_set.specs.Members.{count_on, count_all, AllOn, AreSame, IsWithRun};
ghost use Rattle.page_set.specs.Members.{IsWithoutRun, IsFirstRun, Keeps};
ghost use Rattle.page_set.specs.Words.{in_set, room_in};

use crate::page_run::PageRun;
use crate::runs::{cut_first_run, cut_run, make_room, put_run};
use crate::words::{first_page, has_page};
use std::alloc::{AllocError, Global};
use std::collections::BTreeMap;
use std::marker::Model;

/// A set of pages. A call costs a look-up for each word that its run touches, 64 pages a word.
#[derive(Drop)]
pub struct PageSet {
    words: BTreeMap<u32, u64>,
    size: u32,
}

impl Model for PageSet {
    ghost use Rattle.std.specs.Prelude.{◌≡◌, ℕ, ◌+◌, ◌^◌, ◌<◌, IsTrue};
    ghost use Rattle.page_set.specs.Members.{count_all};
    ghost use Rattle.page_set.specs.Words.{PageSetView, in_words};

    ghost Value = { PageSetView };

    ghost view = { λ s. record { words = s.words.entries; size = s.size } };

    ghost invariant = { λ s. (s.size ≡ count_all (in_words s.words))
        × ((page : ℕ) → IsTrue (in_words s.words page) → page + 1 < 2 ^ 32) };
}

impl PageSet {
    /// The empty set.
    pub fn new(alloc: Global) -> PageSet
        ensures empty { (page : ℕ) → in_set result page ≡ false }
        ensures size { result.size ≡ 0 }
    {
        PageSet {
            words: BTreeMap::new(alloc),
            size: 0,
        }
    }

    /// Makes room for a run, so that to add any of its pages takes no memory.
    ///
    /// # Errors
    /// There was no memory: the set has the pages that it had.
    pub fn reserve(&mut self, first: u32, pages: u32) -> Result<(), AllocError>
        requires { first + pages < 2 ^ 32 }
        ensures room { OnOk result (AllOn (room_in self.new) first pages) }
        ensures same { AreSame (in_set self.old) (in_set self.new) }
        ensures size { self.new.size ≡ self.old.size }
        ensures keeps { Keeps (room_in self.old) (room_in self.new) }
        ensures enough { AllOn (room_in self.old) first pages → IsOk result }
    {
        make_room(&mut self.words, first, pages)
    }

    /// Adds a run. Where there is room for its pages it takes no memory.
    ///
    /// # Errors
    /// There was no memory: the set has the pages that it had.
    pub fn add(&mut self, first: u32, pages: u32) -> Result<(), AllocError>
        requires { first + pages < 2 ^ 32 }
        ensures added { OnOk result (IsWithRun first pages (in_set self.old) (in_set self.new)) }
        ensures size { OnOk result
            (self.new.size + count_on (in_set self.old) first pages ≡ self.old.size + pages) }
        ensures keeps { Keeps (room_in self.old) (room_in self.new) }
        ensures enough { AllOn (room_in self.old) first pages → IsOk result }
        ensures err { OnErr result (AreSame (in_set self.old) (in_set self.new)) }
        ensures err_size { OnErr result (self.new.size ≡ self.old.size) }
    {
        make_room(&mut self.words, first, pages)?;
        self.size += put_run(&mut self.words, first, pages);
        Ok(())
    }

    /// Removes a run. It takes no memory, and the room for its pages stays.
    pub fn remove(&mut self, first: u32, pages: u32)
        requires { first + pages < 2 ^ 32 }
        ensures removed { IsWithoutRun first pages (in_set self.old) (in_set self.new) }
        ensures size { self.new.size + count_on (in_set self.old) first pages ≡ self.old.size }
        ensures keeps { Keeps (room_in self.old) (room_in self.new) }
    {
        self.size -= cut_run(&mut self.words, first, pages);
    }

    /// Takes out the lowest page, and those behind it as far as they stand side by side. `None`
    /// comes exactly where the set is empty. It takes no memory, and may give up room.
    pub fn pop_first_run(&mut self) -> Option<PageRun>
        ensures first { IfSome result (λ run. IsFirstRun (in_set self.old) run.first run.pages) }
        ensures removed { IfSome result (λ run.
            IsWithoutRun run.first run.pages (in_set self.old) (in_set self.new)) }
        ensures size { IfSome result (λ run. self.new.size + run.pages ≡ self.old.size) }
        ensures within { IfSome result (λ run. run.first + run.pages < 2 ^ 32) }
        ensures none { IfNone result ((page : ℕ) → in_set self.old page ≡ false) }
        ensures unchanged { IfNone result (AreSame (in_set self.old) (in_set self.new)
            × (self.new.size ≡ self.old.size)) }
    {
        let Some(first) = first_page(&mut self.words) else {
            return None;
        };
        let pages = cut_first_run(&mut self.words, first);
        self.size -= pages;
        Some(PageRun { first, pages })
    }

    /// Whether a page is in the set.
    pub fn has(&self, page: u32) -> bool
        ensures { result ≡ in_set self.now page }
    {
        has_page(&self.words, page)
    }

    /// The number of pages in the set: one look.
    pub fn count(&self) -> u32
        ensures size { result ≡ self.now.size }
        ensures counted { self.now.size ≡ count_all (in_set self.now) }
    {
        self.size
    }

    /// Whether no page is in the set: one look.
    pub fn is_empty(&self) -> bool
        ensures { IsTrue result ↔ ((page : ℕ) → in_set self.now page ≡ false) }
    {
        self.size == 0
    }
}

#[cfg(test)]
mod tests {
    use super::*;
    use std::test::Fail;

    #[test]
    fn runs_go_in_and_out_over_the_borders_of_words(rt: HostRuntime) -> Result<(), Fail> {
        let mut set = PageSet::new(rt.alloc());
        set.add(60, 80)?;
        set.add(60, 4)?;
        set.remove(100, 28);
        assert_eq!(rt; set.count(), 52);
        assert!(rt; set.has(99) && !set.has(100) && !set.has(127) && set.has(128));
        let runs = [(60, 40), (128, 12)];
        for (first, pages) in runs {
            assert_eq!(rt; set.pop_first_run(), Some(PageRun { first, pages }));
        }
        assert_eq!(rt; set.pop_first_run(), None);
        assert!(rt; set.is_empty());
        Ok(())
    }
}
