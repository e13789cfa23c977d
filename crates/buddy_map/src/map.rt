//! The map of a space's free pages, and its calls.

ghost use Rattle.std.specs.Prelude.{◌≡◌, ◌+◌, ◌*◌, ◌^◌, ◌<◌, ◌≤◌, Bool, true, false, List, length};
ghost use Rattle.std.specs.Prelude.{replicate, IfOk, IfSome, IfNone};
ghost use Rattle.block_model.specs.Block.{has_page, count_of, with_run, IsPlace, IsLargest};
ghost use Rattle.block_model.specs.Place.{place, largest as greatest};
ghost use Rattle.block_model.specs.Bitmap.{packed, unpacked};
ghost use Rattle.buddy_map.specs.Tree.{AreMasks};

use crate::bits::{pack, unpack};
use crate::masks::{build, mend};
use crate::place::{largest_of, place_of};
use block_model::{count_pages, insert_run, remove_run};
use std::alloc::{AllocError, Global};
use std::marker::Model;

/// The free pages of one space of `2^order` pages, `order` 4 to 14. A contract sees it as one
/// test a page: whether the page is free.
#[derive(Drop)]
pub struct BuddyMap {
    pages: Vec<bool>,
    free: u32,
    order: u8,
    masks: Vec<u16>,
}

impl Model for BuddyMap {
    ghost Value = { List Bool };

    ghost view = { λ m. m.pages.items };

    ghost invariant = { λ m. (m.free ≡ count_of m.pages.items) × (length m.pages.items ≤ 2 ^ 14)
        × AreMasks m.pages.items m.order m.masks.items };
}

impl BuddyMap {
    /// A map with all `2^order` pages free. It refuses for want of memory alone.
    pub fn new(alloc: Global, order: u8) -> Result<BuddyMap, AllocError>
        requires low { 4 ≤ order }
        requires high { order ≤ 14 }
        ensures { IfOk result (λ map. map ≡ replicate (2 ^ order) true) }
    {
        let size: u32 = 1 << order;
        let pages = vec![in alloc; true; size as usize]?;
        BuddyMap::of(alloc, order, pages)
    }

    /// A map whose free pages are those of a bitmap of `2^order / 8` bytes: eight pages a byte,
    /// the first of them its highest bit. It refuses for want of memory alone.
    pub fn from_bits(alloc: Global, order: u8, bits: &[u8]) -> Result<BuddyMap, AllocError>
        requires low { 4 ≤ order }
        requires high { order ≤ 14 }
        requires whole { 8 * length bits.now ≡ 2 ^ order }
        ensures { IfOk result (λ map. map ≡ unpacked bits.now) }
    {
        let pages = unpack(alloc, bits)?;
        BuddyMap::of(alloc, order, pages)
    }

    /// The map of a set of pages. It refuses for want of memory alone.
    fn of(alloc: Global, order: u8, pages: Vec<bool>) -> Result<BuddyMap, AllocError>
        requires high { order ≤ 14 }
        requires whole { length pages.items ≡ 2 ^ order }
        ensures { IfOk result (λ map. map ≡ pages.items) }
    {
        let free = count_pages(&pages) as u32;
        let masks = build(alloc, &pages, order)?;
        Ok(BuddyMap {
            pages,
            free,
            order,
            masks,
        })
    }

    /// Takes the first `n` pages of the lowest maximal block among those of the least order that
    /// holds `n`, and returns the first of them. `None` comes exactly where no block has `n`
    /// pages, and then nothing changes. It takes no memory.
    pub fn grant(&mut self, n: u32) -> Option<u32>
        requires some { 1 ≤ n }
        requires fits { n ≤ length self.old }
        ensures best { IsPlace self.old n result }
        ensures computed { result ≡ place self.old n }
        ensures taken { IfSome result (λ first. self.new ≡ with_run self.old first n false) }
        ensures refused { IfNone result (self.new ≡ self.old) }
        ensures size { length self.new ≡ length self.old }
    {
        let Some(first) = place_of(&self.masks, self.order, n) else {
            return None;
        };
        self.take_out(first, n);
        Some(first)
    }

    /// Takes the `n` pages from `first` on out, wherever they stand: none of them is free
    /// afterwards. It takes no memory.
    pub fn take_out(&mut self, first: u32, n: u32)
        requires { first + n ≤ length self.old }
        ensures taken { self.new ≡ with_run self.old first n false }
        ensures size { length self.new ≡ length self.old }
    {
        self.free -= remove_run(&mut self.pages, first, n);
        if n > 0 {
            mend(&mut self.masks, &self.pages, self.order, first, n);
        }
    }

    /// Gives the `n` pages from `first` on back: the free pages become the union. It takes no
    /// memory.
    pub fn give(&mut self, first: u32, n: u32)
        requires some { 1 ≤ n }
        requires within { first + n ≤ length self.old }
        ensures given { self.new ≡ with_run self.old first n true }
        ensures size { length self.new ≡ length self.old }
    {
        self.free += insert_run(&mut self.pages, first, n);
        mend(&mut self.masks, &self.pages, self.order, first, n);
    }

    /// The greatest order of a block, and none where no page is free.
    pub fn largest(&self) -> Option<u8>
        ensures greatest { IsLargest self.now result }
        ensures computed { result ≡ greatest self.now }
    {
        largest_of(&self.masks, self.order)
    }

    /// Whether a page is free.
    pub fn is_free(&self, page: u32) -> bool
        requires { page < length self.now }
        ensures { result ≡ has_page self.now page }
    {
        self.pages[page as usize]
    }

    /// The number of free pages.
    pub fn count(&self) -> u32
        ensures { result ≡ count_of self.now }
    {
        self.free
    }

    /// Writes the bitmap of the free pages.
    pub fn to_bits(&self, out: &mut [u8])
        requires { 8 * length out.old ≡ length self.now }
        ensures { out.new ≡ packed (length out.old) self.now }
    {
        pack(&self.pages, out);
    }
}
