//! The set of locked pages, one byte a page, with its size kept beside it.

ghost use Rattle.std.specs.Prelude.{◌≡◌, ◌+◌, ◌^◌, ◌<◌, ◌≤◌, Bool, true, false, List, length};
ghost use Rattle.std.specs.Prelude.{replicate, IfOk};
ghost use Rattle.block_model.specs.Block.{has_page, count_of, with_run};

use block_model::{insert_run, remove_run};
use std::alloc::{AllocError, Global};
use std::marker::Model;

/// A set of the pages of one space. A contract sees it as one test a page.
#[derive(Drop)]
pub struct Locks {
    pages: Vec<bool>,
    count: u32,
}

impl Model for Locks {
    ghost Value = { List Bool };

    ghost view = { λ l. l.pages.items };

    ghost invariant = { λ l. (l.count ≡ count_of l.pages.items) × (length l.pages.items < 2 ^ 32) };
}

impl Locks {
    /// The empty set over `pages` pages. It refuses for want of memory alone.
    pub fn new(alloc: Global, pages: u32) -> Result<Locks, AllocError>
        ensures { IfOk result (λ locks. locks ≡ replicate pages false) }
    {
        let pages = vec![in alloc; false; pages as usize]?;
        Ok(Locks { pages, count: 0 })
    }

    /// Locks the `n` pages from `first` on. It takes no memory.
    pub fn lock(&mut self, first: u32, n: u32)
        requires { first + n ≤ length self.old }
        ensures locked { self.new ≡ with_run self.old first n true }
        ensures size { length self.new ≡ length self.old }
    {
        self.count += insert_run(&mut self.pages, first, n);
    }

    /// Unlocks the `n` pages from `first` on. It takes no memory.
    pub fn unlock(&mut self, first: u32, n: u32)
        requires { first + n ≤ length self.old }
        ensures unlocked { self.new ≡ with_run self.old first n false }
        ensures size { length self.new ≡ length self.old }
    {
        self.count -= remove_run(&mut self.pages, first, n);
    }

    /// Whether a page is locked.
    pub fn has(&self, page: u32) -> bool
        requires { page < length self.now }
        ensures { result ≡ has_page self.now page }
    {
        self.pages[page as usize]
    }

    /// The number of locked pages.
    pub fn count(&self) -> u32
        ensures { result ≡ count_of self.now }
    {
        self.count
    }
}

#[cfg(test)]
mod tests {
    use super::*;
    use std::test::Fail;

    #[test]
    fn runs_are_locked_and_unlocked_exactly(rt: HostRuntime) -> Result<(), Fail> {
        let mut locks = Locks::new(rt.alloc(), 16)?;
        locks.lock(2, 5);
        locks.lock(4, 4);
        locks.unlock(3, 2);
        let held = [
            locks.has(2),
            locks.has(3),
            locks.has(4),
            locks.has(5),
            locks.has(7),
        ];
        assert_eq!(rt; held, [true, false, false, true, true]);
        assert_eq!(rt; locks.has(8), false);
        assert_eq!(rt; locks.count(), 4);
        Ok(())
    }
}
