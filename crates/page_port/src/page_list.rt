//! A linked list of pages in memory. Pages move from list to list without a copy and without
//! memory.
ghost use Rattle.std.specs.Prelude.{◌≡◌, ◌+◌, ◌-◌, ◌*◌, ◌/◌, ◌^◌, ◌<◌, ◌≤◌, ◌++◌, [], ◌∷◌, length};
ghost use Rattle.std.specs.Prelude.{take, drop, IfOk, OnOk, OnErr, MatchOption};
ghost use Rattle.std.specs.List.{concat};
ghost use Rattle.page_port.specs.Pages.{AreOf, KeepsOthers, run_bytes};

use std::alloc::{AllocError, Global};
use std::collections::LinkedList;
use std::marker::Model;

/// Pages in a row, each in a buffer of its own.
#[derive(Drop)]
pub struct PageList {
    pages: LinkedList<Vec<u8>>,
}

impl Model for PageList {
    ghost use Rattle.std.specs.Prelude.{List, ℕ, map};
    ghost use Rattle.page_port.specs.Memory.{page_items};

    ghost Value = { List (List ℕ) };

    ghost view = { λ l. map page_items l.pages };
}

impl PageList {
    pub fn new(alloc: Global) -> PageList
        ensures { result ≡ [] }
    {
        PageList {
            pages: LinkedList::new(alloc),
        }
    }

    /// Copies of the first `pages` pages of `size` bytes.
    pub fn from_bytes(
        alloc: Global,
        size: usize,
        pages: usize,
        bytes: &[u8],
    ) -> Result<PageList, AllocError>
        requires { size * pages ≤ length bytes.now }
        ensures count { IfOk result (λ l. length l ≡ pages) }
        ensures sized { IfOk result (λ l. AreOf size l) }
        ensures bytes { IfOk result (λ l. concat l ≡ take (size * pages) bytes.now) }
    {
        let mut list = PageList::new(alloc);
        let mut at = 0;
        for i in 0..pages {
            list.push(Vec::from_slice(alloc, &bytes[at..at + size])?)?;
            at += size;
        }
        Ok(list)
    }

    pub fn len(&self) -> usize
        ensures count { result ≡ length self.now }
        ensures fits { result < 2 ^ 63 }
    {
        self.pages.len()
    }

    pub fn push(&mut self, page: Vec<u8>) -> Result<(), AllocError>
        ensures ok { OnOk result (self.new ≡ self.old ++ page.items ∷ []) }
        ensures err { OnErr result (self.new ≡ self.old) }
    {
        self.pages.push_back(page)?;
        Ok(())
    }

    /// Takes out the first page.
    pub fn pop(&mut self) -> Option<Vec<u8>>
        ensures { MatchOption result ((self.old ≡ []) × (self.new ≡ []))
            (λ page. self.old ≡ page.items ∷ self.new) }
    {
        self.pages.pop_front()
    }

    /// Cuts the list before page `at`, and gives the rest.
    pub fn split_off(&mut self, at: usize) -> PageList
        requires { at ≤ length self.old }
        ensures front { self.new ≡ take at self.old }
        ensures rest { result ≡ drop at self.old }
    {
        let Ok(pages) = self.pages.split_off(at) else {
            unreachable!()
        };
        PageList { pages }
    }

    pub fn append(&mut self, rest: PageList)
        requires { length self.old + length rest < 2 ^ 63 }
        ensures { self.new ≡ self.old ++ rest }
    {
        let PageList { mut pages } = rest;
        let Ok(()) = self.pages.append(&mut pages) else {
            unreachable!()
        };
    }

    /// Writes over the first page.
    pub fn overwrite(&mut self, bytes: &[u8])
        requires some { 1 ≤ length self.old }
        requires sized { AreOf (length bytes.now) self.old }
        ensures { self.new ≡ bytes.now ∷ drop 1 self.old }
    {
        if let Some(page) = self.pages.front_mut() {
            page.as_mut_slice().copy_from_slice(bytes);
        }
    }

    /// Copies whole pages of `size` bytes into `out`, from page `from` on.
    pub fn read(&self, from: usize, size: usize, out: &mut [u8])
        requires whole { (length out.old / size) * size ≡ length out.old }
        requires range { from + length out.old / size ≤ length self.now }
        requires sized { AreOf size self.now }
        requires some { 0 < size }
        ensures { out.new ≡ run_bytes from (length out.old / size) self.now }
    {
        let mut rest = self.pages.iter();
        for i in 0..from {
            rest.next();
        }
        let mut at = 0;
        for j in 0..out.len() / size {
            let Some(page) = rest.next() else {
                unreachable!()
            };
            out[at..at + size].copy_from_slice(page.as_slice());
            at += size;
        }
    }

    /// Copies `bytes` over whole pages of `size` bytes, from page `from` on.
    pub fn write(&mut self, from: usize, size: usize, bytes: &[u8])
        requires whole { (length bytes.now / size) * size ≡ length bytes.now }
        requires range { from + length bytes.now / size ≤ length self.old }
        requires sized { AreOf size self.old }
        requires some { 0 < size }
        requires fits { length self.old < 2 ^ 63 }
        ensures others { KeepsOthers from (length bytes.now / size) self.old self.new }
        ensures sized { AreOf size self.new }
        ensures bytes { run_bytes from (length bytes.now / size) self.new ≡ bytes.now }
    {
        let mut rest = self.split_off(from);
        let mut at = 0;
        for j in 0..bytes.len() / size {
            let tail = rest.split_off(1);
            rest.overwrite(&bytes[at..at + size]);
            self.append(rest);
            rest = tail;
            at += size;
        }
        self.append(rest);
    }
}
