//! The spaces of one thread. They are reached without locks, and their hints are exact.

ghost use Rattle.std.specs.Prelude.{◌≡◌, ℕ, ◌<◌, ◌≤◌, ◌++◌, ◌∷◌, [], length, map, slice_get, IfOk};
ghost use Rattle.std.specs.Prelude.{IfErr, Some, None, vec_len, vec_capacity};
ghost use Rattle.std.specs.List.{swap};
ghost use Rattle.block_model.specs.Place.{hint_of};
ghost use Rattle.space_directory.specs.SpaceView.{SpaceView, IsSpace};
ghost use Rattle.superdirectory.specs.Solo.{AreAlike, rest_of, solo_of};

use crate::hint::Hint;
use crate::latches::{Hints, Latches};
use page_port::Span;
use space_directory::Space;
use std::alloc::{AllocError, Global};
use std::marker::Model;

/// The spaces of one thread, with exact hints. While a space is away, entered, the last one stands
/// in its place.
#[derive(Drop)]
pub struct Solo<S: Span> {
    page: u32,
    pages: u32,
    firsts: Vec<u32>,
    hints: Vec<Hint>,
    spaces: Vec<Space<S>>,
    entered: Option<u16>,
}

impl<S: Span> Model for Solo<S> {
    ghost use Rattle.std.specs.Prelude.{◌≡◌, ◌<◌, ℕ, map, Some, vec_len, vec_capacity};
    ghost use Rattle.superdirectory.specs.Solo.{SoloView, AreSoloSpaces, spaces_of};

    ghost Value = { SoloView };

    ghost view = { λ s. record {
      page = s.page;
      pages = s.pages;
      firsts = s.firsts.items;
      spaces = spaces_of s.entered s.spaces.items;
      hints = map (λ hint. hint.0) s.hints.items;
      entered = s.entered;
    } };

    ghost invariant = { λ s. AreSoloSpaces (record {
      page = s.page;
      pages = s.pages;
      firsts = s.firsts.items;
      spaces = spaces_of s.entered s.spaces.items;
      hints = map (λ hint. hint.0) s.hints.items;
      entered = s.entered;
    }) × ((at : ℕ) → s.entered ≡ Some at → vec_len s.spaces < vec_capacity s.spaces) };
}

impl<S: Span> Solo<S> {
    /// Takes over the spaces: 1 to 256 of them, in the order of their numbers, of one order and one
    /// page size.
    ///
    /// # Errors
    /// There was no memory. The spaces are handed back.
    pub fn new(alloc: Global, spaces: Vec<Space<S>>) -> Result<Solo<S>, Vec<Space<S>>>
        requires some { 1 ≤ length spaces.items }
        requires most { length spaces.items ≤ 256 }
        requires alike { (page : ℕ) × (pages : ℕ) × AreAlike page pages spaces.items }
        ensures told { IfOk result (λ solo. (page pages : ℕ) → AreAlike page pages spaces.items
            → solo ≡ solo_of page pages spaces.items) }
        ensures refused { IfErr result (λ back. back.items ≡ spaces.items) }
    {
        let Ok(firsts) = firsts_of(alloc, &spaces) else {
            return Err(spaces);
        };
        let Ok(hints) = hints_of(alloc, &spaces) else {
            return Err(spaces);
        };
        Ok(Solo {
            page: spaces[0].page_size(),
            pages: spaces[0].pages(),
            firsts,
            hints,
            spaces,
            entered: None,
        })
    }

    /// Gives the spaces back, in the order of their numbers. It takes no memory.
    pub fn finish(self) -> Vec<Space<S>>
        requires { self.entered ≡ None }
        ensures { map Some result.items ≡ self.spaces }
    {
        self.spaces
    }
}

impl<S: Span> Hints for Solo<S> {
    ghost trace = { λ _. None };

    ghost hints = { λ solo. Some solo.hints };

    ghost rest = { rest_of };

    fn spaces(&self) -> u16 {
        self.firsts.len() as u16
    }

    fn look(&mut self, s: u16) -> Hint {
        self.hints[s as usize]
    }
}

impl<S: Span> Latches for Solo<S> {
    type S = S;

    type Turn = ();

    fn enter(&mut self, _turn: &mut (), s: u16) -> Space<S> {
        self.entered = Some(s);
        self.spaces.swap_remove(s as usize)
    }

    fn take_back(&mut self, s: u16, space: &mut Option<Space<S>>) {
        let space = space.take().unwrap();
        self.hints[s as usize] = Hint::of(space.as_ref());
        self.entered = None;
        put_back(&mut self.spaces, s as usize, space);
    }
}

/// Puts an element at its place, and the one that stood there last.
fn put_back<T>(items: &mut Vec<T>, at: usize, item: T)
    requires within { at ≤ vec_len items.old }
    requires room { vec_len items.old < vec_capacity items.old }
    ensures { items.new.items ≡ swap (items.old.items ++ item ∷ []) at (length items.old.items) }
{
    let last = items.len();
    items.push_reserved(item);
    items.swap(at, last);
}

/// The hints of spaces, in order.
fn hints_of<S: Span>(alloc: Global, spaces: &[Space<S>]) -> Result<Vec<Hint>, AllocError>
    ensures hints { IfOk result (λ hints. map (λ hint. hint.0) hints.items
        ≡ map (λ v. hint_of v.free) spaces.now) }
    ensures spaces { IfOk result (λ _. (s : ℕ) (v : SpaceView) → slice_get spaces.now s ≡ Some v →
        IsSpace v) }
{
    let mut hints = Vec::with_capacity(alloc, spaces.len())?;
    for space in spaces {
        hints.push_reserved(Hint::of(space.as_ref()));
    }
    Ok(hints)
}

/// The first page of each of the spaces, in order.
fn firsts_of<S: Span>(alloc: Global, spaces: &[Space<S>]) -> Result<Vec<u32>, AllocError>
    ensures { IfOk result (λ firsts. firsts.items ≡ map (λ v. v.first) spaces.now) }
{
    let mut firsts = Vec::with_capacity(alloc, spaces.len())?;
    for space in spaces {
        firsts.push_reserved(space.first());
    }
    Ok(firsts)
}
