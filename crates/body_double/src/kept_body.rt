//! An object that is made of the pages of a tree and keeps its bytes, as a stored body.

ghost use Rattle.std.specs.Prelude.{◌≡◌, ◌||◌, true, is_some};
ghost use Rattle.object_body.specs.Form.{HaveLengths, any_tree};
ghost use Rattle.body_double.specs.Kept.{KeepsTree, kept_form, kept_contents, lays_kept, fits_all};
ghost use Rattle.body_double.specs.Kept.{working_entry};
ghost use Rattle.body_double.specs.Laws.{keeps-kept, refuses-no-kept, lengths-told};

use crate::creates::creates;
use eos_ops::{Bytes, Edit, Outcome};
use object_body::{Body, EditFail, LookFail, Stored};
use page_port::{Geometry, Port};
use span_store::Holdings;
use std::alloc::Global;
use std::marker::Model;
use superdirectory::{Hints, Latches};
use tree_model::{Pair, Root};

/// An object whose bytes stand in a tree on the pages that it holds. An absent one can be created,
/// without a byte; each other edit, and each read of bytes, is answered as want of memory.
#[derive(Drop)]
pub struct KeptBody<P: Port> {
    geometry: Geometry,
    threshold: u16,
    root: Option<Root>,
    created: bool,
    held: Holdings<P::S>,
}

impl<P: Port> Model for KeptBody<P> {
    ghost use Rattle.object_body.specs.Stored.{entry_of};
    ghost use Rattle.body_double.specs.Kept.{KeptView, KeepsTree};

    ghost Value = { KeptView };

    ghost view = { λ b. record {
      numbers = b.geometry;
      entry = entry_of b.root b.threshold;
      created = b.created;
      held = b.held;
    } };

    ghost invariant = { λ b. KeepsTree P.S.tells (record {
      numbers = b.geometry;
      entry = entry_of b.root b.threshold;
      created = b.created;
      held = b.held;
    }) };
}

/// The root of a tree without a byte, which has no page.
fn empty_root() -> Root
    ensures { result ≡ record { height = 0; page = 0; length = 0 } }
{
    Root {
        height: 0,
        page: 0,
        length: 0,
    }
}

/// Is the working version there: has an edit created it, or has it a root?
fn is_there(root: &Option<Root>, created: bool) -> bool
    ensures { result ≡ (created || is_some root.now) }
{
    created || root.is_some()
}

impl<P: Port> KeptBody<P> {
    /// What the type keeps of its pages. It does nothing: only who reads a field learns that.
    fn keeps_tree(&self)
        ensures { KeepsTree P.S.tells self.now }
    {
        let _ = &self.held;
    }
}

impl<P: Port> Body for KeptBody<P> {
    type P = P;

    ghost form = { kept_form };

    ghost told = { kept_contents };

    ghost suits = { HaveLengths };

    ghost on_pages = { true };

    ghost good = { any_tree };

    ghost laid = { lays_kept };

    ghost may_refuse = { λ n slot pages. ⊥ };

    ghost may_write = { λ n old edit new pages. pages ≡ 0 };

    ghost may_read = { λ n slot bytes pages. pages ≡ 0 };

    fn length(&self) -> Option<u64> {
        self.keeps_tree();
        if self.created {
            return Some(0);
        }
        match self.root {
            Some(root) => Some(root.length),
            None => None,
        }
    }

    fn read(
        &mut self,
        alloc: Global,
        _port: &mut P,
        _at: u64,
        len: u64,
    ) -> Result<Bytes, LookFail> {
        self.keeps_tree();
        if len == 0 {
            return Ok(Bytes::new(alloc));
        }
        Err(LookFail::Memory)
    }

    fn edit<L: Latches<S = P::S>>(
        &mut self,
        _alloc: Global,
        _port: &mut P,
        _latches: &mut L,
        _turn: &mut L::Turn,
        _start: u16,
        edit: &Edit,
    ) -> Result<Outcome, EditFail> {
        self.keeps_tree();
        if !creates(edit) {
            return Err(EditFail::Memory);
        }
        if is_there(&self.root, self.created) {
            return Ok(Outcome::Exists);
        }
        self.created = true;
        Ok(Outcome::Done)
    }

    fn settle<L: Latches<S = P::S>>(&mut self, _latches: &mut L, _turn: &mut L::Turn) {
        self.keeps_tree();
        if self.created {
            self.root = Some(empty_root());
            self.threshold = 1;
            self.created = false;
        }
    }

    fn undo<L: Latches<S = P::S>>(&mut self, _latches: &mut L, _turn: &mut L::Turn) {
        self.keeps_tree();
        self.created = false;
    }

    ghost keeps_soundness = { keeps-kept };

    ghost refuses_taken = { refuses-no-kept };

    ghost lengths = { lengths-told };
}

impl<P: Port> Stored for KeptBody<P> {
    const KIND: u8 = 0;

    ghost may_stand = { fits_all };

    ghost pages = { λ v. v.held };

    ghost entry = { λ v. working_entry v.entry v.created };

    fn fits(
        _geometry: &Geometry,
        _threshold: u16,
        _index: u64,
        _before: Option<&Pair>,
        _pair: &Pair,
    ) -> bool {
        true
    }

    fn take_pages(
        _alloc: Global,
        geometry: &Geometry,
        threshold: u16,
        root: Option<Root>,
        held: &mut Option<Holdings<P::S>>,
    ) -> Option<Self> {
        let _page = geometry.page();
        let held = held.take()?;
        Some(KeptBody {
            geometry: *geometry,
            threshold,
            root,
            created: false,
            held,
        })
    }

    fn root(&self) -> Option<Root> {
        if self.created {
            return Some(empty_root());
        }
        self.root
    }

    fn threshold(&self) -> u16 {
        if self.created {
            return 1;
        }
        match self.root {
            Some(_) => self.threshold,
            None => 0,
        }
    }

    fn held(&self) -> &Holdings<P::S> {
        self.keeps_tree();
        &self.held
    }

    fn unload(self) -> Holdings<P::S> {
        self.keeps_tree();
        self.held
    }
}
