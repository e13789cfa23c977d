//! The object: what it keeps, how it is made of pages and taken apart, and the two ends of a
//! transaction.

ghost use Rattle.std.specs.Prelude.{◌≡◌, Option, Some, None, IsTrue, IsSome, IsNone, IfSome, true};
ghost use Rattle.eos_ops.specs.declared.edit.Edit.TheVariants.{Create, Destroy};
ghost use Rattle.eos_ops.specs.declared.outcome.Outcome.TheVariants.{Done};
ghost use Rattle.span_store.specs.Calls.{KeepsPages};
ghost use Rattle.object_body.specs.Calls.{IsBodyEnd, IsBodyRead, IsWithin};
ghost use Rattle.object_body.specs.Form.{AreTied, settled_form, settled_contents, undone_form};
ghost use Rattle.object_body.specs.Form.{NamesThreshold, undone_contents};
ghost use Rattle.object_body.specs.Lengths.{outcome_of};
ghost use Rattle.object_body.specs.Places.{IsReady};
ghost use Rattle.object_body.specs.Stored.{IsLoad, IsLoaded, IsKeeping, entry_of, root_in};
ghost use Rattle.object_body.specs.Stored.{threshold_in};
ghost use Rattle.object_state.specs.Edits.{MakesOnSpaces, MakesTreeEdit, tree_stage};
ghost use Rattle.object_state.specs.Fits.{may_stand};
ghost use Rattle.object_state.specs.Idle.{IsIdle};
ghost use Rattle.object_state.specs.Keeps.{KeepsTreeBody};
ghost use Rattle.object_state.specs.Kind.{tree_may_read};
ghost use Rattle.object_state.specs.Tree.{tree_form, tree_contents};
ghost use Rattle.object_body.specs.Form.{HaveLengths};

use crate::creating::given;
use crate::gathering::gather_unlocked;
use crate::give::{give_marked, give_spare, unlock_marked};
use crate::kept::Kept;
use crate::letting_go::let_go;
use crate::outcome::{is_idle, outcome};
use crate::reading::read_tree;
use eos_ops::{Bytes, Edit, Outcome};
use layout_model::Extent;
use object_body::{EditFail, LookFail};
use page_cache::Cache;
use page_port::{Geometry, Port};
use page_set::PageSet;
use span_store::Holdings;
use std::alloc::Global;
use std::marker::Model;
use superdirectory::{Hints, Latches};
use tree_model::Root;

/// How many nodes an object keeps in memory.
const KEPT_NODES: usize = 16;

/// An object whose bytes stand in a tree of segments on the pages that it holds. The working
/// version stands on pages of its own and on those of the committed one, which no edit writes. So
/// an end moves no byte: it gives pages back.
#[derive(Drop)]
pub struct TreeBody<P: Port> {
    pub(crate) alloc: Global,
    pub(crate) geometry: Geometry,
    pub(crate) committed: Kept,
    pub(crate) working: Kept,
    pub(crate) spare: Option<Extent>,
    pub(crate) held: Holdings<P::S>,
    pub(crate) cache: Cache,
    pub(crate) fresh: PageSet,
    pub(crate) locked: PageSet,
}

impl<P: Port> Model for TreeBody<P> {
    ghost use Rattle.object_body.specs.Stored.{entry_of};
    ghost use Rattle.object_state.specs.Keeps.{KeepsTreeBody};
    ghost use Rattle.object_state.specs.Tree.{TreeView};

    ghost Value = { TreeView };

    ghost view = { λ b. record {
      numbers = b.geometry;
      committed = entry_of b.committed.root b.committed.threshold;
      working = entry_of b.working.root b.working.threshold;
      spare = b.spare;
      held = b.held;
      cache = b.cache;
      fresh = b.fresh;
      locked = b.locked;
    } };

    ghost invariant = { λ b. KeepsTreeBody P.S.tells (record {
      numbers = b.geometry;
      committed = entry_of b.committed.root b.committed.threshold;
      working = entry_of b.working.root b.working.threshold;
      spare = b.spare;
      held = b.held;
      cache = b.cache;
      fresh = b.fresh;
      locked = b.locked;
    }) };
}

impl<P: Port> TreeBody<P> {
    /// What the type keeps. It does nothing: only who reads a field learns that.
    fn keeps_tree(&self)
        ensures { KeepsTreeBody P.S.tells self.now }
    {
        let _ = &self.held;
    }

    /// Makes an object at rest of the pages in `held`, which are taken out of it.
    ///
    /// None says that there was no memory: the pages stay.
    pub fn take_pages(
        alloc: Global,
        geometry: &Geometry,
        threshold: u16,
        root: Option<Root>,
        held: &mut Option<Holdings<P::S>>,
    ) -> Option<TreeBody<P>>
        requires some { IsSome held.old }
        requires load { IfSome held.old (IsLoad P.S.tells (may_stand geometry.now)
            geometry.now (entry_of root threshold)) }
        ensures loaded { IfSome result (λ body. IfSome held.old
            (λ was. IsLoaded P.S.tells geometry.now
            (entry_of root threshold) was (tree_form body) (tree_contents body) body.working
            body.held)) }
        ensures stays { IsNone result → IfSome held.old (λ was. IsSome held.new
            × IfSome held.new (KeepsPages was)) }
    {
        let _page = geometry.page();
        let Ok(cache) = Cache::new(alloc, KEPT_NODES) else {
            return None;
        };
        let held = held.take()?;
        let kept = Kept { root, threshold };
        Some(TreeBody {
            alloc,
            geometry: *geometry,
            committed: kept,
            working: kept,
            spare: None,
            held,
            cache,
            fresh: PageSet::new(alloc),
            locked: PageSet::new(alloc),
        })
    }

    /// The root of the working version, none where it is absent.
    pub fn root(&self) -> Option<Root>
        ensures { result ≡ root_in self.now.working }
    {
        self.working.root
    }

    /// The threshold of the working version in pages, 0 where it is absent.
    pub fn threshold(&self) -> u16
        ensures { result ≡ threshold_in self.now.working }
    {
        match self.working.root {
            Some(_) => self.working.threshold,
            None => 0,
        }
    }

    /// The pages that it holds.
    pub fn held(&self) -> &Holdings<P::S>
        ensures held { result.now ≡ self.now.held }
        ensures keeping { IsKeeping P.S.tells (tree_form self.now) (tree_contents self.now)
            self.now.working self.now.held }
    {
        self.keeps_tree();
        &self.held
    }

    /// Hands out all pages of an object at rest. It takes no memory.
    pub fn unload(self) -> Holdings<P::S>
        requires rests { (tree_form self).is_resting ≡ true }
        ensures held { result ≡ self.held }
        ensures keeping { IsKeeping P.S.tells (tree_form self) (tree_contents self) self.working
            self.held }
    {
        self.keeps_tree();
        self.held
    }

    /// The length of the working version in bytes, none where it is absent.
    pub fn length(&self) -> Option<u64>
        ensures length { result ≡ (tree_form self.now).working }
        ensures tied { IsTrue P.S.tells → AreTied HaveLengths (tree_form self.now)
            (tree_contents self.now) }
    {
        self.keeps_tree();
        // A store's pages have bytes.
        let _page = self.geometry.page();
        match self.working.root {
            Some(root) => Some(root.length),
            None => None,
        }
    }

    /// The `len` bytes of the working version from `at` on.
    ///
    /// # Errors
    /// `Fault`, and `Memory` if bytes are asked for. Both versions are as before, whatever the
    /// answer.
    pub fn read(
        &mut self,
        alloc: Global,
        port: &mut P,
        at: u64,
        len: u64,
    ) -> Result<Bytes, LookFail>
        requires page { (P.meter port.old).page ≡ (tree_form self.old).numbers.page }
        requires within { IsWithin (tree_form self.old).working at len }
        ensures read { IsBodyRead P.S.tells HaveLengths tree_may_read at len result
            (tree_form self.old) (tree_form self.new) (tree_contents self.old)
            (tree_contents self.new) (P.meter port.old) (P.meter port.new) }
    {
        let _page = self.geometry.page();
        let Some(root) = self.working.root else {
            unreachable!()
        };
        read_tree(
            alloc,
            &self.geometry,
            &root,
            &self.held,
            &mut self.cache,
            port,
            at,
            len,
        )
    }

    /// Makes an absent object one of no byte, of this threshold or else of the store's. It asks for
    /// no page, and takes no memory.
    pub fn create(&mut self, threshold: Option<u32>) -> Outcome
        requires { NamesThreshold (Create threshold) }
        ensures { MakesTreeEdit P.S.tells (Create threshold) result self.old self.new }
    {
        let _page = self.geometry.page();
        if self.working.root.is_some() {
            return Outcome::Exists;
        }
        let threshold = given(&self.geometry, threshold);
        let root = Root {
            height: 0,
            page: 0,
            length: 0,
        };
        self.working = Kept {
            root: Some(root),
            threshold,
        };
        Outcome::Done
    }

    /// What becomes of an edit that leaves the object as it is: one that isn't made, or that removes
    /// nothing and brings nothing. None says that the edit is made and changes the object.
    pub fn stays(&self, edit: &Edit) -> Option<Outcome>
        ensures stays { IfSome result (λ outcome.
            MakesTreeEdit P.S.tells edit.now outcome self.now self.now) }
        ensures made { IsNone result →
            outcome_of edit.now (tree_form self.now).working ≡ Done }
        ensures changes { IsNone result → IsIdle edit.now → ⊥ }
    {
        let _page = self.geometry.page();
        let outcome = outcome(edit, self.length());
        if outcome != Outcome::Done {
            return Some(outcome);
        }
        if is_idle(edit) {
            return Some(Outcome::Done);
        }
        None
    }

    /// Destroys the object: its pages that the committed version uses are locked, and the others go
    /// back. No other edit goes through all spans that it holds.
    ///
    /// # Errors
    /// `Memory`. Both versions are as before.
    pub fn destroy<L: Latches<S = P::S>>(
        &mut self,
        alloc: Global,
        latches: &mut L,
        turn: &mut L::Turn,
    ) -> Result<Outcome, EditFail>
        requires ready { IsReady (tree_form self.old).numbers (L.rest latches.old) }
        ensures { MakesOnSpaces P.S.tells Destroy result
            (tree_stage self.old (L.rest latches.old) (L.trace latches.old))
            (tree_stage self.new (L.rest latches.new) (L.trace latches.new)) }
    {
        let _page = self.geometry.page();
        if self.working.root.is_none() {
            return Ok(Outcome::Missing);
        }
        let Ok(mut gone) = gather_unlocked(alloc, &self.geometry, &self.held, &mut self.locked)
        else {
            return Err(EditFail::Memory);
        };
        let_go(
            &self.geometry,
            &mut self.held,
            &mut self.cache,
            latches,
            turn,
            &mut self.fresh,
            &mut self.locked,
            &mut gone,
        );
        self.working = Kept {
            root: None,
            threshold: 0,
        };
        self.spare = None;
        Ok(Outcome::Done)
    }

    /// Makes the working version the committed one, and gives back the pages that the old one alone
    /// used, and those behind the last segment. It takes no memory.
    pub fn settle<L: Latches<S = P::S>>(&mut self, latches: &mut L, turn: &mut L::Turn)
        requires ready { IsReady (tree_form self.old).numbers (L.rest latches.old) }
        ensures end { IsBodyEnd P.S.tells HaveLengths (settled_form (tree_form self.old))
            (settled_contents (tree_contents self.old))
            (record {
              form = tree_form self.old;
              told = tree_contents self.old;
              rest = L.rest latches.old;
              trace = L.trace latches.old;
            })
            (record {
              form = tree_form self.new;
              told = tree_contents self.new;
              rest = L.rest latches.new;
              trace = L.trace latches.new;
            }) }
    {
        let _page = self.geometry.page();
        let spare = self.spare.take();
        give_spare(
            &self.geometry,
            &mut self.held,
            &mut self.cache,
            latches,
            turn,
            spare,
        );
        give_marked(
            &self.geometry,
            &mut self.held,
            &mut self.cache,
            latches,
            turn,
            &mut self.locked,
        );
        self.committed = self.working;
        self.fresh = PageSet::new(self.alloc);
        self.locked = PageSet::new(self.alloc);
    }

    /// Makes the committed version the working one again, and gives back the pages that the old one
    /// alone used, and those behind the last segment. It takes no memory.
    pub fn undo<L: Latches<S = P::S>>(&mut self, latches: &mut L, turn: &mut L::Turn)
        requires ready { IsReady (tree_form self.old).numbers (L.rest latches.old) }
        ensures end { IsBodyEnd P.S.tells HaveLengths (undone_form (tree_form self.old))
            (undone_contents (tree_contents self.old))
            (record {
              form = tree_form self.old;
              told = tree_contents self.old;
              rest = L.rest latches.old;
              trace = L.trace latches.old;
            })
            (record {
              form = tree_form self.new;
              told = tree_contents self.new;
              rest = L.rest latches.new;
              trace = L.trace latches.new;
            }) }
    {
        let _page = self.geometry.page();
        give_marked(
            &self.geometry,
            &mut self.held,
            &mut self.cache,
            latches,
            turn,
            &mut self.fresh,
        );
        unlock_marked(&self.geometry, latches, turn, &mut self.locked);
        self.working = self.committed;
        self.spare = None;
        self.fresh = PageSet::new(self.alloc);
        self.locked = PageSet::new(self.alloc);
    }
}
