//! What the walks of the trees keep: whose each page is, and the segment before.

ghost use Rattle.std.specs.Prelude.{◌≡◌, ◌+◌, ◌<◌, ◌≤◌, length, take, drop, replicate};
ghost use Rattle.std.specs.Prelude.{◌++◌, [], None, IfOk};
ghost use Rattle.std.specs.Result.{result_err};
ghost use Rattle.geometry_model.specs.Numbers.{pages};
ghost use Rattle.image_check.specs.declared.owner.Owner.TheVariants.{Free};
ghost use Rattle.span_store.specs.Held.{Held};
ghost use Rattle.image_check.specs.Owners.{IsMarked, after_meeting, answer_of, is_number};
ghost use Rattle.image_check.specs.Owners.{owner_at, with_used};

use crate::failure::CheckFail;
use crate::owner::{FREE, NOBODY, Owner, owner_of};
use page_port::Geometry;
use std::alloc::{AllocError, Global};
use std::marker::Model;
use tree_model::Pair;

/// Whose each page of a store is, two bytes a page, and the last segment that was met in the object
/// that is walked.
#[derive(Drop)]
pub struct Walk {
    codes: Vec<u16>,
    before: Option<Pair>,
}

impl Model for Walk {
    ghost use Rattle.std.specs.Prelude.{map};
    ghost use Rattle.image_check.specs.Owners.{KeptWalk, owner_of};

    ghost Value = { KeptWalk };

    ghost view = { λ w. record { owners = map owner_of w.codes.items; before = w.before } };
}

impl Walk {
    /// A walk of a store whose pages are all free, so that none of them is held.
    pub fn new(alloc: Global, geometry: &Geometry) -> Result<Walk, AllocError>
        ensures owners { IfOk result (λ walk. walk.owners ≡ replicate (pages geometry.now) Free) }
        ensures before { IfOk result (λ walk. walk.before ≡ None) }
        ensures marked { (held : Held) → held.spans ≡ [] →
            IfOk result (λ walk. IsMarked geometry.now held walk) }
    {
        let codes = vec![in alloc; FREE; geometry.pages() as usize]?;
        Ok(Walk {
            codes,
            before: None,
        })
    }

    /// The `pages` pages from `first` on are used, and nobody's so far.
    pub(crate) fn mark_used(&mut self, first: u32, pages: u32)
        requires { first + pages ≤ length self.old.owners }
        ensures { self.new ≡ with_used self.old first pages }
    {
        put_run(&mut self.codes, first as usize, pages as usize, NOBODY);
    }

    /// Whose a page is.
    pub fn owner(&self, page: u32) -> Owner
        requires { page < length self.now.owners }
        ensures { result ≡ owner_at self.now page }
    {
        owner_of(self.codes[page as usize])
    }

    /// Gives a page that is used and nobody's to an object. A refusal changes nothing.
    pub(crate) fn meet(&mut self, page: u32, object: u16) -> Result<(), CheckFail>
        requires within { page < length self.old.owners }
        requires object { is_number object }
        ensures answer { result_err result ≡ answer_of page (owner_at self.old page) }
        ensures memory { result ≡ Err CheckFail.Memory → ⊥ }
        ensures fault { result ≡ Err CheckFail.Fault → ⊥ }
        ensures walk { self.new ≡ after_meeting page object self.old }
    {
        match self.owner(page) {
            Owner::Free => Err(CheckFail::PageFree { page }),
            Owner::Object(_) => Err(CheckFail::PageTwice { page }),
            Owner::Nobody => {
                self.codes[page as usize] = object;
                Ok(())
            }
        }
    }

    /// The segment before.
    pub(crate) fn before(&self) -> Option<Pair>
        ensures { result ≡ self.now.before }
    {
        self.before
    }

    /// The segment before is this one now.
    pub(crate) fn set_before(&mut self, before: Option<Pair>)
        ensures { self.new ≡ record self.old { before = before } }
    {
        self.before = before;
    }
}

/// Writes a code over a run.
fn put_run(codes: &mut Vec<u16>, first: usize, count: usize, code: u16)
    requires { first + count ≤ length codes.old.items }
    ensures { codes.new.items ≡ take first codes.old.items
        ++ (replicate count code ++ drop (first + count) codes.old.items) }
{
    put_first(&mut codes[first..], count, code);
}

/// Writes a code over the first ones.
fn put_first(codes: &mut [u16], count: usize, code: u16)
    requires { count ≤ length codes.old }
    ensures { codes.new ≡ replicate count code ++ drop count codes.old }
{
    codes[..count].fill(code);
}
