//! An object of no byte whose versions own a page each, as a body.

ghost use Rattle.std.specs.Prelude.{◌≡◌, ◌<◌, ℕ, Option, None, Ok, Err, true, false, is_some};
ghost use Rattle.std.specs.Prelude.{IsTrue, option_map, ◌&&◌};
ghost use Rattle.eos_ops.specs.declared.edit.Edit.TheVariants as edit_view;
ghost use Rattle.superdirectory.specs.Rest.{count};
ghost use Rattle.object_body.specs.Calls.{Stage, IsEdit};
ghost use Rattle.object_body.specs.Places.{IsReady};
ghost use Rattle.object_body.specs.Form.{HaveLengths};
ghost use Rattle.object_body.specs.Memory.{EditMayTakeMemory};
ghost use Rattle.body_double.specs.Laws.{keeps-page, refuses-page, lengths-told};
ghost use Rattle.body_double.specs.Page.{page_form, page_contents, working_page, lays_page, Places};
ghost use Rattle.body_double.specs.Page.{IsPageTree, is_create, plain_if};

use crate::creates::creates;
use crate::owned::{ask, drop_page, give_back, unlock};
use eos_ops::{Bytes, Edit, Outcome, Plain};
use object_body::{Body, EditFail, LookFail};
use page_port::{Geometry, Port, Span};
use space_directory::Segment;
use std::alloc::Global;
use std::marker::Model;
use superdirectory::{Hints, Latches};

/// An object of no byte, each version of which stands on one page. Whoever creates it is granted a
/// page, or has the committed one again, and an `append` of no byte moves it to another one. The
/// committed page is locked once the working version has left it, and goes back when the
/// transaction is settled; a fresh one goes back when it is undone. Edits and reads that bring,
/// take or ask for bytes are answered as want of memory.
#[derive(Drop)]
pub struct PageBody<P: Port> {
    geometry: Geometry,
    committed: Option<Segment<P::S>>,
    fresh: Option<Segment<P::S>>,
    dropped: bool,
}

impl<P: Port> Model for PageBody<P> {
    ghost use Rattle.std.specs.Prelude.{option_map};
    ghost use Rattle.body_double.specs.Page.{PageView, IsHolding};

    ghost Value = { PageView };

    ghost view = { λ b. record {
      numbers = b.geometry;
      committed = option_map (λ g. record { space = g.space; first = P.S.start g.span; pages = P.S.contents g.span }) b.committed;
      fresh = option_map (λ g. record { space = g.space; first = P.S.start g.span; pages = P.S.contents g.span }) b.fresh;
      dropped = b.dropped;
    } };

    ghost invariant = { λ b. IsHolding P.S.tells (record {
      numbers = b.geometry;
      committed = option_map (λ g. record { space = g.space; first = P.S.start g.span; pages = P.S.contents g.span }) b.committed;
      fresh = option_map (λ g. record { space = g.space; first = P.S.start g.span; pages = P.S.contents g.span }) b.fresh;
      dropped = b.dropped;
    }) };
}

impl<P: Port> PageBody<P> {
    /// An absent object, at rest.
    pub fn new(geometry: &Geometry) -> PageBody<P>
        ensures { result ≡ record {
          numbers = geometry.now;
          committed = None;
          fresh = None;
          dropped = false;
        } }
    {
        PageBody {
            geometry: *geometry,
            committed: None,
            fresh: None,
            dropped: false,
        }
    }
}

impl<P: Port> Body for PageBody<P> {
    type P = P;

    ghost form = { page_form };

    ghost told = { page_contents };

    ghost suits = { HaveLengths };

    ghost on_pages = { true };

    ghost good = { IsPageTree };

    ghost laid = { lays_page };

    ghost may_refuse = { λ n slot pages. pages ≡ 1 };

    ghost may_write = { λ n old edit new pages. pages ≡ 0 };

    ghost may_read = { λ n slot bytes pages. pages ≡ 0 };

    fn length(&self) -> Option<u64> {
        if is_there(&self.committed, &self.fresh, self.dropped) {
            Some(0)
        } else {
            None
        }
    }

    fn read(
        &mut self,
        alloc: Global,
        _port: &mut P,
        _at: u64,
        len: u64,
    ) -> Result<Bytes, LookFail> {
        if len == 0 {
            return Ok(Bytes::new(alloc));
        }
        Err(LookFail::Memory)
    }

    fn edit<L: Latches<S = P::S>>(
        &mut self,
        alloc: Global,
        _port: &mut P,
        latches: &mut L,
        turn: &mut L::Turn,
        start: u16,
        edit: &Edit,
    ) -> Result<Outcome, EditFail> {
        let there = is_there(&self.committed, &self.fresh, self.dropped);
        let outcome = edit.outcome(&plain(alloc, there));
        if outcome != Outcome::Done {
            return Ok(outcome);
        }
        if let Edit::Destroy = edit {
            drop_page(
                latches,
                turn,
                &mut self.fresh,
                &self.committed,
                self.dropped,
            );
            self.dropped = true;
            return Ok(Outcome::Done);
        }
        if comes_back(edit, &self.committed) {
            unlock(latches, turn, &self.committed);
            self.dropped = false;
            return Ok(Outcome::Done);
        }
        if !asks(edit) {
            return Err(EditFail::Memory);
        }
        let page = match ask(latches, turn, start, &self.committed, &self.fresh) {
            Ok(page) => page,
            Err(fail) => return Err(fail),
        };
        drop_page(
            latches,
            turn,
            &mut self.fresh,
            &self.committed,
            self.dropped,
        );
        self.fresh = Some(page);
        self.dropped = true;
        Ok(Outcome::Done)
    }

    fn settle<L: Latches<S = P::S>>(&mut self, latches: &mut L, turn: &mut L::Turn) {
        if self.dropped {
            let old = self.committed.take();
            self.committed = self.fresh.take();
            self.dropped = false;
            give_back(latches, turn, old);
            return;
        }
    }

    fn undo<L: Latches<S = P::S>>(&mut self, latches: &mut L, turn: &mut L::Turn) {
        if self.dropped {
            let fresh = self.fresh.take();
            self.dropped = false;
            give_back(latches, turn, fresh);
            unlock(latches, turn, &self.committed);
            return;
        }
    }

    ghost keeps_soundness = { keeps-page };

    ghost refuses_taken = { refuses-page };

    ghost lengths = { lengths-told };
}

/// An object that is there or not.
fn plain(alloc: Global, there: bool) -> Plain
    ensures { result ≡ plain_if there }
{
    if there {
        return Plain::Present(Bytes::new(alloc));
    }
    Plain::Absent
}

/// Has the working version a page?
fn is_there<S: Span>(
    committed: &Option<Segment<S>>,
    fresh: &Option<Segment<S>>,
    dropped: bool,
) -> bool
    ensures { result ≡ is_some (working_page
        (option_map (λ g. record {
          space = g.space;
          first = S.start g.span;
          pages =
              S.contents g.span;
        }) committed.now)
        (option_map (λ g. record {
          space = g.space;
          first = S.start g.span;
          pages =
              S.contents g.span;
        }) fresh.now)
        dropped) }
{
    match fresh {
        Some(_) => true,
        None => !dropped && committed.is_some(),
    }
}

/// Does the edit make the object anew whose committed version has a page?
fn comes_back<S: Span>(edit: &Edit, committed: &Option<Segment<S>>) -> bool
    ensures { result ≡ (is_create edit.now && is_some committed.now) }
{
    creates(edit) && committed.is_some()
}

/// Does the edit ask for a page: is it a `create`, or an `append` of no byte?
fn asks(edit: &Edit) -> bool
    ensures asks { IsTrue result → Places edit.now }
    ensures memory { result ≡ false → EditMayTakeMemory edit.now }
{
    match edit {
        Edit::Create { .. } => true,
        Edit::Append(bytes) => bytes.is_empty(),
        _ => false,
    }
}
