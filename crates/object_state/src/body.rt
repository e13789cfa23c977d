//! An object in a tree of segments, as a stored body.

ghost use Rattle.std.specs.Prelude.{true};
ghost use Rattle.moment_model.specs.Edit.{edited_slot};
ghost use Rattle.moment_model.specs.Version.{IsGood};
ghost use Rattle.object_body.specs.Form.{HaveLengths};
ghost use Rattle.object_state.specs.Fits.{may_stand};
ghost use Rattle.object_state.specs.Kind.{TreeMayRefuse, TreeMayWrite, tree_may_read};
ghost use Rattle.object_state.specs.Laws.{keeps-trees, refuses-trees, lengths-told};
ghost use Rattle.object_state.specs.Tree.{tree_form, tree_contents};

use crate::fits::fits;
use crate::tree_body::TreeBody;
use eos_ops::{Bytes, Edit, Outcome};
use object_body::{Body, EditFail, LookFail, Stored};
use page_port::{Geometry, Port};
use span_store::Holdings;
use std::alloc::Global;
use superdirectory::{Hints, Latches};
use tree_model::{Pair, Root};

impl<P: Port> Body for TreeBody<P> {
    type P = P;

    ghost form = { tree_form };

    ghost told = { tree_contents };

    ghost suits = { HaveLengths };

    ghost on_pages = { true };

    ghost good = { IsGood };

    ghost laid = { edited_slot };

    ghost may_refuse = { TreeMayRefuse };

    ghost may_write = { TreeMayWrite };

    ghost may_read = { tree_may_read };

    fn length(&self) -> Option<u64> {
        self.length()
    }

    fn read(&mut self, alloc: Global, port: &mut P, at: u64, len: u64) -> Result<Bytes, LookFail> {
        self.read(alloc, port, at, len)
    }

    fn edit<L: Latches<S = P::S>>(
        &mut self,
        alloc: Global,
        port: &mut P,
        latches: &mut L,
        turn: &mut L::Turn,
        start: u16,
        edit: &Edit,
    ) -> Result<Outcome, EditFail> {
        self.edit(alloc, port, latches, turn, start, edit)
    }

    fn settle<L: Latches<S = P::S>>(&mut self, latches: &mut L, turn: &mut L::Turn) {
        self.settle(latches, turn);
    }

    fn undo<L: Latches<S = P::S>>(&mut self, latches: &mut L, turn: &mut L::Turn) {
        self.undo(latches, turn);
    }

    ghost keeps_soundness = { keeps-trees };

    ghost refuses_taken = { refuses-trees };

    ghost lengths = { lengths-told };
}

impl<P: Port> Stored for TreeBody<P> {
    const KIND: u8 = 0;

    ghost may_stand = { may_stand };

    ghost pages = { λ b. b.held };

    ghost entry = { λ b. b.working };

    fn fits(
        geometry: &Geometry,
        threshold: u16,
        _index: u64,
        before: Option<&Pair>,
        pair: &Pair,
    ) -> bool {
        fits(geometry, threshold, before, pair)
    }

    fn take_pages(
        alloc: Global,
        geometry: &Geometry,
        threshold: u16,
        root: Option<Root>,
        held: &mut Option<Holdings<P::S>>,
    ) -> Option<TreeBody<P>> {
        TreeBody::take_pages(alloc, geometry, threshold, root, held)
    }

    fn root(&self) -> Option<Root> {
        self.root()
    }

    fn threshold(&self) -> u16 {
        self.threshold()
    }

    fn held(&self) -> &Holdings<P::S> {
        self.held()
    }

    fn unload(self) -> Holdings<P::S> {
        self.unload()
    }
}
