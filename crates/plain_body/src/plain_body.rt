//! An object that is a byte string in memory, as a body.

ghost use Rattle.std.specs.Prelude.{◌≡◌, None, Some, IfOk, OnErr, Ok, false};
ghost use Rattle.eos_ops.specs.Edits.{outcome_in, edited};
ghost use Rattle.object_body.specs.Form.{any_tree};
ghost use Rattle.object_body.specs.Memory.{EditMayTakeMemory};
ghost use Rattle.plain_body.specs.Kind.{plain_form, plain_contents, working_plain, HasNoPage};
ghost use Rattle.plain_body.specs.Kind.{lays_nothing};
ghost use Rattle.plain_body.specs.Laws.{keeps-nothing, refuses-nothing, no-lengths};

use crate::copy::edited_copy;
use eos_ops::{Bytes, Edit, Outcome, Plain, apply_plain};
use object_body::{Body, EditFail, LookFail};
use page_port::{Geometry, Port};
use std::alloc::{AllocError, Global};
use std::marker::PhantomData;
use superdirectory::{Hints, Latches};

/// A byte string in two versions, which asks for no page and touches no port.
///
/// Without a working version the two are equal, so both ends of a transaction move and take no
/// memory.
#[derive(Drop)]
pub struct PlainBody<P> {
    geometry: Geometry,
    committed: Plain,
    working: Option<Plain>,
    port: PhantomData<P>,
}

impl<P: Port> PlainBody<P> {
    /// An object at rest, for a store of this geometry.
    pub fn new(geometry: &Geometry, object: Plain) -> PlainBody<P>
        ensures committed { result.committed ≡ object }
        ensures working { result.working ≡ None }
        ensures geometry { result.geometry ≡ geometry.now }
    {
        PlainBody {
            geometry: *geometry,
            committed: object,
            working: None,
            port: PhantomData,
        }
    }

    /// The working version.
    fn current(&self) -> &Plain
        ensures { result.now ≡ working_plain self.now.committed self.now.working }
    {
        match &self.working {
            Some(working) => working,
            None => &self.committed,
        }
    }
}

impl<P: Port> Body for PlainBody<P> {
    type P = P;

    ghost form = { λ b. plain_form b.geometry b.committed b.working };

    ghost told = { λ b. plain_contents b.committed b.working };

    ghost suits = { HasNoPage };

    ghost on_pages = { false };

    ghost good = { any_tree };

    ghost laid = { lays_nothing };

    ghost may_refuse = { λ n slot pages. ⊥ };

    ghost may_write = { λ n old edit new pages. pages ≡ 0 };

    ghost may_read = { λ n slot bytes pages. pages ≡ 0 };

    fn length(&self) -> Option<u64> {
        match self.current() {
            Plain::Absent => None,
            Plain::Present(bytes) => Some(bytes.len()),
        }
    }

    fn read(&mut self, alloc: Global, _port: &mut P, at: u64, len: u64) -> Result<Bytes, LookFail> {
        let Plain::Present(bytes) = self.current() else {
            unreachable!()
        };
        match bytes.read(alloc, at, len) {
            Ok(copy) => Ok(copy),
            Err(_) => Err(LookFail::Memory),
        }
    }

    fn edit<L: Latches<S = P::S>>(
        &mut self,
        alloc: Global,
        _port: &mut P,
        _latches: &mut L,
        _turn: &mut L::Turn,
        _start: u16,
        edit: &Edit,
    ) -> Result<Outcome, EditFail> {
        match change(alloc, &self.committed, &mut self.working, edit) {
            Ok(outcome) => Ok(outcome),
            Err(_) => Err(EditFail::Memory),
        }
    }

    fn settle<L: Latches<S = P::S>>(&mut self, _latches: &mut L, _turn: &mut L::Turn) {
        if let Some(working) = self.working.take() {
            self.committed = working;
        }
    }

    fn undo<L: Latches<S = P::S>>(&mut self, _latches: &mut L, _turn: &mut L::Turn) {
        self.working = None;
    }

    ghost keeps_soundness = { keeps-nothing };

    ghost refuses_taken = { refuses-nothing };

    ghost lengths = { no-lengths };
}

/// Edits the working version alone, which is made by the first edit. After any answer but `Done`
/// nothing has changed.
fn change(
    alloc: Global,
    committed: &Plain,
    working: &mut Option<Plain>,
    edit: &Edit,
) -> Result<Outcome, AllocError>
    ensures outcome { IfOk result
        (λ outcome. outcome ≡ outcome_in edit.now (working_plain committed.now working.old)) }
    ensures done { result ≡ Ok Outcome.Done
        → working.new ≡ Some (edited edit.now (working_plain committed.now working.old)) }
    ensures unmade { IfOk result
        (λ outcome. (outcome ≡ Outcome.Done → ⊥) → working.new ≡ working.old) }
    ensures memory { OnErr result (EditMayTakeMemory edit.now) }
    ensures err { OnErr result (working.new ≡ working.old) }
{
    if let Some(object) = working {
        return apply_plain(alloc, edit, object);
    }
    let outcome = edit.outcome(committed);
    if outcome == Outcome::Done {
        *working = Some(edited_copy(alloc, edit, committed)?);
    }
    Ok(outcome)
}
