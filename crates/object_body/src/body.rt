//! The contract of a stored object: two versions, edits that reach the pages of the store, and
//! ends.

ghost use Rattle.std.specs.Prelude.{◌≡◌, ℕ, ◌<◌, ◌≤◌, Bool, IsTrue, option_map, true};
ghost use Rattle.eos_ops.specs.declared.edit.Edit.{Edit as EditView};
ghost use Rattle.geometry_model.specs.Numbers.{Numbers};
ghost use Rattle.layout_model.specs.Layout.{Tree};
ghost use Rattle.moment_model.specs.Moment.{ObjectSlot};
ghost use Rattle.moment_model.specs.Run.{Lays};
ghost use Rattle.soundness_laws.specs.Keeping.{KeepsSoundness};
ghost use Rattle.superdirectory.specs.Rest.{count};
ghost use Rattle.object_body.specs.Calls.{Stage, IsEdit, IsBodyEnd, IsBodyRead, IsWithin};
ghost use Rattle.object_body.specs.Calls.{RefusesTaken};
ghost use Rattle.object_body.specs.Form.{Form, Contents, AreTied, NamesThreshold, settled_form};
ghost use Rattle.object_body.specs.Form.{settled_contents, undone_form, undone_contents};
ghost use Rattle.object_body.specs.Form.{HaveLengthsBy};
ghost use Rattle.object_body.specs.Places.{IsReady};

use crate::fails::{EditFail, LookFail};
use eos_ops::{Bytes, Edit, Outcome};
use page_port::Port;
use std::alloc::Global;
use superdirectory::{Hints, Latches};

/// A stored object in two versions: the committed one, and the working one, which edits change.
/// Over a device that tells its bytes the clauses say which bytes and pages both have.
///
/// The spaces that a call is given are those of the store that the object is made for.
pub trait Body: Drop {
    /// The ports whose device it lies on.
    type P: Port;

    // What it shows over every device, and over one that tells.
    ghost form: { Self → Form };

    ghost told: { Self → Contents };

    // What this kind of object says of the slot and the bytes of one object.
    ghost suits: { Contents → Type 0 };

    // Does its slot stand for the pages on which the bytes lie? That of one in memory doesn't.
    ghost on_pages: { Bool };

    // The rule by which a tree is a good one of this kind.
    ghost good: { Numbers → Tree → Type 0 };

    // How an edit of this kind of object is laid out on free pages, from a space on and around.
    ghost laid: { Lays };

    // How many pages an edit may be refused, and write, and how many a read of so many bytes may
    // read.
    ghost may_refuse: { Numbers → ObjectSlot → ℕ → Type 0 };

    ghost may_write: { Numbers → ObjectSlot → EditView → ObjectSlot → ℕ → Type 0 };

    ghost may_read: { Numbers → ObjectSlot → ℕ → ℕ → Type 0 };

    /// The length of the working version in bytes, none where it is absent.
    fn length(&self) -> Option<u64>
        ensures length { result ≡ (form self.now).working }
        ensures tied { IsTrue Self.P.S.tells → AreTied suits (form self.now) (told self.now) };

    /// The `len` bytes of the working version from `at` on.
    ///
    /// # Errors
    /// `Fault`, and `Memory` if bytes are asked for. Both versions are as before, whatever the
    /// answer.
    fn read(
        &mut self,
        alloc: Global,
        port: &mut Self::P,
        at: u64,
        len: u64,
    ) -> Result<Bytes, LookFail>
        requires page { (Self.P.meter port.old).page ≡ (form self.old).numbers.page }
        requires within { IsWithin (form self.old).working at len }
        ensures read { IsBodyRead Self.P.S.tells suits may_read at len result (form self.old)
            (form self.new) (told self.old) (told self.new) (Self.P.meter port.old)
            (Self.P.meter port.new) };

    /// Edits the working version, and says what became of the edit. Pages are asked for from space
    /// `start` on and around.
    ///
    /// # Errors
    /// `NoSpace`, `Fault`, and `Memory` if it isn't a `create`. The object, the free pages and the
    /// locked ones are as before.
    fn edit<L: Latches<S = <Self::P as Port>::S>>(
        &mut self,
        alloc: Global,
        port: &mut Self::P,
        latches: &mut L,
        turn: &mut L::Turn,
        start: u16,
        edit: &Edit,
    ) -> Result<Outcome, EditFail>
        requires page { (Self.P.meter port.old).page ≡ (form self.old).numbers.page }
        requires ready { IsReady (form self.old).numbers (L.rest latches.old) }
        requires start { start < count (L.rest latches.old) }
        requires threshold { NamesThreshold edit.now }
        ensures edit { IsEdit Self.P.S.tells suits laid may_refuse may_write start edit.now result
            (record {
              form = form self.old;
              told = told self.old;
              rest = L.rest latches.old;
              trace = L.trace latches.old;
            })
            (record {
              form = form self.new;
              told = told self.new;
              rest = L.rest latches.new;
              trace = L.trace latches.new;
            })
            (Self.P.meter port.old) (Self.P.meter port.new) };

    /// Makes the working version the committed one, and gives back the pages that the old one alone
    /// used, and those behind the last segment. It takes no memory.
    fn settle<L: Latches<S = <Self::P as Port>::S>>(&mut self, latches: &mut L, turn: &mut L::Turn)
        requires ready { IsReady (form self.old).numbers (L.rest latches.old) }
        ensures end { IsBodyEnd Self.P.S.tells suits (settled_form (form self.old))
            (settled_contents (told self.old))
            (record {
              form = form self.old;
              told = told self.old;
              rest = L.rest latches.old;
              trace = L.trace latches.old;
            })
            (record {
              form = form self.new;
              told = told self.new;
              rest = L.rest latches.new;
              trace = L.trace latches.new;
            }) };

    /// Makes the committed version the working one again, and gives back the pages that the old one
    /// alone used, and those behind the last segment. It takes no memory.
    fn undo<L: Latches<S = <Self::P as Port>::S>>(&mut self, latches: &mut L, turn: &mut L::Turn)
        requires ready { IsReady (form self.old).numbers (L.rest latches.old) }
        ensures end { IsBodyEnd Self.P.S.tells suits (undone_form (form self.old))
            (undone_contents (told self.old))
            (record {
              form = form self.old;
              told = told self.old;
              rest = L.rest latches.old;
              trace = L.trace latches.old;
            })
            (record {
              form = form self.new;
              told = told self.new;
              rest = L.rest latches.new;
              trace = L.trace latches.new;
            }) };

    // An edit that was granted what it asks for leaves a sound moment sound.
    ghost keeps_soundness: { KeepsSoundness laid good };

    // Pages are refused only to an edit that the object takes.
    ghost refuses_taken: { RefusesTaken laid };

    // Where the slot stands for pages, both its versions have the lengths of the bytes.
    ghost lengths: { IsTrue on_pages → HaveLengthsBy suits };
}
