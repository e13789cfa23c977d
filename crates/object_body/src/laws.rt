//! Laws on lengths, on spaces that move with an object, and on the pages that it uses.

ghost use Rattle.std.specs.Prelude.{◌≡◌, ◌≤◌, ℕ, Bool, IsTrue, List, Some};
ghost use Rattle.eos_ops.specs.declared.command.Command.{Command};
ghost use Rattle.eos_ops.specs.declared.edit.Edit.{Edit};
ghost use Rattle.eos_ops.specs.declared.plain.Plain.{Plain};
ghost use Rattle.eos_ops.specs.Edits.{outcome_in, edited};
ghost use Rattle.eos_ops.specs.Memory.{MayTakeMemory};
ghost use Rattle.eos_ops.specs.Objects.{edit_of};
ghost use Rattle.geometry_model.specs.Numbers.{Numbers};
ghost use Rattle.moment_model.specs.Moment.{ObjectSlot, Moment, object_slot, IsSound};
ghost use Rattle.moment_model.specs.Version.{version_bytes, version_uses};
ghost use Rattle.soundness_laws.specs.Keeping.{KeepsSoundness};
ghost use Rattle.space_directory.specs.SpaceView.{SpaceView};
ghost use Rattle.superdirectory.specs.Rest.{Frame, Rest};
ghost use Rattle.object_body.specs.Calls.{RefusesTaken};
ghost use Rattle.object_body.specs.Form.{Form, Contents, AreTied};
ghost use Rattle.object_body.specs.Lengths.{length_of, outcome_of};
ghost use Rattle.moment_model.specs.Edit.{edited_length};
ghost use Rattle.object_body.specs.Memory.{EditMayTakeMemory};
ghost use Rattle.object_body.specs.Moves.{Fits, Moves, MovesTold, IsUntouched};

use crate::body::Body;
use moment_model::Kind;

/// What becomes of an edit, and the length after it, follow from the length before it alone.
pub fn an_edit_by_its_length()
    ensures outcome { (edit : Edit) (object : Plain) →
        outcome_in edit object ≡ outcome_of edit (length_of object) }
    ensures length { (edit : Edit) (object : Plain) →
        length_of (edited edit object) ≡ edited_length edit (length_of object) }
{}

/// An edit may take memory just where the commands that make it may.
pub fn an_edit_takes_memory_as_its_commands()
    ensures may { (command : Command) (edit : Edit) → edit_of command ≡ Some edit →
        EditMayTakeMemory edit → MayTakeMemory command }
    ensures must { (command : Command) (edit : Edit) → edit_of command ≡ Some edit →
        MayTakeMemory command → EditMayTakeMemory edit }
{}

/// Spaces that moved with an object fit it, and untouched ones moved with an object that stayed.
pub fn spaces_that_moved_fit()
    ensures fits { (n : Numbers) (before : List SpaceView) (old new : ObjectSlot)
        (after : List SpaceView) →
        Moves n before old new after → Fits n after new }
    ensures untouched { (n : Numbers) (frame : Frame) (views : List SpaceView) (slot : ObjectSlot)
        (rest : Rest) →
        IsUntouched n frame views rest → MovesTold n frame views slot slot rest }
{}

/// In a sound moment a committed version uses each page once at most. So the pages of an object
/// that a store is opened with are those of `Stored::load`, each once.
pub fn a_version_uses_a_page_once<K: Kind>()
    ensures { (n : Numbers) (held : ℕ → Bool) (moment : Moment) (o page : ℕ) →
        IsSound K.good n held moment → version_uses n page (object_slot moment o).committed ≤ 1 }
{}

/// An edit of a body that was granted what it asks for leaves a sound moment sound, and each spare
/// behind its object's last segment.
pub fn a_body_keeps_a_store_sound<B: Body>()
    ensures { KeepsSoundness B.laid B.good }
{}

/// A body refuses pages only to an edit that its object takes, by the length of its slot.
pub fn a_body_refuses_pages_for_what_it_takes<B: Body>()
    ensures { RefusesTaken B.laid }
{}

/// Where the slot of a body stands for pages, its versions are as long as the body says.
pub fn a_slot_on_pages_is_as_long<B: Body>()
    ensures { (form : Form) (told : Contents) → IsTrue B.on_pages → AreTied B.suits form told →
        (version_bytes told.slot.committed ≡ form.committed) ×
        (version_bytes told.slot.working ≡ form.working) }
{}
