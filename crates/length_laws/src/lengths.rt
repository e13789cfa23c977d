//! Laws on the length of an object after an edit.

ghost use Rattle.std.specs.Prelude.{◌≡◌, ℕ, ◌+◌, Option, Some};
ghost use Rattle.geometry_model.specs.Numbers.{Numbers, IsInRange};
ghost use Rattle.eos_ops.specs.declared.edit.Edit.{Edit};
ghost use Rattle.eos_ops.specs.declared.plain.Plain.{Plain};
ghost use Rattle.eos_ops.specs.Edits.{edited};
ghost use Rattle.layout_model.specs.declared.change.Change.{Change};
ghost use Rattle.layout_model.specs.declared.extent.Extent.{Extent};
ghost use Rattle.layout_model.specs.Grants.{Spaces};
ghost use Rattle.layout_model.specs.Layout.{Tree, Grants, laid};
ghost use Rattle.moment_model.specs.Edit.{edited_slot};
ghost use Rattle.moment_model.specs.Moment.{ObjectSlot};
ghost use Rattle.moment_model.specs.Version.{IsGood, IsGoodVersion, tree_bytes, version_bytes};
ghost use Rattle.moment_laws.specs.Granting.{AreSpaces};
ghost use Rattle.change_laws.specs.Laying.{IsChange};
ghost use Rattle.change_laws.specs.Suiting.{IsSuited};
ghost use Rattle.soundness_laws.specs.Keeping.{got_slot};
ghost use Rattle.change_laws.specs.Tail.{IsTail};
ghost use Rattle.effect_laws.specs.Lengths.{plain_length};
ghost use Rattle.length_laws.specs.KeepsLength.{KeepsLength};

use moment_model::Kind;

/// A change of a good tree that is laid out on pages that suit it, whoever granted them, leaves a
/// tree that has the bytes of the old one, but for those that it removes, and those that it brings.
pub fn a_laid_change_has_its_length()
    ensures { (n : Numbers) (tree : Tree) (spare : Option Extent) (change : Change)
        (grants : Grants) →
        IsInRange n → IsGood n tree → IsTail n (Some tree) spare → IsChange tree change →
        IsSuited n tree spare change grants →
        tree_bytes (laid n tree spare change grants).tree + change.removed
        ≡ tree_bytes tree + change.added }
{}

/// So an edit of a tree that was granted what it asks for leaves a working version of the length
/// that the edit makes of the length before it.
pub fn an_edited_tree_has_its_length()
    ensures { KeepsLength edited_slot IsGood }
{}

/// Where bodies keep lengths, and a working version has the length of a plain object, or both are
/// absent, an edit that was granted what it asks for leaves them so.
pub fn an_edit_keeps_lengths_equal<K: Kind>()
    ensures { (n : Numbers) (start : ℕ) (free left : Spaces) (slot after : ObjectSlot)
        (edit : Edit) (object : Plain) →
        KeepsLength K.laid K.good → IsInRange n → IsGoodVersion K.good n slot.working →
        IsTail n slot.working slot.spare → AreSpaces n free →
        version_bytes slot.working ≡ plain_length object →
        K.laid n start free slot edit ≡ got_slot after left →
        version_bytes after.working ≡ plain_length (edited edit object) }
{}
