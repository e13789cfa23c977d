//! The bytes of an edit and of the change that is its effect.

ghost use Rattle.std.specs.Prelude.{◌≡◌, ℕ, ◌+◌, ◌≤◌, Some, length};
ghost use Rattle.eos_ops.specs.declared.edit.Edit.{Edit};
ghost use Rattle.eos_ops.specs.declared.plain.Plain.TheVariants.{Present};
ghost use Rattle.eos_ops.specs.Edits.{edited};
ghost use Rattle.geometry_model.specs.Numbers.{Numbers};
ghost use Rattle.tree_model.specs.Content.{content};
ghost use Rattle.tree_model.specs.Tree.{Pages};
ghost use Rattle.layout_model.specs.declared.change.Change.{Change};
ghost use Rattle.layout_model.specs.Layout.{Tree, tree_entries};
ghost use Rattle.content_laws.specs.Spelling.{edited_content};
ghost use Rattle.moment_model.specs.Edit.{effect_on, Changes};
ghost use Rattle.moment_model.specs.Version.{tree_bytes};
ghost use Rattle.edit_content_laws.specs.Brought.{brought};

/// An edit whose effect on a tree is a change changes this tree, within its bytes, and brings as
/// many bytes as the change says. The edited object has the content that the change leaves of that
/// of the tree's entries.
pub fn a_change_is_its_edit()
    ensures tree { (n : Numbers) (edit : Edit) (tree changed : Tree) (change : Change) →
        effect_on n edit (Some tree) ≡ Changes changed change → changed ≡ tree }
    ensures within { (n : Numbers) (edit : Edit) (tree changed : Tree) (change : Change) →
        effect_on n edit (Some tree) ≡ Changes changed change →
        change.at + change.removed ≤ tree_bytes tree }
    ensures payload { (n : Numbers) (edit : Edit) (tree changed : Tree) (change : Change) →
        effect_on n edit (Some tree) ≡ Changes changed change →
        length (brought edit) ≡ change.added }
    ensures content { (n : Numbers) (edit : Edit) (tree changed : Tree) (change : Change)
        (at : Pages) (size : ℕ) → effect_on n edit (Some tree) ≡ Changes changed change →
        length (content at size (tree_entries tree)) ≡ tree_bytes tree →
        edited edit (Present (content at size (tree_entries tree)))
        ≡ Present (edited_content at size (tree_entries tree) change (brought edit)) }
{}
