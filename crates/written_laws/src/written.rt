//! Laws on new parts that stand on their runs: they are what the layout asks for.

ghost use Rattle.std.specs.Prelude.{◌≡◌, ℕ, ◌<◌, ◌++◌, Bool, Option, List, map};
ghost use Rattle.std.specs.List.{AllByRecursion};
ghost use Rattle.geometry_model.specs.Numbers.{Numbers};
ghost use Rattle.tree_model.specs.Tree.{Pages};
ghost use Rattle.layout_model.specs.declared.change.Change.{Change};
ghost use Rattle.layout_model.specs.declared.extent.Extent.{Extent};
ghost use Rattle.layout_model.specs.Layout.{Tree, Grants, tree_entries, plan_of};
ghost use Rattle.content_laws.specs.Spelling.{IsPacked, edited_content};
ghost use Rattle.edit_parts.specs.declared.part.Part.{Part};
ghost use Rattle.edit_parts.specs.Parts.{layout_part, parts_content, pieces_of};
ghost use Rattle.span_store.specs.Held.{Held};
ghost use Rattle.part_store.specs.Asking.{rows};
ghost use Rattle.part_bytes.specs.Parts.{CanWriteEach, PartsStand};
ghost use Rattle.laid_content_laws.specs.Written.{AreMade, IsWritten, behind_front};
ghost use Rattle.written_laws.specs.Edits.{HasItsBytes, put_on};

/// New parts that stand on their runs are made there: each part's segments on its runs hold its
/// stretch of the bytes of all parts, whatever bytes follow.
pub fn parts_that_stand_are_made()
    ensures { (told : Bool) (at now : Pages) (size given : ℕ) (payload : List ℕ)
        (parts : List Part) (counts : List ℕ) (all runs : List Extent) (more : List ℕ)
        (held : Held) →
        0 < size → AllByRecursion (HasItsBytes at size payload) (pieces_of parts) →
        CanWriteEach told held size given all parts counts runs →
        PartsStand now size at payload parts counts runs →
        AreMade now size (map layout_part parts) (rows counts runs)
        (parts_content at size payload parts ++ more) }
{}

/// Once the new parts of a change's plan, which spell the edited bytes from where they begin, stand
/// on their runs, what the change brings is written where the plan has it. The runs are those that
/// were granted, or the spare.
pub fn parts_that_stand_are_written()
    ensures { (n : Numbers) (told : Bool) (at now : Pages) (tree : Tree) (spare : Option Extent)
        (change : Change) (payload : List ℕ) (given : ℕ) (parts : List Part) (counts : List ℕ)
        (all runs : List Extent) (grants : Grants) (more : List ℕ) (held : Held) →
        let plan = plan_of n tree spare change in
        0 < n.page → IsPacked plan.fit → map layout_part parts ≡ plan.parts →
        parts_content at n.page payload parts ++ more
        ≡ behind_front (tree_entries tree) plan
        (edited_content at n.page (tree_entries tree) change payload) →
        rows counts runs ≡ put_on plan.fit spare grants.runs →
        AllByRecursion (HasItsBytes at n.page payload) (pieces_of parts) →
        CanWriteEach told held n.page given all parts counts runs →
        PartsStand now n.page at payload parts counts runs →
        IsWritten n at now tree spare change grants payload }
{}
