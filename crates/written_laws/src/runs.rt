//! Laws on the runs of new parts: they have pages enough to write the parts on, and suit the
//! change.

ghost use Rattle.std.specs.Prelude.{◌≡◌, ℕ, ◌≤◌, Bool, List, [], ◌∷◌, map};
ghost use Rattle.std.specs.List.{AllByRecursion};
ghost use Rattle.geometry_model.specs.Numbers.{Numbers, IsInRange, space_pages};
ghost use Rattle.tree_model.specs.Tree.{page_count};
ghost use Rattle.layout_model.specs.declared.change.Change.{Change};
ghost use Rattle.layout_model.specs.declared.extent.Extent.{Extent};
ghost use Rattle.layout_model.specs.declared.request.Request.{Request};
ghost use Rattle.layout_model.specs.Layout.{Tree, wanted};
ghost use Rattle.layout_model.specs.Plan.{Plan, made_part_bytes};
ghost use Rattle.change_laws.specs.Suiting.{SuitPlan};
ghost use Rattle.edit_parts.specs.declared.part.Part.{Part};
ghost use Rattle.edit_parts.specs.Parts.{layout_part};
ghost use Rattle.span_store.specs.Held.{Held};
ghost use Rattle.part_store.specs.Asking.{AreOfAll, IsAskable, rows};
ghost use Rattle.part_bytes.specs.Parts.{CanWriteEach};
ghost use Rattle.written_laws.specs.Edits.{AreGrantedFor, HaveOldBytes};

/// New parts can be written on the runs that they were granted.
pub fn granted_parts_can_be_written()
    ensures { (n : Numbers) (told : Bool) (threshold given : ℕ) (parts : List Part)
        (requests : List Request) (counts : List ℕ) (runs : List Extent) (now : Held) →
        IsInRange n → HaveOldBytes told n.page given parts runs now →
        AreGrantedFor n threshold parts requests counts runs →
        CanWriteEach told now n.page given runs parts counts runs }
{}

/// One new part can be written on a spare that has pages enough.
pub fn a_part_on_the_spare_can_be_written()
    ensures { (n : Numbers) (told : Bool) (given bytes : ℕ) (parts : List Part) (spare : Extent)
        (now : Held) →
        IsInRange n → HaveOldBytes told n.page given parts (spare ∷ []) now →
        made_part_bytes (map layout_part parts) ≡ bytes ∷ [] →
        page_count n.page bytes ≤ spare.pages → spare.pages ≤ space_pages n →
        CanWriteEach told now n.page given (spare ∷ []) parts (1 ∷ []) (spare ∷ []) }
{}

/// The runs that were granted for what a plan asks for suit it, whoever granted them.
pub fn granted_runs_suit_the_plan()
    ensures { (n : Numbers) (tree : Tree) (change : Change) (plan : Plan) (most : ℕ)
        (counts : List ℕ) (runs : List Extent) →
        AllByRecursion (IsAskable most) (wanted n tree change plan) →
        AreOfAll tree.threshold (wanted n tree change plan)
        (rows counts (map (λ run. run.pages) runs)) →
        SuitPlan n tree change plan (rows counts runs) }
{}
