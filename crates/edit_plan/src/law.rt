//! Laws on the windows that a plan is made from, on its parts, and on their pieces.

ghost use Rattle.std.specs.Prelude.{◌≡◌, ℕ, ◌+◌, ◌<◌, ◌≤◌, ◌^◌, true, List, map};
ghost use Rattle.std.specs.List.{AllByRecursion};
ghost use Rattle.geometry_model.specs.Numbers.{IsInRange, Numbers};
ghost use Rattle.tree_model.specs.declared.entry.Pair.{Pair};
ghost use Rattle.tree_model.specs.declared.entry.Placed.{Placed};
ghost use Rattle.tree_model.specs.Range.{pairs_of, placed, start_of};
ghost use Rattle.tree_model.specs.Tree.{bytes_of};
ghost use Rattle.layout_model.specs.declared.change.Change.{Change};
ghost use Rattle.layout_model.specs.Pack.{pack};
ghost use Rattle.layout_model.specs.Plan.{fit_appended, plan_packed, planned};
ghost use Rattle.content_laws.specs.Spelling.{HaveBytes, IsPacked};
ghost use Rattle.window_laws.specs.Searches.{end_of};
ghost use Rattle.window_laws.specs.Window.{moved, shifted, window_at, window_from, window_start};
ghost use Rattle.edit_parts.specs.declared.part.Part.{Part};
ghost use Rattle.edit_parts.specs.declared.piece.Piece.{Piece};
ghost use Rattle.edit_parts.specs.Parts.{layout_part};
ghost use Rattle.edit_parts.specs.Pieces.{IsFrom};
ghost use Rattle.edit_plan.specs.Cuts.{IsNumbered};
ghost use Rattle.edit_plan.specs.Planned.{IsEntry, IsPlan, IsTight};

/// Segments that are just the window of a change are tight, and have the change between their ends.
pub fn a_window_is_tight()
    ensures { (entries : List Pair) (at cut : ℕ) (window : List Placed) → HaveBytes entries →
        at + cut ≤ bytes_of entries →
        window ≡ placed (window_start at entries) (window_at entries at cut) →
        IsTight window at cut × (start_of window ≤ at) × (at + cut ≤ end_of window) }
{}

/// Pieces of entries of a store and of a payload fit their numbers. So `cut_part` can cut a part
/// that is made of them.
pub fn pieces_of_entries_are_numbered()
    ensures { (n : Numbers) (entries : List Pair) (given : ℕ) (pieces : List Piece) →
        IsInRange n → AllByRecursion (IsEntry n) entries → given < 2 ^ 64 →
        AllByRecursion (IsFrom n.page entries given) pieces →
        AllByRecursion (IsNumbered n.page) pieces }
{}

/// The plan of a whole object is made from its window's parts, once they are merged, its entries
/// counted on from those before the window. An append that extends the last segment has no parts.
pub fn parts_of_a_window_plan_the_object()
    ensures { (n : Numbers) (threshold : ℕ) (entries : List Pair) (spare : ℕ) (change : Change)
        (window : List Placed) (parts : List Part) → HaveBytes entries →
        (change.appends ≡ true → change.at ≡ bytes_of entries) →
        IsPacked (fit_appended n.page entries spare change) →
        window ≡ placed (window_start change.at entries)
        (window_at entries change.at change.removed) →
        IsPlan n window change.at change.removed change.added parts →
        planned n threshold entries spare change
        ≡ shifted (window_from change.at entries) (plan_packed n.page (pairs_of window) spare
        (moved (start_of window) change) (pack n.page threshold (map layout_part parts))) }
{}
