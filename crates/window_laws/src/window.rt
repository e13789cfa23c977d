//! Laws on what a plan reads of the entries, and on the places at which they begin.

ghost use Rattle.std.specs.Prelude.{◌≡◌, ℕ, ◌+◌, ◌≤◌, true, Option, List, length, take};
ghost use Rattle.geometry_model.specs.Numbers.{Numbers};
ghost use Rattle.tree_model.specs.declared.entry.Pair.{Pair};
ghost use Rattle.tree_model.specs.Tree.{bytes_of};
ghost use Rattle.layout_model.specs.declared.change.Change.{Change};
ghost use Rattle.layout_model.specs.declared.extent.Extent.{Extent};
ghost use Rattle.layout_model.specs.Layout.{Tree, tree_entries, plan_of, wanted};
ghost use Rattle.layout_model.specs.Parts.{count_ended, count_begun};
ghost use Rattle.layout_model.specs.Plan.{extent_pages, fit_appended, last_entry, planned};
ghost use Rattle.content_laws.specs.Spelling.{HaveBytes};
ghost use Rattle.window_laws.specs.Window.{window_from, window_start, window_at, moved, shifted};
ghost use Rattle.window_laws.specs.Window.{wanted_behind};

/// As many entries as stand before an entry end at the byte at which it begins, or before it, and
/// as many begin before that byte.
pub fn a_border_is_a_number()
    ensures { (k : ℕ) (entries : List Pair) → HaveBytes entries → k ≤ length entries →
        (count_ended (bytes_of (take k entries)) entries ≡ k)
        × (count_begun (bytes_of (take k entries)) entries ≡ k) }
{}

/// The places at which the entries of a window begin are places at which entries begin.
pub fn a_window_has_its_borders()
    ensures { (k : ℕ) (entries : List Pair) (at removed : ℕ) →
        k ≤ length (window_at entries at removed) →
        bytes_of (take (window_from at entries + k) entries)
        ≡ window_start at entries + bytes_of (take k (window_at entries at removed)) }
{}

/// The plan of a change is its plan on the window alone, with the place counted from the window's
/// first byte and the entries of the plan from its first entry.
pub fn a_window_is_enough()
    ensures { (n : Numbers) (threshold : ℕ) (entries : List Pair) (spare : ℕ) (change : Change) →
        HaveBytes entries → (change.appends ≡ true → change.at ≡ bytes_of entries) →
        let window = window_at entries change.at change.removed in
        let start = window_start change.at entries in
        planned n threshold entries spare change ≡ shifted (window_from change.at entries)
        (planned n threshold window spare (moved start change)) }
{}

/// The last entry, where an append is made, is the window's last one.
pub fn a_window_has_the_last_entry()
    ensures { (entries : List Pair) (removed : ℕ) → HaveBytes entries →
        last_entry entries ≡ last_entry (window_at entries (bytes_of entries) removed) }
{}

/// How the bytes of a change meet the spare pages is told by the window.
pub fn a_window_tells_the_fit()
    ensures { (size : ℕ) (entries : List Pair) (spare : ℕ) (change : Change) →
        HaveBytes entries → (change.appends ≡ true → change.at ≡ bytes_of entries) →
        fit_appended size entries spare change
        ≡ fit_appended size (window_at entries change.at change.removed) spare
        (moved (window_start change.at entries) change) }
{}

/// What a change of a tree asks for is told by the window.
pub fn a_window_tells_the_requests()
    ensures { (n : Numbers) (tree : Tree) (spare : Option Extent) (change : Change) →
        HaveBytes (tree_entries tree) →
        (change.appends ≡ true → change.at ≡ bytes_of (tree_entries tree)) →
        let window = window_at (tree_entries tree) change.at change.removed in
        let start = window_start change.at (tree_entries tree) in
        wanted n tree change (plan_of n tree spare change) ≡ wanted_behind n window change
        (planned n tree.threshold window (extent_pages spare) (moved start change)) }
{}
