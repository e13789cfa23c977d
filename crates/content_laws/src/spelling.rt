//! Laws on the bytes of a change: its parts spell the edited bytes, and what is laid out holds
//! them.

ghost use Rattle.std.specs.Prelude.{◌≡◌, ℕ, ◌+◌, ◌%◌, ◌<◌, ◌≤◌, List, [], ◌++◌, length, take, drop};
ghost use Rattle.std.specs.List.{AllByRecursion};
ghost use Rattle.geometry_model.specs.Numbers.{Numbers};
ghost use Rattle.tree_model.specs.declared.entry.Pair.{Pair};
ghost use Rattle.tree_model.specs.Content.{content, segment_bytes};
ghost use Rattle.tree_model.specs.Tree.{Pages, bytes_of};
ghost use Rattle.layout_model.specs.declared.change.Change.{Change};
ghost use Rattle.layout_model.specs.declared.extent.Extent.{Extent};
ghost use Rattle.layout_model.specs.declared.part.Part.{Part};
ghost use Rattle.layout_model.specs.Layout.{laid_parts};
ghost use Rattle.layout_model.specs.Plan.{Plan, planned, plan_extended, fit_appended, last_entry};
ghost use Rattle.content_laws.specs.Spelling.{HaveBytes, IsThere, Spells, all_parts};
ghost use Rattle.content_laws.specs.Spelling.{edited_content, IsPacked, AreWritten, behind_last};
ghost use Rattle.content_laws.specs.Spelling.{grown_last};

/// The parts of a plan, with the entries before and behind them, spell the edited bytes, unless the
/// last segment grows.
pub fn parts_spell_the_edited_bytes()
    ensures { (at : Pages) (n : Numbers) (threshold : ℕ) (entries : List Pair) (spare : ℕ)
        (change : Change) (payload : List ℕ) →
        0 < n.page → HaveBytes entries → AllByRecursion (IsThere at n.page) entries →
        change.at + change.removed ≤ bytes_of entries → length payload ≡ change.added →
        IsPacked (fit_appended n.page entries spare change) →
        Spells at n.page (all_parts entries (planned n threshold entries spare change))
        (edited_content at n.page entries change payload) }
{}

/// Where parts spell bytes, and these are written to the runs of the made ones, the entries that
/// are laid out hold them.
pub fn laid_parts_hold_the_bytes()
    ensures { (at now : Pages) (size : ℕ) (parts : List Part) (runs : List (List Extent))
        (bytes : List ℕ) → Spells at size parts bytes →
        AreWritten at now size parts runs bytes →
        content now size (laid_parts size parts runs) ≡ bytes }
{}

/// All parts of an object laid out are its entries with those of the plan in the place of the
/// replaced ones.
pub fn laid_parts_are_spliced()
    ensures { (size : ℕ) (entries : List Pair) (plan : Plan) (runs : List (List Extent)) →
        laid_parts size (all_parts entries plan) runs
        ≡ take plan.from entries ++ (laid_parts size plan.parts runs
        ++ drop (plan.from + plan.count) entries) }
{}

/// A last segment with its last page full that grows over the pages behind it holds its bytes, and
/// then theirs.
pub fn a_grown_tail_holds_the_bytes()
    ensures { (at : Pages) (size : ℕ) (entries : List Pair) (change : Change) → 0 < size →
        0 < length entries →
        (last_entry entries).bytes % size ≡ 0 → IsThere at size (grown_last entries change.added) →
        content at size (laid_parts size (all_parts entries (plan_extended entries change)) [])
        ≡ content at size entries ++ segment_bytes at size (behind_last size entries change.added) }
{}
