//! Laws on what the pages hold once a change is written on what it was granted and on the spare.

ghost use Rattle.std.specs.Prelude.{◌≡◌, ℕ, ◌<◌, Option, List, length};
ghost use Rattle.std.specs.List.{AllByRecursion};
ghost use Rattle.geometry_model.specs.Numbers.{Numbers, IsInRange};
ghost use Rattle.tree_model.specs.Content.{content};
ghost use Rattle.tree_model.specs.Tree.{Pages};
ghost use Rattle.layout_model.specs.declared.change.Change.{Change};
ghost use Rattle.layout_model.specs.declared.extent.Extent.{Extent};
ghost use Rattle.layout_model.specs.Layout.{Tree, Grants, tree_entries, laid};
ghost use Rattle.layout_model.specs.Plan.{extent_pages, planned};
ghost use Rattle.moment_model.specs.Moment.{ObjectSlot};
ghost use Rattle.content_laws.specs.Spelling.{HaveBytes, IsThere, edited_content};
ghost use Rattle.window_laws.specs.Window.{moved, window_at, window_start};
ghost use Rattle.change_laws.specs.Laying.{IsChange};
ghost use Rattle.tree_pages.specs.Levels.{version_plain};
ghost use Rattle.tree_pages.specs.Stored.{StaysOn};
ghost use Rattle.laid_content_laws.specs.Written.{IsGrantedChange, OthersStay, IsWritten};
ghost use Rattle.laid_content_laws.specs.Written.{IsWrittenBy};

/// No page of the committed version, nor of the working one before the change, is written; so both
/// versions stay, and the committed one has the bytes that it had.
pub fn a_laid_change_writes_no_used_page()
    ensures committed { (n : Numbers) (slot : ObjectSlot) (tree : Tree)
        (change : Change) (grants : Grants) (at now : Pages) →
        IsGrantedChange n slot tree change grants →
        OthersStay slot grants at now → StaysOn n slot.committed at now }
    ensures working { (n : Numbers) (slot : ObjectSlot) (tree : Tree)
        (change : Change) (grants : Grants) (at now : Pages) →
        IsGrantedChange n slot tree change grants →
        OthersStay slot grants at now → StaysOn n slot.working at now }
    ensures bytes { (n : Numbers) (slot : ObjectSlot) (tree : Tree)
        (change : Change) (grants : Grants) (at now : Pages) →
        IsGrantedChange n slot tree change grants →
        OthersStay slot grants at now →
        version_plain now n.page slot.committed ≡ version_plain at n.page slot.committed }
{}

/// Once the bytes that a change brings are written, on the granted runs or on the spare, and no
/// other page has changed, the entries of the new tree hold the edited bytes.
pub fn a_laid_change_holds_the_edited_bytes()
    ensures { (n : Numbers) (slot : ObjectSlot) (tree : Tree) (change : Change)
        (grants : Grants) (at now : Pages) (payload : List ℕ) →
        IsInRange n → IsGrantedChange n slot tree change grants →
        AllByRecursion (IsThere at n.page) (tree_entries tree) → length payload ≡ change.added →
        OthersStay slot grants at now → IsWritten n at now tree slot.spare change grants payload →
        content now n.page (tree_entries (laid n tree slot.spare change grants).tree)
        ≡ edited_content at n.page (tree_entries tree) change payload }
{}

/// What a change brings is written where the plan of the whole object has it, once it is written
/// where the plan of its window has it.
pub fn a_window_tells_what_is_written()
    ensures { (n : Numbers) (at now : Pages) (tree : Tree) (spare : Option Extent) (change : Change)
        (grants : Grants) (payload : List ℕ) →
        0 < n.page → HaveBytes (tree_entries tree) →
        AllByRecursion (IsThere at n.page) (tree_entries tree) → IsChange tree change →
        length payload ≡ change.added →
        let window = window_at (tree_entries tree) change.at change.removed in
        let inner = moved (window_start change.at (tree_entries tree)) change in
        let plan = planned n tree.threshold window (extent_pages spare) inner in
        IsWrittenBy plan.fit n at now window spare inner plan grants.runs payload →
        IsWritten n at now tree spare change grants payload }
{}
