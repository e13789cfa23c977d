//! Laws on what was refused.

ghost use Rattle.std.specs.Prelude.{◌≡◌, ℕ, ◌≤◌, Option, Some};
ghost use Rattle.geometry_model.specs.Numbers.{Numbers, IsInRange};
ghost use Rattle.eos_ops.specs.declared.edit.Edit.{Edit};
ghost use Rattle.layout_model.specs.declared.change.Change.{Change};
ghost use Rattle.layout_model.specs.declared.extent.Extent.{Extent};
ghost use Rattle.layout_model.specs.Grants.{Spaces, halved};
ghost use Rattle.layout_model.specs.Layout.{Tree, granted};
ghost use Rattle.moment_model.specs.Edit.{edited_slot};
ghost use Rattle.moment_model.specs.Moment.{ObjectSlot};
ghost use Rattle.moment_model.specs.Version.{IsGood, IsGoodVersion};
ghost use Rattle.refusal_laws.specs.Refusal.{refused_grants, refused_slot, IsFewPages};

/// Where a part has a page, more steps than it has pages make no difference to its halving.
pub fn halving_never_runs_out()
    ensures { (steps more : ℕ) (n : Numbers) (start threshold pages : ℕ) (free : Spaces) →
        1 ≤ threshold → 1 ≤ pages → pages ≤ steps → pages ≤ more →
        halved steps n start threshold pages free ≡ halved more n start threshold pages free }
{}

/// A change of a good tree that is refused pages names one at least and fewer than twice the
/// threshold, for which no space had a place.
pub fn a_refused_change_names_few_pages()
    ensures { (n : Numbers) (start : ℕ) (tree : Tree) (spare : Option Extent) (change : Change)
        (free : Spaces) (pages : ℕ) →
        IsInRange n → IsGood n tree → granted n start tree spare change free
        ≡ refused_grants pages →
        IsFewPages n start tree.threshold pages }
{}

/// And so does an edit: only one of a present object is refused pages.
pub fn a_refused_edit_names_few_pages()
    ensures { (n : Numbers) (start : ℕ) (free : Spaces) (slot : ObjectSlot) (edit : Edit)
        (pages : ℕ) →
        IsInRange n → IsGoodVersion IsGood n slot.working →
        edited_slot n start free slot edit ≡ refused_slot pages →
        (tree : Tree) × (slot.working ≡ Some tree) × IsFewPages n start tree.threshold pages }
{}
