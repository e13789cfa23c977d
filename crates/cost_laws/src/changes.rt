//! The cost of a change.

ghost use Rattle.std.specs.Prelude.{◌≡◌, ℕ, Option, Some};
ghost use Rattle.geometry_model.specs.Numbers.{Numbers, IsInRange};
ghost use Rattle.layout_model.specs.declared.change.Change.{Change};
ghost use Rattle.layout_model.specs.declared.extent.Extent.{Extent};
ghost use Rattle.layout_model.specs.Layout.{Tree, Grants};
ghost use Rattle.moment_model.specs.Version.{IsGood};
ghost use Rattle.change_laws.specs.Laying.{IsChange};
ghost use Rattle.change_laws.specs.Suiting.{IsSuited};
ghost use Rattle.change_laws.specs.Tail.{IsTail};
ghost use Rattle.cost_laws.specs.ChangeCost.{IsCheap};

/// A change of a good tree on pages that suit it, whoever granted them, writes pages by the
/// payload, the threshold and the height of the tree before it, and not by the object: at most its
/// cost. It is granted at most as many pages, and the spare that it leaves.
///
/// So a change that fails while it writes has written no more than the tree that stays allows,
/// however high the new one would have been.
pub fn a_change_is_cheap()
    ensures { (n : Numbers) (tree : Tree) (spare : Option Extent) (change : Change)
        (grants : Grants) →
        IsInRange n → IsGood n tree → IsTail n (Some tree) spare → IsChange tree change →
        IsSuited n tree spare change grants →
        IsCheap n tree spare change grants }
{}
