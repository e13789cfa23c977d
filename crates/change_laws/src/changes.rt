//! Laws on a change that is laid out on granted pages: it leaves a good tree, and uses what it was
//! granted.

ghost use Rattle.std.specs.Prelude.{◌≡◌, ℕ, ◌+◌, ◌≤◌, Option, Some};
ghost use Rattle.geometry_model.specs.Numbers.{Numbers, IsInRange};
ghost use Rattle.layout_model.specs.declared.change.Change.{Change};
ghost use Rattle.layout_model.specs.declared.extent.Extent.{Extent};
ghost use Rattle.layout_model.specs.Grants.{Spaces};
ghost use Rattle.layout_model.specs.Layout.{Tree, Grants, granted, laid};
ghost use Rattle.moment_model.specs.Version.{IsGood, uses, version_uses, spare_uses};
ghost use Rattle.moment_laws.specs.Granting.{AreSpaces, granted_runs, got_grants};
ghost use Rattle.change_laws.specs.Laying.{IsChange, IsLaidOn};
ghost use Rattle.change_laws.specs.Suiting.{IsSuited};
ghost use Rattle.change_laws.specs.Tail.{IsTail};

/// What is granted for a change out of free pages suits it.
pub fn granted_pages_suit_the_change()
    ensures { (n : Numbers) (start : ℕ) (tree : Tree) (spare : Option Extent) (change : Change)
        (free left : Spaces) (grants : Grants) →
        AreSpaces n free → granted n start tree spare change free ≡ got_grants grants left →
        IsSuited n tree spare change grants }
{}

/// A change of a good tree that is laid out on pages that suit it, whoever granted them, leaves a
/// good tree, on pages that were the old tree's and spare's or were granted, each once, with its
/// spare behind its last segment.
pub fn a_laid_change_is_good()
    ensures { (n : Numbers) (tree : Tree) (spare : Option Extent) (change : Change)
        (grants : Grants) →
        IsInRange n → IsGood n tree → IsTail n (Some tree) spare → IsChange tree change →
        IsSuited n tree spare change grants →
        IsLaidOn n tree spare (granted_runs grants) (laid n tree spare change grants) }
{}

/// Every page that was granted for a change, and suits it, is used by the tree and the spare that
/// it leaves.
pub fn granted_pages_are_used()
    ensures { (n : Numbers) (tree : Tree) (spare : Option Extent) (change : Change)
        (grants : Grants) →
        IsInRange n → IsGood n tree → IsTail n (Some tree) spare → IsChange tree change →
        IsSuited n tree spare change grants →
        (page : ℕ) → uses page (granted_runs grants) ≤ version_uses n page
        (Some (laid n tree spare change grants).tree)
        + spare_uses page (laid n tree spare change grants).spare }
{}
