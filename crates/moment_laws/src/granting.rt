//! Laws on the pages that are granted for an edit.

ghost use Rattle.std.specs.Prelude.{◌≡◌, ℕ, ◌≤◌, Option, List};
ghost use Rattle.geometry_model.specs.Numbers.{Numbers};
ghost use Rattle.layout_model.specs.declared.change.Change.{Change};
ghost use Rattle.layout_model.specs.declared.extent.Extent.{Extent};
ghost use Rattle.layout_model.specs.Grants.{Spaces};
ghost use Rattle.layout_model.specs.Layout.{Tree, Grants, granted};
ghost use Rattle.moment_model.specs.Moment.{Moment, free_of, is_free, count_true};
ghost use Rattle.moment_model.specs.Version.{uses};
ghost use Rattle.moment_laws.specs.Granting.{AreSpaces, Took, granted_runs, got_grants};

/// What is granted for a change are runs that were free, each in one space, each page once; the
/// pages that are left are the free ones without them.
pub fn granted_pages_were_free()
    ensures { (n : Numbers) (start : ℕ) (tree : Tree) (spare : Option Extent) (change : Change)
        (free left : Spaces) (grants : Grants) →
        AreSpaces n free → granted n start tree spare change free ≡ got_grants grants left →
        Took n free (granted_runs grants) left }
{}

/// Runs out of the free pages of a moment have just pages that nobody uses, each once.
pub fn pages_taken_were_free_in_the_moment()
    ensures spaces { (n : Numbers) (moment : Moment) → AreSpaces n (free_of n moment) }
    ensures free { (n : Numbers) (moment : Moment) (runs : List Extent) (left : Spaces) →
        Took n (free_of n moment) runs left →
        (page : ℕ) → uses page runs ≤ count_true (is_free n page moment) }
{}
