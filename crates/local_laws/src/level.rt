//! A law on one level.

ghost use Rattle.std.specs.Prelude.{◌≡◌, ℕ, ◌-◌, List, length};
ghost use Rattle.tree_model.specs.declared.entry.Pair.{Pair};
ghost use Rattle.layout_model.specs.Levels.{PageNode, pairs_of_level, level_after};
ghost use Rattle.local_laws.specs.Cut.{Cut, whole, widened, IsEnough};

/// Where a run of a level is enough, the level after an exchange is the run after it, with the
/// nodes before and behind it as they were.
pub fn a_level_is_local()
    ensures { (f : ℕ) (cut : Cut) (from count : ℕ) (fresh : List Pair) (pages : List ℕ) →
        IsEnough f cut from count fresh →
        level_after f (whole cut) from count fresh pages
        ≡ widened cut
        (level_after f cut.run (from - length (pairs_of_level cut.front)) count fresh pages) }
{}
