//! Laws on the new levels of a tree.

ghost use Rattle.std.specs.Prelude.{◌≡◌, ℕ, ◌+◌, ◌<◌, ◌≤◌, List, ◌++◌, length, take, drop};
ghost use Rattle.tree_model.specs.declared.entry.Pair.{Pair};
ghost use Rattle.layout_model.specs.Levels.{PageNode, pairs_of_level, entries_of_levels};
ghost use Rattle.layout_model.specs.Levels.{level_after, spliced, nodes_of_levels};
ghost use Rattle.layout_laws.specs.Naming.{AreNamed, HavePairs};

/// A level after an exchange has the list splice of the pairs that it had.
pub fn a_level_is_spliced()
    ensures { (f : ℕ) (nodes : List PageNode) (from count : ℕ) (fresh : List Pair)
        (pages : List ℕ) →
        0 < f → from + count ≤ length (pairs_of_level nodes) →
        pairs_of_level (level_after f nodes from count fresh pages).nodes
        ≡ take from (pairs_of_level nodes)
        ++ (fresh ++ drop (from + count) (pairs_of_level nodes)) }
{}

/// The entries of the new tree are the list splice of the entries of the old one.
pub fn entries_are_spliced()
    ensures { (f : ℕ) (levels : List (List PageNode)) (from count : ℕ) (fresh : List Pair)
        (pages : List ℕ) →
        0 < f → from + count ≤ length (entries_of_levels levels) →
        entries_of_levels (nodes_of_levels (spliced f levels from count fresh pages))
        ≡ take from (entries_of_levels levels)
        ++ (fresh ++ drop (from + count) (entries_of_levels levels)) }
{}

/// Where each level names the level below it, so do the new levels.
pub fn new_levels_name_each_other()
    ensures { (f : ℕ) (levels : List (List PageNode)) (from count : ℕ) (fresh : List Pair)
        (pages : List ℕ) →
        0 < f → AreNamed levels → HavePairs levels →
        from + count ≤ length (entries_of_levels levels) →
        AreNamed (nodes_of_levels (spliced f levels from count fresh pages)) }
{}
