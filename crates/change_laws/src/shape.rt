//! A law on the shape of a tree after a change.

ghost use Rattle.std.specs.Prelude.{ℕ, ◌+◌, ◌≤◌, List, length};
ghost use Rattle.tree_model.specs.declared.entry.Pair.{Pair};
ghost use Rattle.layout_model.specs.Levels.{PageNode, entries_of_levels, spliced, nodes_of_levels};
ghost use Rattle.moment_model.specs.Version.{AreLevels};

/// Where nodes have room for four pairs, the new levels of a tree are those of a tree: each node
/// but the root is half full, a root above level 1 has two pairs, and each level names the one
/// below it.
pub fn new_levels_are_those_of_a_tree()
    ensures { (f : ℕ) (levels : List (List PageNode)) (from count : ℕ) (fresh : List Pair)
        (pages : List ℕ) →
        4 ≤ f → AreLevels f levels → from + count ≤ length (entries_of_levels levels) →
        AreLevels f (nodes_of_levels (spliced f levels from count fresh pages)) }
{}
