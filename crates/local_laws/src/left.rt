//! Laws on the nodes that a tree doesn't have any more after an exchange.

ghost use Rattle.std.specs.Prelude.{◌≡◌, ℕ, ◌+◌, ◌≤◌, List, ◌∷◌, map};
ghost use Rattle.std.specs.List.{flat_map};
ghost use Rattle.tree_model.specs.declared.entry.Pair.{Pair};
ghost use Rattle.layout_model.specs.Levels.{PageNode, spliced, nodes_of_levels};
ghost use Rattle.moment_model.specs.Version.{AreLevels, uses, node_run};
ghost use Rattle.local_laws.specs.Cut.{Cut, whole, number_in_run};
ghost use Rattle.local_laws.specs.Path.{splice_path, shown, IsWay};
ghost use Rattle.local_laws.specs.Left.{cut_run, nodes_left, nodes_made};

/// Page by page, the nodes that are left and those of the new tree are together those of the old
/// tree and those that are made; also where those left and made are taken from the runs alone.
pub fn made_and_left_are_the_difference()
    ensures levels { (page f : ℕ) (levels : List (List PageNode)) (from count : ℕ)
        (fresh : List Pair) (pages : List ℕ) →
        uses page (map node_run (nodes_left levels (spliced f levels from count fresh pages)))
        + uses page (flat_map (map node_run)
        (nodes_of_levels (spliced f levels from count fresh pages)))
        ≡ uses page (flat_map (map node_run) levels)
        + uses page (map node_run (nodes_made (spliced f levels from count fresh pages))) }
    ensures runs { (page f : ℕ) (cut : Cut) (above : List Cut) (from count : ℕ) (fresh : List Pair)
        (pages : List ℕ) →
        2 ≤ f → AreLevels f (map whole (cut ∷ above)) → IsWay f cut above from count fresh →
        uses page (map node_run (nodes_left (map cut_run (cut ∷ above))
        (splice_path f (shown (cut ∷ above)) (number_in_run cut from) count fresh pages)))
        + uses page (flat_map (map node_run)
        (nodes_of_levels (spliced f (map whole (cut ∷ above)) from count fresh pages)))
        ≡ uses page (flat_map (map node_run) (map whole (cut ∷ above)))
        + uses page (map node_run (nodes_made
        (splice_path f (shown (cut ∷ above)) (number_in_run cut from) count fresh pages))) }
{}

/// In a tree, the nodes that are left are nodes of the runs.
pub fn left_nodes_are_local()
    ensures { (f : ℕ) (cut : Cut) (above : List Cut) (from count : ℕ) (fresh : List Pair)
        (pages : List ℕ) →
        2 ≤ f → AreLevels f (map whole (cut ∷ above)) → IsWay f cut above from count fresh →
        nodes_left (map whole (cut ∷ above))
        (spliced f (map whole (cut ∷ above)) from count fresh pages)
        ≡ nodes_left (map cut_run (cut ∷ above))
        (splice_path f (shown (cut ∷ above)) (number_in_run cut from) count fresh pages) }
{}
