//! Laws between a tree on pages and the levels of its nodes.

ghost use Rattle.std.specs.Prelude.{◌≡◌, ℕ, ◌/◌, Some, List, map, count_by, nat_eq};
ghost use Rattle.std.specs.List.{AllByRecursion};
ghost use Rattle.geometry_model.specs.Numbers.{Numbers, fan_out};
ghost use Rattle.tree_model.specs.declared.entry.Pair.{Pair};
ghost use Rattle.tree_model.specs.declared.tree.Root.{Root};
ghost use Rattle.tree_model.specs.Tree.{Pages, IsSegment, IsTree, IsTreeOf, bytes_of, entries_of};
ghost use Rattle.tree_model.specs.Tree.{nodes_of};
ghost use Rattle.layout_model.specs.Levels.{PageNode, entries_of_levels};
ghost use Rattle.moment_model.specs.Version.{AreLevels, StandOnData, uses, segment_run};
ghost use Rattle.moment_model.specs.Version.{segment_uses, node_uses};
ghost use Rattle.tree_pages.specs.Entry.{Entry, Present};
ghost use Rattle.tree_pages.specs.Levels.{levels_at, plain_at, version_at, version_plain};
ghost use Rattle.tree_pages.specs.Stored.{AreWithin, AreStored, root_of, HasLevels};

/// The tree at a root, as levels, has the shape of a tree, stands on data pages, and has the same
/// entries, whose bytes the root counts.
pub fn a_tree_has_levels()
    ensures levels { (n : Numbers) (at : Pages) (root : Root) (entries : List Pair) →
        AreWithin n.page at →
        IsTreeOf n at root entries → HasLevels n at root entries }
    ensures bytes { (n : Numbers) (at : Pages) (root : Root) (entries : List Pair) →
        IsTreeOf n at root entries → bytes_of entries ≡ root.length }
{}

/// Levels of the shape of a tree, each node on its page, are the levels of the tree at their root;
/// and where their nodes stand on data pages and their entries are segments, that is a tree of the
/// store.
pub fn levels_are_a_tree()
    ensures shape { (f : ℕ) (at : Pages) (levels : List (List PageNode)) → AreLevels f levels →
        AreStored at 1 levels →
        IsTree at (f / 2) (root_of levels).height (root_of levels).page (root_of levels).length }
    ensures levels { (f : ℕ) (at : Pages) (levels : List (List PageNode)) → AreLevels f levels →
        AreStored at 1 levels →
        levels_at at (root_of levels) ≡ levels }
    ensures tree { (n : Numbers) (at : Pages) (levels : List (List PageNode)) →
        AreLevels (fan_out n) levels →
        AreStored at 1 levels → StandOnData n levels →
        AllByRecursion (IsSegment n) (entries_of_levels levels) →
        IsTreeOf n at (root_of levels) (entries_of_levels levels) }
{}

/// A version uses a page as often as it stands among the pages of the nodes of its tree, and as its
/// segments do.
pub fn nodes_are_counted()
    ensures nodes { (q : ℕ) (at : Pages) (present : Present) →
        node_uses q (version_at at (Some present))
        ≡ count_by (nat_eq q) (nodes_of at present.root.height present.root.page) }
    ensures segments { (n : Numbers) (q : ℕ) (at : Pages) (present : Present) →
        segment_uses n q (version_at at (Some present))
        ≡ uses q (map (segment_run n.page) (entries_of at present.root.height present.root.page)) }
{}

/// The bytes that an entry and the pages show are those of the version that they show.
pub fn an_entry_shows_its_version()
    ensures { (at : Pages) (size : ℕ) (entry : Entry) →
        plain_at at size entry ≡ version_plain at size (version_at at entry) }
{}
