//! Laws on what stays of a tree and of its bytes where other pages change.

ghost use Rattle.std.specs.Prelude.{◌≡◌, ℕ, ◌<◌, Some, List, map};
ghost use Rattle.std.specs.List.{AllByRecursion};
ghost use Rattle.geometry_model.specs.Numbers.{Numbers};
ghost use Rattle.tree_model.specs.declared.entry.Pair.{Pair};
ghost use Rattle.tree_model.specs.declared.tree.Root.{Root};
ghost use Rattle.tree_model.specs.Content.{content};
ghost use Rattle.tree_model.specs.Tree.{Pages, IsTree, IsTreeOf, entries_of, nodes_of};
ghost use Rattle.moment_model.specs.Version.{uses, segment_run};
ghost use Rattle.tree_pages.specs.Entry.{Entry, Present};
ghost use Rattle.tree_pages.specs.Levels.{levels_at, version_at, plain_at};
ghost use Rattle.tree_pages.specs.Stored.{StaysOn};

/// Where the pages of its nodes hold what they held, a tree stays, with its levels, its nodes and
/// its entries.
pub fn a_tree_stays()
    ensures shape { (at now : Pages) (half height page bytes : ℕ) →
        AllByRecursion (λ q. now q ≡ at q) (nodes_of at height page) →
        IsTree at half height page bytes → IsTree now half height page bytes }
    ensures tree { (n : Numbers) (at now : Pages) (root : Root) (entries : List Pair) →
        AllByRecursion (λ q. now q ≡ at q) (nodes_of at root.height root.page) →
        IsTreeOf n at root entries → IsTreeOf n now root entries }
    ensures levels { (at now : Pages) (root : Root) →
        AllByRecursion (λ q. now q ≡ at q) (nodes_of at root.height root.page) →
        levels_at now root ≡ levels_at at root }
    ensures nodes { (at now : Pages) (height page : ℕ) →
        AllByRecursion (λ q. now q ≡ at q) (nodes_of at height page) →
        nodes_of now height page ≡ nodes_of at height page }
    ensures entries { (at now : Pages) (height page : ℕ) →
        AllByRecursion (λ q. now q ≡ at q) (nodes_of at height page) →
        entries_of now height page ≡ entries_of at height page }
{}

/// Where the pages of segments hold what they held, so do the segments.
pub fn content_stays()
    ensures { (at now : Pages) (size : ℕ) (entries : List Pair) →
        ((q : ℕ) → 0 < uses q (map (segment_run size) entries) → now q ≡ at q) →
        content now size entries ≡ content at size entries }
{}

/// Where the pages that a version uses hold what they held, the entry shows the same version, the
/// same bytes, and a tree where it showed one.
pub fn a_version_stays()
    ensures version { (n : Numbers) (at now : Pages) (entry : Entry) →
        StaysOn n (version_at at entry) at now →
        version_at now entry ≡ version_at at entry }
    ensures bytes { (n : Numbers) (at now : Pages) (entry : Entry) →
        StaysOn n (version_at at entry) at now →
        plain_at now n.page entry ≡ plain_at at n.page entry }
    ensures tree { (n : Numbers) (at now : Pages) (present : Present) (entries : List Pair) →
        StaysOn n (version_at at (Some present)) at now → IsTreeOf n at present.root entries →
        IsTreeOf n now present.root entries }
{}
