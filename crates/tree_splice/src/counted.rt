//! A law on the bytes under new nodes.

ghost use Rattle.std.specs.Prelude.{ℕ, ◌+◌, ◌^◌, ◌<◌, ◌≤◌, List, ◌∷◌, ◌++◌, length, map};
ghost use Rattle.std.specs.Prelude.{take, drop};
ghost use Rattle.tree_model.specs.declared.entry.Pair.{Pair};
ghost use Rattle.tree_model.specs.Tree.{bytes_of};
ghost use Rattle.layout_model.specs.Levels.{entries_of_levels};
ghost use Rattle.layout_laws.specs.Naming.{AreNamed, HavePairs};
ghost use Rattle.local_laws.specs.Cut.{Cut, whole, number_in_run};
ghost use Rattle.local_laws.specs.Path.{splice_path, shown, IsWay};
ghost use Rattle.tree_splice.specs.Remade.{AreAllCounted};

/// On the way to an exchange in a tree whose new entries have fewer than 2^64 bytes, a pair can
/// count the bytes under each new node.
pub fn a_way_is_counted()
    ensures { (f : ℕ) (cut : Cut) (above : List Cut) (from count : ℕ) (fresh : List Pair)
        (pages : List ℕ) → 0 < f → IsWay f cut above from count fresh
        → AreNamed (map whole (cut ∷ above)) → HavePairs (map whole (cut ∷ above))
        → from + count ≤ length (entries_of_levels (map whole (cut ∷ above)))
        → bytes_of (take from (entries_of_levels (map whole (cut ∷ above))) ++ (fresh
        ++ drop (from + count) (entries_of_levels (map whole (cut ∷ above))))) < 2 ^ 64
        → AreAllCounted
        (splice_path f (shown (cut ∷ above)) (number_in_run cut from) count fresh pages) }
{}
