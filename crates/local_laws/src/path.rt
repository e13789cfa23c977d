//! A law on the way to an exchange in a tree.

ghost use Rattle.std.specs.Prelude.{◌≡◌, ℕ, ◌<◌, List, [], ◌∷◌, map};
ghost use Rattle.tree_model.specs.declared.entry.Pair.{Pair};
ghost use Rattle.layout_model.specs.Levels.{NewLevel, spliced};
ghost use Rattle.local_laws.specs.Cut.{Cut, whole, number_in_run};
ghost use Rattle.local_laws.specs.Path.{splice_path, shown, widened_path, IsWay};

/// Where the runs on the way are enough, the new levels are those of the runs, with the nodes
/// outside of them as they were; so the made nodes are those of the runs. A tree without levels has
/// no way.
pub fn a_path_is_local()
    ensures levels { (f : ℕ) (cut : Cut) (above : List Cut) (from count : ℕ) (fresh : List Pair)
        (pages : List ℕ) →
        0 < f → IsWay f cut above from count fresh →
        spliced f (map whole (cut ∷ above)) from count fresh pages
        ≡ widened_path (cut ∷ above)
        (splice_path f (shown (cut ∷ above)) (number_in_run cut from) count fresh pages) }
    ensures made { (f : ℕ) (cut : Cut) (above : List Cut) (from count : ℕ) (fresh : List Pair)
        (pages : List ℕ) →
        0 < f → IsWay f cut above from count fresh →
        map (λ (level : NewLevel). level.made)
        (spliced f (map whole (cut ∷ above)) from count fresh pages)
        ≡ map (λ (level : NewLevel). level.made)
        (splice_path f (shown (cut ∷ above)) (number_in_run cut from) count fresh pages) }
    ensures empty { (f from count : ℕ) (fresh : List Pair) (pages : List ℕ) →
        spliced f [] from count fresh pages ≡ splice_path f [] from count fresh pages }
{}
