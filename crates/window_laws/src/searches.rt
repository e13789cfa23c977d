//! Laws on the searches that find a window.

ghost use Rattle.std.specs.Prelude.{◌≡◌, ℕ, ◌+◌, ◌≤◌, List};
ghost use Rattle.tree_model.specs.declared.entry.Pair.{Pair};
ghost use Rattle.tree_model.specs.declared.entry.Placed.{Placed};
ghost use Rattle.tree_model.specs.Range.{placed, pairs_of, start_of};
ghost use Rattle.tree_model.specs.Tree.{bytes_of};
ghost use Rattle.content_laws.specs.Spelling.{HaveBytes};
ghost use Rattle.window_laws.specs.Searches.{met_around, with_neighbours};
ghost use Rattle.window_laws.specs.Window.{window_start, window_at};

/// The segments that a search around a change meets, with the neighbours that at most two more
/// searches meet, are just the window, each segment at its place.
pub fn searches_find_the_window()
    ensures { (entries : List Pair) (at removed : ℕ) → HaveBytes entries →
        at + removed ≤ bytes_of entries →
        with_neighbours entries at removed (met_around entries at removed)
        ≡ placed (window_start at entries) (window_at entries at removed) }
{}

/// Segments that are just the window have its entries, and begin at its first byte.
pub fn found_segments_have_the_window()
    ensures { (entries : List Pair) (at removed : ℕ) (segments : List Placed) → HaveBytes entries →
        segments ≡ placed (window_start at entries) (window_at entries at removed) →
        (pairs_of segments ≡ window_at entries at removed)
        × (start_of segments ≡ window_start at entries) }
{}
