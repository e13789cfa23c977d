//! The cost of a read.

ghost use Rattle.std.specs.Prelude.{ℕ, ◌+◌, ◌-◌, ◌*◌, ◌<◌, ◌≤◌, List, length};
ghost use Rattle.geometry_model.specs.Numbers.{Numbers};
ghost use Rattle.tree_model.specs.declared.entry.Pair.{Pair};
ghost use Rattle.tree_model.specs.Range.{in_range, pairs_of, start_of};
ghost use Rattle.layout_model.specs.Pack.{Packed};
ghost use Rattle.moment_model.specs.Costs.{read_cost};
ghost use Rattle.content_laws.specs.Spelling.{HaveBytes};
ghost use Rattle.seg_bytes.specs.Segments.{touched};

/// A read of some bytes of an object whose tree has this height: a node a level for each segment
/// that it meets, and the pages of these segments that have one of the bytes, are no more than the
/// cost of a read.
pub fn a_read_is_cheap()
    ensures { (n : Numbers) (height threshold : ℕ) (entries : List Pair) (at count : ℕ) →
        0 < n.page → HaveBytes entries → Packed n.page threshold entries →
        let segments = in_range at (at + count) 0 entries in
        height * length segments
        + touched n.page (pairs_of segments) (at - start_of segments) count
        ≤ read_cost n count height threshold }
{}
