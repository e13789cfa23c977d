//! The segments that a row of bytes meets.

ghost use Rattle.std.specs.Prelude.{ℕ, ◌-◌, ◌<◌, ◌≤◌, List, length};
ghost use Rattle.geometry_model.specs.Numbers.{Numbers};
ghost use Rattle.tree_model.specs.declared.entry.Pair.{Pair};
ghost use Rattle.tree_model.specs.Range.{in_range};
ghost use Rattle.layout_model.specs.Pack.{Packed};
ghost use Rattle.moment_model.specs.Costs.{segments_met};
ghost use Rattle.content_laws.specs.Spelling.{HaveBytes};

/// Where of two neighbouring entries one at least has as many pages as the threshold, the bytes of
/// a range lie in few of them.
pub fn few_segments_are_met()
    ensures { (n : Numbers) (threshold : ℕ) (entries : List Pair) (start from to : ℕ) →
        0 < n.page → HaveBytes entries → Packed n.page threshold entries →
        length (in_range from to start entries) ≤ segments_met n (to - from) threshold }
{}
