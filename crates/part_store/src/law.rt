//! Laws on the rule for one part.

ghost use Rattle.std.specs.Prelude.{◌≡◌, ℕ, ◌≤◌};
ghost use Rattle.geometry_model.specs.Numbers.{Numbers};
ghost use Rattle.layout_model.specs.Grants.{Spaces, halved, part_runs};

/// Where no more pages are wished for than are needed, the rule for a part is that of halves.
pub fn a_need_alone_is_halved()
    ensures { (numbers : Numbers) (start threshold need : ℕ) (spaces : Spaces) → 1 ≤ need →
        part_runs numbers start threshold (record { want = need; need = need }) spaces
        ≡ halved need numbers start threshold need spaces }
{}
