//! A law on the halves of a part.

ghost use Rattle.std.specs.Prelude.{◌≡◌, ℕ, ◌≤◌, List};
ghost use Rattle.geometry_model.specs.Numbers.{Numbers};
ghost use Rattle.layout_model.specs.declared.extent.Extent.{Extent};
ghost use Rattle.layout_model.specs.Grants.{Spaces, halved};
ghost use Rattle.layout_laws.specs.Halving.{got_runs, AreHalves};

/// The runs of a part of at least the threshold's pages have that many each, and just its pages
/// together.
pub fn halves_have_the_threshold()
    ensures { (steps : ℕ) (n : Numbers) (start threshold pages : ℕ) (spaces left : Spaces)
        (runs : List Extent) →
        threshold ≤ pages → halved steps n start threshold pages spaces ≡ got_runs runs left →
        AreHalves threshold pages runs }
{}
