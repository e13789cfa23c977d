//! The runs of pages of one part.

ghost use Rattle.std.specs.Prelude.{◌≡◌};

use layout_model::Extent;
use std::marker::Model;

/// The runs that were granted for a part. In contracts it is the list of them.
#[derive(Drop)]
pub struct Runs {
    runs: Vec<Extent>,
}

impl Model for Runs {
    ghost use Rattle.std.specs.Prelude.{List};
    ghost use Rattle.layout_model.specs.declared.extent.Extent.{Extent};

    ghost Value = { List Extent };

    ghost view = { λ r. r.runs.items };
}

impl Runs {
    /// The runs of a vector, which is moved.
    pub fn from_vec(runs: Vec<Extent>) -> Runs
        ensures { result ≡ runs.items }
    {
        Runs { runs }
    }

    /// The runs, where they lie.
    pub fn as_slice(&self) -> &[Extent]
        ensures { result.now ≡ self.now }
    {
        &self.runs
    }
}
