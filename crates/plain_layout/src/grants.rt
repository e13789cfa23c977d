//! The pages that a change was granted.

ghost use Rattle.std.specs.Prelude.{◌≡◌};

use crate::runs::Runs;
use std::marker::Model;

/// The runs of the made parts, and one page for each made node.
#[derive(Drop)]
pub struct Grants {
    runs: Vec<Runs>,
    pages: Vec<u32>,
}

impl Model for Grants {
    ghost use Rattle.layout_model.specs.Layout.{Grants};

    ghost Value = { Grants };

    ghost view = { λ g. record { runs = g.runs.items; pages = g.pages.items } };
}

impl Grants {
    /// The grants of these runs and pages.
    pub fn new(runs: Vec<Runs>, pages: Vec<u32>) -> Grants
        ensures { result ≡ record { runs = runs.items; pages = pages.items } }
    {
        Grants { runs, pages }
    }

    /// The runs of each made part.
    pub fn runs(&self) -> &[Runs]
        ensures { result.now ≡ self.now.runs }
    {
        &self.runs
    }

    /// The pages of the made nodes.
    pub fn pages(&self) -> &[u32]
        ensures { result.now ≡ self.now.pages }
    {
        &self.pages
    }
}
