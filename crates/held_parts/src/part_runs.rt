//! The runs of pages that made parts have.

use layout_model::Extent;

/// Runs of pages that were granted for made parts, from left to right.
#[derive(Drop)]
pub struct PartRuns {
    /// The runs of all parts.
    pub runs: Vec<Extent>,
    /// How many of them each part has.
    pub counts: Vec<usize>,
}
