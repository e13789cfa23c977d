//! What becomes of an object in a change.

use edit_parts::Part;
use layout_model::{Change, Fit, Request};
use tree_model::Pair;

/// The plan of a change of an object: which entries are replaced, and by which parts.
#[derive(Drop)]
pub struct Planned {
    /// The change.
    pub change: Change,
    /// The byte at which the first replaced entry begins, or the place where none is.
    pub from: u64,
    /// The byte before which the last replaced entry ends.
    pub to: u64,
    /// The entries that are replaced.
    pub replaced: Vec<Pair>,
    /// The parts in their place: those that stay on their pages, and those that are made.
    pub parts: Vec<Part>,
    /// How the new bytes meet the spare pages.
    pub fit: Fit,
    /// What is asked for the made parts: nothing where they stand on the spare pages.
    pub requests: Vec<Request>,
}
