//! What an exchange gives.

use crate::page_runs::Runs;
use tree_read::Root;

/// A tree after an exchange.
#[derive(Drop)]
pub struct Spliced {
    /// The root of the new tree.
    pub root: Root,
    /// The pages of the nodes that were made, from the lowest level upwards and from left to right.
    pub made: Runs,
    /// The pages of the nodes of the old tree that the new one doesn't have.
    pub left: Runs,
}
