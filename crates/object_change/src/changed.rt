//! What a change that was made leaves.

use layout_model::Extent;
use node_codec::Pairs;
use tree_model::Root;
use tree_splice::Runs;

/// An object after a change: its new tree, and the pages that were granted for it.
#[derive(Drop)]
pub struct Changed {
    /// The root of the new tree.
    pub root: Root,
    /// The spare pages behind its last segment.
    pub spare: Option<Extent>,
    /// The entries that stand in the place of the replaced ones.
    pub entries: Pairs,
    /// The runs of pages that were granted for the made parts, from left to right.
    pub runs: Vec<Extent>,
    /// How many runs each made part has.
    pub counts: Vec<usize>,
    /// The pages of the nodes that were made, from the lowest level upwards and from left to right.
    pub made: Runs,
    /// The pages of the nodes of the old tree that the new one doesn't have.
    pub left: Runs,
}
