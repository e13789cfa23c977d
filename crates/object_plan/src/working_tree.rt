//! The working version of an object, as an edit finds it.

use layout_model::Extent;
use tree_model::Root;

/// The working version of an object whose bytes stand in a tree of segments.
#[derive(Clone, Copy)]
pub struct WorkingTree {
    /// The root of its tree.
    pub root: Root,
    /// From how many pages on a segment may stand beside a smaller one.
    pub threshold: u32,
    /// The spare pages behind its last segment, left by an append of the same transaction.
    pub spare: Option<Extent>,
}
