//! The entries of a tree: a count of bytes and a page, and the same with its place in the object.

/// An entry of a node: how many bytes lie under it, and the page that it names.
///
/// In a node of level 1 it names a segment by its first page, in a node above it the page of a
/// node.
#[derive(Clone, Copy, PartialEq, Eq, Debug)]
pub struct Pair {
    /// The bytes under the entry, at least 1 in a tree.
    pub bytes: u64,
    /// The segment's first page, or the node's page.
    pub page: u32,
}

/// A segment with the place in the object at which its bytes begin.
#[derive(Clone, Copy, PartialEq, Eq, Debug)]
pub struct Placed {
    /// The bytes of the object before the segment.
    pub start: u64,
    /// The segment.
    pub pair: Pair,
}
