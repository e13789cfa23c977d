//! The root of a tree.

/// Where the tree of an object begins. An empty object has no node: height, page and length are 0.
#[derive(Clone, Copy, PartialEq, Eq, Debug)]
pub struct Root {
    /// The levels of nodes; the root's level.
    pub height: u8,
    /// The page of the root node.
    pub page: u32,
    /// The bytes of the object.
    pub length: u64,
}
