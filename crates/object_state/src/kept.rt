//! What is kept of a version beside its pages.

use tree_model::Root;

/// The root of a version, none where the object is absent, and its threshold in pages.
#[derive(Clone, Copy)]
pub struct Kept {
    pub root: Option<Root>,
    pub threshold: u16,
}
