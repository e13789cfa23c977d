//! What an edit is to a version.

use layout_model::Change;
use plain_layout::Tree;

/// What an edit is to a version of an object.
#[derive(Drop)]
pub enum Effect {
    /// The object refuses it.
    Refuses,
    /// It changes nothing.
    Stays,
    /// This version stands in place of the old one.
    Becomes(Option<Tree>),
    /// A change of the bytes of the tree.
    Changes(Tree, Change),
}
