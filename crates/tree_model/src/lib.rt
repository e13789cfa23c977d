//! What the tree of an object is: its nodes, the bytes of a node's page, the tree that stands on
//! pages, and the bytes that its entries hold.
//!
//! The types are plain data that several crates speak of. The definitions stand in `specs/`: they
//! say what a tree means and nothing of how it is read, written or changed.
#![tactic(auto)]

mod entry;
mod tree;

pub use entry::{Pair, Placed};
pub use tree::Root;
