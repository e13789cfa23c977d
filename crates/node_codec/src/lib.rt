//! The page of a tree's node: written from a node and read back exactly, with no memory taken.
//!
//! A node has its bytes in one way only, and `decode` refuses every page that holds none.
#![tactic(auto)]

mod pair_list;
mod parsed;
mod read;
#[cfg(test)]
mod tests;
mod write;

pub use pair_list::Pairs;
pub use parsed::{BadNode, Node};
pub use read::decode;
pub use tree_model::{Pair, Placed};
pub use write::encode;
