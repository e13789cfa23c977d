//! Search in the tree of an object: the segment that has a byte, and the segments of a range.
//!
//! A search reads each node that it needs once, and none that the cache keeps. Where the device
//! doesn't tell what its pages hold, a page that isn't the node it should be is counted as a fault,
//! and the cache doesn't keep it.
#![tactic(auto)]

mod children;
mod failure;
mod load;
mod page;
mod range;
mod search;
mod start;
#[cfg(test)]
mod tests;

pub use failure::TreeFail;
pub use load::{load as load_node, pairs_of};
pub use node_codec::Placed;
pub use range::entries;
pub use search::{find, length};
pub use tree_model::Root;
