//! Small neighbours of an edited object become one part: the leftmost two again and again, in one
//! pass.
//!
//! No byte moves here: a merged part has the pieces of both.
#![tactic(auto)]

mod merge;
#[cfg(test)]
mod tests;

pub use merge::pack;
