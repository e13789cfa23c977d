//! The nodes that were read last, kept in memory by their pages.
//!
//! What a cache keeps is a finite map from pages to nodes. It never says that a page holds the
//! node: who keeps one and who forgets it has to know.
#![tactic(auto)]

mod kept;
#[cfg(test)]
mod tests;

pub use kept::Cache;
