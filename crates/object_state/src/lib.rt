//! A stored object in a tree of segments: two versions on the pages that it holds, and what the
//! ends of a transaction make of them.
#![tactic(auto)]

mod body;
mod change_runs;
mod changes;
mod creating;
mod cutting;
mod editing;
mod fits;
mod gathering;
mod give;
mod kept;
mod laws;
mod letting_go;
mod outcome;
mod preparing;
mod reading;
mod run_sets;
#[cfg(test)]
mod tests;
mod tree_body;

pub use laws::trees_are_a_kind_of_body;
pub use tree_body::TreeBody;
