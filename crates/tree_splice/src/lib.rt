//! The shadowed splice: a run of a tree's entries is exchanged for others.
//!
//! `way_up` is the way up: which nodes are made anew, from the nodes on the way to the exchange.
#![tactic(auto)]

mod counted;
mod down;
mod draft;
mod exchange;
mod failure;
mod fresh_pages;
mod left;
mod making;
mod naming;
mod new_root;
mod new_tree;
mod node_run;
mod nodes;
mod page_runs;
mod path_level;
mod place;
mod remade;
mod scratch;
mod section;
mod shadow;
mod site;
mod slices;
#[cfg(test)]
mod tests;
mod touched;
mod up;

pub use counted::a_way_is_counted;
pub use failure::SpliceFail;
pub use left::left_pages;
pub use naming::UpFail;
pub use new_tree::Spliced;
pub use node_run::NodeRun;
pub use page_runs::Runs;
pub use page_set::PageRun as Run;
pub use path_level::PathLevel;
pub use remade::Remade;
pub use shadow::splice;
pub use up::way_up;
