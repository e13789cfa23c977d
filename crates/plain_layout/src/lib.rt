//! The layout of a change by a plain program: grants over free pages, the levels of the new tree,
//! and both together.
//!
//! The functions are slow and short, and their contracts are the definitions of `layout_model`.
//! They are no part of the product: they serve tests, and whoever wants to try the definitions out.
//! Where a number passes its type they give up by `Fail::Big`.
#![tactic(auto)]

mod answer;
mod cutting;
mod granting;
mod grants;
mod growing;
mod laid_tree;
mod laying;
mod level;
mod new_level;
mod node;
mod pages;
mod placing;
mod runs;
mod site;
mod spaces;
mod spot;
mod touching;
mod tree;

pub use answer::Answer;
pub use cutting::{on_pages, sizes_of};
pub use granting::{all_runs, data_page, halved, node_pages, part_runs, run_of};
pub use grants::Grants;
pub use growing::{count_made, nodes_of_levels, spliced};
pub use laid_tree::Laid;
pub use laying::{extent_pages, fan_out, granted, laid, plan_of};
pub use level::Level;
pub use new_level::NewLevel;
pub use node::{Node, copy_before, copy_nodes, entry_bytes, names_of, pair_of, pairs_of_level};
pub use pages::Pages;
pub use placing::place;
pub use runs::Runs;
pub use site::Site;
pub use spaces::Spaces;
pub use touching::{exchanged, site_of};
pub use tree::{Tree, copy_levels};

#[cfg(test)]
mod tests;
