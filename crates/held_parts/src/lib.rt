//! Pages for the made parts of a change: they are asked for, and held from then on; and the entries
//! and the spare pages that they give.
//!
//! What is written on them is left to `part_bytes`, and the tree to `tree_splice`.
#![tactic(auto)]

mod asking;
mod entries;
mod holding;
mod part_runs;
mod spare;

pub use asking::ask_runs;
pub use entries::new_entries;
pub use part_runs::PartRuns;
pub use spare::{past, spare_behind};
