//! Blocks of free pages: what a block is, which one a grant takes, and the least order that
//! holds a number of pages. The crates that keep free maps and those that speak of whole stores
//! state their contracts in these words.
//!
//! The definitions stand in `specs/Block.antt`, the functions that compute them on a list of
//! pages in `specs/Place.antt`, and the laws that tie the two in `proofs/Laws.antt`.
#![tactic(auto)]

mod order;
mod run;

pub use order::order_of;
pub use run::{count_pages, insert_run, remove_run};
