//! Laws on the layout of an edit: what merging keeps and where it ends, what the halves of a part
//! are, and that the entries of the new tree are a list splice and its levels name each other.
//!
//! Each law is a function with no argument and no code, whose clause is the law; the lemmas that
//! crates above cite stand in `proofs/`.
#![tactic(auto)]

mod halving;
mod levels;
mod merging;

pub use halving::halves_have_the_threshold;
pub use levels::{a_level_is_spliced, entries_are_spliced, new_levels_name_each_other};
pub use merging::{merging_ends, merging_keeps_bytes};
