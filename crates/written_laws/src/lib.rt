//! Laws from new parts of an edit that were granted their pages and written to what the layout of
//! the edited object asks of its pages.
//!
//! Each law is a function with no argument and no code, whose clause is the law.
#![tactic(auto)]

mod pieces;
mod runs;
mod written;

pub use pieces::{
    held_pieces_have_their_bytes, new_runs_are_apart, pieces_of_held_entries_can_be_gathered,
};
pub use runs::{
    a_part_on_the_spare_can_be_written, granted_parts_can_be_written, granted_runs_suit_the_plan,
};
pub use written::{parts_that_stand_are_made, parts_that_stand_are_written};
