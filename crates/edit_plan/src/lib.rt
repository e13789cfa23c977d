//! What an edit makes of an object, from the few segments around its place: the parts that stay,
//! the new ones with the pieces of their bytes, and a new part cut over several runs of pages.
//!
//! Nothing is read or written here. Which parts are merged is left to `threshold_merge`, and where
//! the new bytes of an append go to `append_grow`.
#![tactic(auto)]

mod back;
mod cutting;
mod front;
mod law;
mod planning;
mod spot;
mod stretch;
#[cfg(test)]
mod tests;
mod window;

pub use cutting::cut_part;
pub use edit_parts::{Part, Parts, Piece, Pieces};
pub use law::{
    a_window_is_tight, parts_of_a_window_plan_the_object, pieces_of_entries_are_numbered,
};
pub use planning::plan;
pub use window::{can_plan, page_count};
