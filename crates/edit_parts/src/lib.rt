//! The parts that an edit leaves of an object, with the pieces that the bytes of each new part come
//! from.
//!
//! `specs/Pieces.antt` says what bytes a piece and a part stand for, and where old bytes may come
//! from. How a part is chosen is left to the crates above.
#![tactic(auto)]

mod part;
mod part_list;
mod piece;
mod piece_list;
#[cfg(test)]
mod tests;

pub use part::Part;
pub use part_list::Parts;
pub use piece::Piece;
pub use piece_list::{Pieces, ROOM};
