//! The free pages of one space, handed out by the buddy rule.
//!
//! A grant takes the first pages of the lowest maximal block among those of the least order that
//! fits. Contracts see a map as one test a page: whether it is free. The body keeps, for the space
//! and for each of its halves down to the pages, the orders of the blocks in it, so a grant goes
//! down one way and mends one way. Page numbers count from the first data page of the space.
#![tactic(auto)]

mod bits;
mod map;
mod masks;
mod orders;
mod place;
#[cfg(test)]
mod tests;

pub use map::BuddyMap;
