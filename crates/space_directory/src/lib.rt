//! One space of a store: its free pages, its locked pages and its directory page.
//!
//! A space is a pair of disjoint sets of its pages: those that are free, and those that are locked
//! until a transaction ends. It owns the spans of its free pages. A grant takes pages out by the
//! buddy rule and hands out their span; a give brings them back. Page numbers are those of the
//! whole store.
#![tactic(auto)]

mod cut;
mod directory;
mod held;
mod read;
mod refused;
mod runs;
mod segment;
mod slots;
mod space;
#[cfg(test)]
mod tests;

pub use read::ReadSpace;
pub use refused::{SpaceFail, SpaceRefused};
pub use segment::{Counts, Segment};
pub use space::Space;
