//! The bytes of segments: read from any place on, and written from a page on.
//!
//! Pages that are wanted whole move straight between the device and the caller's bytes, those in a
//! row in one call, and with them a last page that is read in part, where bytes of the segments
//! behind it are to be written over the rest of it. Only another first or last page in part goes by
//! way of a page of scratch.
#![tactic(auto)]

mod part;
mod read;
mod run;
#[cfg(test)]
mod tests;
mod write;

pub use read::read_bytes;
pub use write::write_bytes;
