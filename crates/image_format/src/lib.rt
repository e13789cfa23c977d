//! The superblock and the catalog entry of an image: read exactly, and written.
//!
//! Both versions of an image are read, and version 2 is written. No call takes memory. Which page
//! has these bytes is left to who reads and writes the pages.
#![tactic(auto)]

mod entry;
mod places;
mod refused;
mod superblock;
#[cfg(test)]
mod tests;

pub use entry::{CatalogEntry, read_entry, write_entry};
pub use page_port::Geometry;
pub use refused::{BadEntry, BadSuper};
pub use superblock::{SuperRead, read_super, write_super};
