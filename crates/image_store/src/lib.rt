//! The store on a device: formatting, closing, and what is given up.
//!
//! A closing writes the directories, and then the superblock with the catalog, each run of adjacent
//! pages by one call of the device. `specs/Closing.antt` says what they hold.
#![tactic(auto)]

mod catalog;
mod closing;
mod fixed;

pub use closing::close_store;
pub use store_format::format;
pub use store_parts::{Fixed, OpenFail, StoreParts, abandon_store};
