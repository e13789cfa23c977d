//! Formatting: an empty store is written on a device.
//!
//! The superblock and the catalog are written last, so what was cut short has the old ones. A run
//! of adjacent pages is written by one call of the device. Opening and closing a store are left to
//! the crates above, which write the same pages in the same order.
#![tactic(auto)]

mod blank;
mod formatting;
#[cfg(test)]
mod tests;
mod writing;

pub use formatting::{format, put_super};
pub use writing::{write_page, write_run};
