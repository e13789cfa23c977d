//! The bytes of the parts that an edit makes are written on their pages.
#![tactic(auto)]

mod gathering;
mod part;
mod parts;
#[cfg(test)]
mod tests;
mod writing;

pub use gathering::gather;
pub use part::{WriteFail, write_part};
pub use parts::write_parts;
pub use writing::write_on;
