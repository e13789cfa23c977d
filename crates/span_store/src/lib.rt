//! The spans that an object owns (its extents), kept by their first pages.
//!
//! Who holds a span knows what its pages hold. A run of pages is read and written by one call of
//! the device for each span that it touches, and a span is found without looking at all of them.
#![tactic(auto)]

mod border;
mod filing;
mod holdings;
mod piece;
mod place;
mod read;
mod row;
mod run;
mod spans;
#[cfg(test)]
mod tests;
mod write;

pub use holdings::Holdings;
