//! The script and its replies as text: what a line is, what a reply's line is, and when an output
//! is the answer to an input. The crates that read, write and run scripts state their contracts in
//! these words.
//!
//! The grammar is a function that prints: it lists each form once, and whatever it doesn't print is
//! no line. How a line is read is left to `script_text`.
#![tactic(auto)]

mod limits;
mod line;

pub use limits::{MAX_LINE, MAX_SCRIPT, MAX_THRESHOLD};
pub use line::Line;
