//! Made work: the lines of a script that a start value stands for, run as a script is, and what is
//! told of the run.
//!
//! A generator draws numbers and makes commands of them, not text. What the commands do is left to
//! whatever serves them.
#![tactic(auto)]

mod generator;
mod laws;
mod run;
mod summary;
mod text;

pub use generator::Gen;
pub use laws::each_line_is_counted_once;
pub use run::trial;
pub use summary::Summary;

#[cfg(test)]
mod tests;
