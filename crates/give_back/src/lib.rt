//! Runs of pages that an object holds go back to their spaces.
//!
//! Which pages an object gives back, and when, is left to whoever knows its versions.
#![tactic(auto)]

mod giving;

pub use giving::{give_run, give_runs, space_of};
