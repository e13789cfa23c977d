//! How a failure of the outside is shown by a count: what failed counts its failed calls, and no
//! layer above answers a fault in whose call that count didn't rise.
//!
//! The counts of a port stand here too. Counts are kept in 64 bits and stay at their last value.
#![tactic(auto)]

mod count;

pub use count::counted;
