//! What a history of sessions is: its transactions, their ends, and what makes it serial.
//!
//! The crate has definitions and their laws, and no code that runs. Each clause above that speaks
//! of many sessions cites it.
#![tactic(auto)]

mod laws;

pub use laws::{ends_determine_the_database, open_transactions_hold};
