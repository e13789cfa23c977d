//! The end of a transaction.

use crate::Acts;

/// A transaction that has ended.
#[derive(Debug, Drop)]
pub struct End {
    /// Its place in the order of ends.
    pub stamp: u64,
    /// Whose it was, from 1 on.
    pub session: u32,
    /// Which one of that session, from 1 on.
    pub number: u64,
    /// What it did, in order.
    pub acts: Acts,
    /// Whether it was committed, or else aborted.
    pub committed: bool,
}
