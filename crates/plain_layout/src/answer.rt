//! What is granted, or that nothing is.

use crate::spaces::Spaces;

/// What is granted with the pages that are free after it, or the pages that no space had a place
/// for.
#[derive(Drop)]
pub enum Answer<A> {
    /// Granted.
    Got {
        /// What was asked for.
        value: A,
        /// The free pages after it.
        left: Spaces,
    },
    /// Refused.
    Refused {
        /// The pages of the request that was refused last.
        pages: u64,
    },
}
