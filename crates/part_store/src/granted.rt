//! What is granted for parts, and why it is refused.

use page_port::Span;
use space_directory::Segment;

/// The pages that were granted for parts, in the order of the parts.
#[derive(Drop)]
pub struct Granted<S: Span> {
    /// The pieces of all parts.
    pub segments: Vec<Segment<S>>,
    /// How many of them each part has.
    pub counts: Vec<usize>,
}

/// Why the pages of parts weren't granted.
#[derive(Clone, Copy, Debug, PartialEq, Eq)]
pub enum AskFail {
    /// No space had a block for so many pages, which were asked for in one piece.
    NoSpace(u32),
    /// There was no memory.
    Memory,
}
