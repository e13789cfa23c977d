//! What a space hands out and takes back, and what it counts.

use page_port::Span;

/// A granted extent: pages in a row of one space, with their owner.
#[derive(Drop)]
pub struct Segment<S: Span> {
    /// The number of the space.
    pub space: u16,
    /// The pages.
    pub span: S,
}

/// How many pages of a space are free, and how many are locked.
#[derive(Clone, Copy, Debug, PartialEq, Eq)]
pub struct Counts {
    pub free: u32,
    pub locked: u32,
}
