//! The refusal to read a space.

use page_port::Span;

/// Why no space was read.
#[derive(Clone, Copy, Debug, PartialEq, Eq)]
pub enum SpaceFail {
    /// The page isn't the directory page of any set of free pages of the space.
    BadDirectory,
    /// There was no memory.
    Memory,
}

/// A refusal: its cause, and the data pages as they came in.
#[derive(Drop)]
pub struct SpaceRefused<S: Span> {
    pub why: SpaceFail,
    pub span: S,
}
