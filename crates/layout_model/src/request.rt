//! What is asked for a part.

/// The pages that are wished for a part, and those that it needs.
#[derive(Clone, Copy, PartialEq, Eq, Debug)]
pub struct Request {
    /// The wish, at least the need.
    pub want: u32,
    /// The need.
    pub need: u32,
}
