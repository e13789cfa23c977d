//! How new bytes meet spare pages.

/// Where an append puts its bytes.
#[derive(Clone, Copy, PartialEq, Eq, Debug)]
pub enum Fit {
    /// On the spare pages, as more bytes of the last segment.
    Extend,
    /// On the spare pages, as a segment of its own.
    Follow,
    /// On pages that are asked for.
    Fresh,
}
