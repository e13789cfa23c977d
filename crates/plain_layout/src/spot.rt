//! A place in a space.

/// A space and a place in it.
#[derive(Clone, Copy)]
pub struct Spot {
    /// The number of the space.
    pub space: u64,
    /// The first page, counted in the space.
    pub at: u64,
}
