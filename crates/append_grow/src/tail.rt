//! The tail of an object that grows.

/// The spare pages behind the last segment of an object, left by an append in the same transaction.
#[derive(Clone, Copy, PartialEq, Eq, Debug)]
pub struct Tail {
    /// The first spare page.
    pub first: u32,
    /// How many spare pages there are.
    pub spare: u32,
}
