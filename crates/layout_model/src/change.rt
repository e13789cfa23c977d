//! A change of the bytes of an object, by numbers alone.

/// `removed` bytes at `at` make way for `added` ones.
///
/// Only an append, and no insert at the end, meets the spare pages behind the last segment.
#[derive(Clone, Copy, PartialEq, Eq, Debug)]
pub struct Change {
    /// The first byte that is removed, or before which bytes are put.
    pub at: u64,
    /// How many bytes are removed.
    pub removed: u64,
    /// How many bytes take their place.
    pub added: u64,
    /// Whether it is an append.
    pub appends: bool,
}
