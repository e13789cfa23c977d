//! Why bytes were refused.

use thiserror::Error;

/// Why the first page is no superblock of a store. The first check that fails is named.
#[derive(Clone, Copy, Debug, PartialEq, Eq, Error)]
pub enum BadSuper {
    /// The first 8 bytes aren't the mark.
    #[error("the first eight bytes are not the store's mark")]
    Magic,
    /// The version is neither 1 nor 2.
    #[error("the version is unknown")]
    Version,
    /// A number is out of its range, the kind isn't 0, or a byte from place 24 on isn't zero.
    #[error("a number of the geometry is out of its range")]
    Geometry,
}

/// The 16 bytes are no catalog entry of this version and these numbers.
#[derive(Clone, Copy, Debug, PartialEq, Eq, Error)]
#[error("the bytes are no catalog entry")]
pub struct BadEntry;
