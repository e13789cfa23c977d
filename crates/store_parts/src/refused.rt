//! Why a store isn't opened.

use thiserror::Error;

/// Why a store isn't opened. But for the last two, the bytes of the device are no image, and the
/// first check that fails is named.
#[derive(Clone, Copy, Debug, PartialEq, Eq, Error)]
pub enum OpenFail {
    /// There are fewer than 256 bytes, or fewer than the pages of the store have.
    #[error("the image is too short")]
    Short,
    /// The first 8 bytes aren't the mark.
    #[error("the first eight bytes are not the store's mark")]
    BadMagic,
    /// The version is neither 1 nor 2.
    #[error("the version is unknown")]
    BadVersion,
    /// A number of the superblock is out of its range, its kind isn't the objects', or a byte that
    /// has to be zero isn't.
    #[error("a number of the geometry is out of its range")]
    BadGeometry,
    /// The directory page of the space isn't of its form.
    #[error("the directory page of space {space} is not one")]
    BadDirectory { space: u16 },
    /// The catalog entry of the object isn't of its form.
    #[error("the catalog entry of object {object} is not one")]
    BadCatalog { object: u32 },
    /// The page of a tree has no node.
    #[error("page {page} has no node")]
    BadNode { page: u32 },
    /// The tree of the object has a node or a segment that can't stand where it does, or other sums
    /// than it says.
    #[error("the tree of object {object} is not one")]
    BadTree { object: u32 },
    /// The page is in two places of the trees.
    #[error("page {page} is used twice")]
    PageTwice { page: u32 },
    /// The page is in a tree, and free in its directory.
    #[error("page {page} is used and free")]
    PageFree { page: u32 },
    /// The page is neither free nor in a tree.
    #[error("page {page} is neither used nor free")]
    PageLost { page: u32 },
    /// The device failed.
    #[error("the device failed")]
    Fault,
    /// There was no memory.
    #[error("there is no memory")]
    Memory,
}
