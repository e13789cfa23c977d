//! Why a call of a body didn't do what was asked.

use thiserror::Error;

/// Why an edit was refused. Nothing changed.
#[derive(Clone, Copy, Debug, PartialEq, Eq, Error)]
pub enum EditFail {
    /// No space has a block for so many pages.
    #[error("no space has a block for {0} pages")]
    NoSpace(u32),
    /// The device failed: the port's count of faults rose.
    #[error("the device failed")]
    Fault,
    /// There was no memory, or the spaces granted a page that was held already. A `create` is never
    /// refused so.
    #[error("out of memory")]
    Memory,
}

/// Why a read was refused. Nothing changed.
#[derive(Clone, Copy, Debug, PartialEq, Eq, Error)]
pub enum LookFail {
    /// The device failed: the port's count of faults rose.
    #[error("the device failed")]
    Fault,
    /// There was no memory for the bytes. A read of no byte is never refused so.
    #[error("out of memory")]
    Memory,
}
