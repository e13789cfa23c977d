//! The object as its user sees it.

use crate::Bytes;

/// An object: absent, or a string of bytes.
#[derive(Debug, Drop)]
pub enum Plain {
    /// There is no such object: it was never created, or was destroyed.
    Absent,
    /// The object has these bytes, which may be none.
    Present(Bytes),
}
