//! A lock that was refused.

/// The object is out with another holder.
#[derive(Clone, Copy, Debug, PartialEq, Eq)]
pub struct Busy;
