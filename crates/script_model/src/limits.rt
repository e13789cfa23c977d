//! The limits of a script.

/// The most bytes of a line, without its line feed.
pub const MAX_LINE: usize = 65_536;

/// The most bytes of a script.
pub const MAX_SCRIPT: usize = 16_777_216;

/// The greatest threshold that a `create` may name.
pub const MAX_THRESHOLD: u32 = 8192;
