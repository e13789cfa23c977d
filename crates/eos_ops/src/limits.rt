//! The limits that several layers share.

/// How many sessions there are: they are numbered from 1 to this.
pub const SESSIONS: u32 = 64;

/// The most objects that one transaction holds.
pub const MAX_HELD: usize = 16;

/// The most bytes that a made payload has, and that one read asks for.
pub const MAX_TRANSFER: u64 = 1_048_576;

/// The last stamp of an object or a session, `2^62`.
pub const LAST_STAMP: u64 = 4_611_686_018_427_387_904;
