//! What a session is answered.

use crate::Bytes;

/// The reply to a command.
#[derive(Debug, Drop)]
pub enum Reply {
    /// Done.
    Ok,
    /// The number of bytes.
    Length(u64),
    /// The bytes that were read.
    Bytes(Bytes),
    /// The command reaches past the end; the object's length.
    Range(u64),
    /// `create` met a present object.
    Exists,
    /// Another command met an absent object.
    Missing,
    /// Another session holds the object.
    Busy,
    /// The transaction holds as many objects as it may.
    Full,
    /// There is no object of this number.
    NoObject,
    /// No space has a free segment of so many pages.
    NoSpace(u32),
    /// The device failed.
    Fault,
    /// No memory was to be had.
    Memory,
    /// No transaction is open.
    Idle,
    /// A transaction is open already.
    Active,
    /// A made payload or a read is longer than it may be.
    TooLong,
    /// The stamp of the session or of the object is the last one.
    Worn,
    /// The numbers of free, of release-locked and of other data pages.
    Status { free: u32, locked: u32, held: u32 },
    /// The transaction is run again from its `begin`.
    Again,
}
