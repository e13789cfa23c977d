//! Why a call of a transaction is refused.

/// Why a transaction doesn't begin.
#[derive(Clone, Copy, Debug, PartialEq, Eq)]
pub enum BeginFail {
    /// One is open already.
    Active,
    /// The session's last stamp is the last there is.
    Worn,
}

/// Why an object isn't held, in the order in which the causes are looked at.
#[derive(Clone, Copy, Debug, PartialEq, Eq)]
pub enum HoldFail {
    /// There is no object of this number.
    NoObject,
    /// As many objects are held as may be.
    Full,
    /// The object is out with another holder.
    Busy,
    /// The object's last stamp is the last there is.
    Worn,
    /// There was no memory for its end.
    Memory,
}

/// Why a command on a held object isn't done.
#[derive(Clone, Copy, Debug, PartialEq, Eq)]
pub enum TxnFail {
    /// A create met a present object.
    Exists,
    /// Another command met an absent one.
    Missing,
    /// The command reaches past the end; the object's length.
    Range(u64),
    /// The device failed.
    Fault,
    /// No segment of so many pages is free.
    NoSpace(u32),
    /// There was no memory.
    Memory,
}
