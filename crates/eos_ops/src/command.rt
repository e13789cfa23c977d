//! What a session may ask for, and what a command shows at a look.

ghost use Rattle.std.specs.Prelude.{◌≡◌};
ghost use Rattle.eos_ops.specs.Objects.{object_of, is_too_long as is_too_long_command};

use crate::{MAX_TRANSFER, Payload};

/// A command of one session. `object`, `at` and `len` count objects and bytes from 0.
#[derive(Debug, Drop)]
pub enum Command {
    /// Begins a transaction.
    Begin,
    /// Makes the object, with no bytes. The threshold says from how many pages on a segment of it
    /// may stand beside a smaller one; the plain object doesn't look at it.
    Create {
        object: u64,
        threshold: Option<u32>,
    },
    /// Makes the object absent.
    Destroy {
        object: u64,
    },
    /// Asks for the number of its bytes.
    Length {
        object: u64,
    },
    /// Asks for the `len` bytes from `at` on.
    Read {
        object: u64,
        at: u64,
        len: u64,
    },
    /// Puts the payload at the end.
    Append {
        object: u64,
        payload: Payload,
    },
    /// Puts the payload before the byte `at`.
    Insert {
        object: u64,
        at: u64,
        payload: Payload,
    },
    /// Takes out the `len` bytes from `at` on.
    Delete {
        object: u64,
        at: u64,
        len: u64,
    },
    /// Exchanges the bytes from `at` on for the payload.
    Replace {
        object: u64,
        at: u64,
        payload: Payload,
    },
    /// Ends the transaction and keeps what it did.
    Commit,
    /// Ends the transaction as if it hadn't been.
    Abort,
    /// Asks for the counts of pages.
    Status,
}

impl Command {
    /// The object that the command is on.
    pub fn object(&self) -> Option<u64>
        ensures { result ≡ object_of self.now }
    {
        match self {
            Command::Create { object, .. }
            | Command::Destroy { object }
            | Command::Length { object }
            | Command::Read { object, .. }
            | Command::Append { object, .. }
            | Command::Insert { object, .. }
            | Command::Delete { object, .. }
            | Command::Replace { object, .. } => Some(*object),
            Command::Begin | Command::Commit | Command::Abort | Command::Status => None,
        }
    }

    /// Whether the command brings a made payload, or asks for a read, above `MAX_TRANSFER`.
    pub fn is_too_long(&self) -> bool
        ensures { result ≡ is_too_long_command self.now }
    {
        match self {
            Command::Read { len, .. } => *len > MAX_TRANSFER,
            Command::Append { payload, .. }
            | Command::Insert { payload, .. }
            | Command::Replace { payload, .. } => payload.is_too_long(),
            _ => false,
        }
    }
}
