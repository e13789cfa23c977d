//! The bytes that a command brings.

ghost use Rattle.std.specs.Prelude.{◌≡◌};
ghost use Rattle.eos_ops.specs.Payloads.{is_long_payload};

use crate::{Bytes, MAX_TRANSFER};

/// What an append, an insert or a replace brings: bytes as they were given, or so many made ones.
///
/// Byte `i` of a made payload is `start + 7*i + i/251` modulo 256, the division rounded down.
#[derive(Debug, Drop)]
pub enum Payload {
    /// These bytes.
    Given(Bytes),
    /// Made bytes, of which no more than `MAX_TRANSFER` can be used.
    Made {
        /// How many.
        len: u64,
        /// Byte 0 is this modulo 256.
        start: u32,
    },
}

impl Payload {
    /// Whether it is made and longer than `MAX_TRANSFER`.
    pub fn is_too_long(&self) -> bool
        ensures { result ≡ is_long_payload self.now }
    {
        match self {
            Payload::Given(_) => false,
            Payload::Made { len, .. } => *len > MAX_TRANSFER,
        }
    }
}
