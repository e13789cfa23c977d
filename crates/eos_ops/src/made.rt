//! The bytes that a payload stands for.

ghost use Rattle.std.specs.Prelude.{◌≡◌, ◌<◌, ◌≤◌, false, IfOk, OnErr};
ghost use Rattle.eos_ops.specs.declared.limits.TheConstants.{MAX_TRANSFER};
ghost use Rattle.eos_ops.specs.Memory.{IsToMake};
ghost use Rattle.eos_ops.specs.Payloads.{made_byte as byte_of, made_bytes as bytes_of};
ghost use Rattle.eos_ops.specs.Payloads.{payload_bytes, is_long_payload};

use crate::{Bytes, Payload};
use std::alloc::{AllocError, Global};

impl Payload {
    /// The bytes that the payload stands for. Given bytes are moved, and made ones are made once.
    ///
    /// `AllocError` says that there was no memory for made bytes.
    pub fn into_bytes(self, alloc: Global) -> Result<Bytes, AllocError>
        requires { is_long_payload self ≡ false }
        ensures ok { IfOk result (λ bytes. bytes ≡ payload_bytes self) }
        ensures memory { OnErr result (IsToMake self) }
    {
        match self {
            Payload::Given(bytes) => Ok(bytes),
            Payload::Made { len: 0, .. } => Ok(Bytes::new(alloc)),
            Payload::Made { len, start } => Ok(Bytes::from_vec(made_bytes(alloc, len, start)?)),
        }
    }
}

/// The `len` made bytes that begin at `start`.
fn made_bytes(alloc: Global, len: u64, start: u32) -> Result<Vec<u8>, AllocError>
    requires { len ≤ MAX_TRANSFER }
    ensures { IfOk result (λ bytes. bytes.items ≡ bytes_of start len) }
{
    (0..len).map(|i| made_byte(start, i)).collect(alloc)
}

/// Byte `i` of a made payload.
pub fn made_byte(start: u32, i: u64) -> u8
    requires { i < MAX_TRANSFER }
    ensures { result ≡ byte_of start i }
{
    ((u64::from(start) + 7 * i + i / 251) % 256) as u8
}
