//! The bytes of a payload that is kept.
ghost use Rattle.std.specs.Prelude.{◌≡◌, ◌≤◌, length, IfOk};
ghost use Rattle.eos_ops.specs.Payloads as payloads;
ghost use Rattle.eos_ops.specs.declared.limits.TheConstants.{MAX_TRANSFER};

use eos_ops::{Bytes, Payload};
use std::alloc::{AllocError, Global};

/// The bytes of a payload of at most 1,048,576 bytes. Those of a given one are copied.
pub fn payload(alloc: Global, payload: &Payload) -> Result<Bytes, AllocError>
    requires { length (payloads.payload_bytes payload.now) ≤ MAX_TRANSFER }
    ensures { IfOk result (λ bytes. bytes ≡ payloads.payload_bytes payload.now) }
{
    match payload {
        Payload::Given(bytes) => Ok(Bytes::from_vec(Vec::from_slice(alloc, bytes.as_slice())?)),
        Payload::Made { len, start } => {
            let made = Payload::Made {
                len: *len,
                start: *start,
            };
            made.into_bytes(alloc)
        }
    }
}
