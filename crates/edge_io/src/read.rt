//! Reads a source to its end, up to a limit.
ghost use Rattle.std.specs.Prelude.{◌≡◌, ◌≤◌, ℕ, List, length, vec_len, IfOk, OnErr};
ghost use Rattle.fault_count.specs.Counts.{HasCause};
ghost use Rattle.edge_io.specs.Moved.{GaveAll, GaveFront, HasMore};

use crate::source::{Fault, Source};
use std::alloc::Global;

// The bytes asked for at once.
const PIECE: usize = 65536;

/// Why not all of a source was read.
#[derive(Clone, Copy, Debug)]
pub enum ReadFail {
    /// A call of the source failed, and its count of faults rose.
    Fault,
    /// The source gave more bytes than the limit.
    TooLong,
    /// There was no memory for the bytes.
    Memory,
}

/// All bytes up to the end of `source`, of which at most `limit` are taken, in bytes.
pub fn read_all<S: Source>(alloc: Global, source: &mut S, limit: usize) -> Result<Vec<u8>, ReadFail>
    ensures all { IfOk result (λ bytes.
        GaveAll bytes.items (S.left source.old) (S.left source.new)) }
    ensures within { IfOk result (λ bytes. vec_len bytes ≤ limit) }

    // The refusals; after each of them a front of the bytes is gone.
    ensures too_long { result ≡ Err ReadFail.TooLong → HasMore limit (S.left source.old) }
    ensures cause { HasCause (S.faults source.old) (S.faults source.new)
        (result ≡ Err ReadFail.Fault) }
    ensures gone { OnErr result ((given : List ℕ)
        × GaveFront given (S.left source.old) (S.left source.new)) }
{
    let mut bytes = Vec::new(alloc);
    let mut piece = [0u8; PIECE];
    loop {
        let count = match source.read(&mut piece) {
            Ok(count) => count,
            Err(Fault) => return Err(ReadFail::Fault),
        };
        if count == 0 {
            return Ok(bytes);
        }
        if count > limit - bytes.len() {
            return Err(ReadFail::TooLong);
        }
        let (front, _) = piece.split_at(count);
        match bytes.extend_from_slice(front) {
            Ok(()) => {}
            Err(_) => return Err(ReadFail::Memory),
        }
    }
}
