//! A source over a reader of the standard library, which tells nothing of its bytes. What the
//! reader itself tells is said of each read.
ghost use Rattle.std.specs.Prelude.{◌≡◌, ℕ, ◌<◌, ◌≤◌, length, take, None, IfOk, IsErr, OnErr};
ghost use Rattle.std.specs.Io.KnownBytes.{Consumes, IsAtEnd, Keeps};
ghost use Rattle.fault_count.specs.Counts.{HasCause};

use crate::source::{Fault, Source};
use fault_count::counted;
use std::io::Read;

/// Reads from `reader`. Each call of it that fails, an interrupted one too, counts as a fault.
#[derive(Drop)]
pub struct StdSource<R: Read> {
    reader: R,
    faults: u64,
}

impl<R: Read> StdSource<R> {
    /// A source over `reader`, with no fault yet.
    pub fn new(reader: R) -> StdSource<R>
        ensures { result ≡ record { reader = reader; faults = 0 } }
    {
        StdSource { reader, faults: 0 }
    }
}

impl<R: Read> Source for StdSource<R> {
    ghost left = { λ _. None };

    ghost faults = { λ s. s.faults };

    fn read(&mut self, out: &mut [u8]) -> Result<usize, Fault>
        requires { 0 < length out.old }
        ensures within { IfOk result (λ n. n ≤ length out.old) }
        ensures cause { HasCause self.old.faults self.new.faults (IsErr result) }

        // The reader's next bytes, where it tells them; none only at its end, and none after a
        // fault.
        ensures moves { IfOk result (λ n. Consumes (R.remaining self.old.reader)
            (R.remaining self.new.reader)
            (take n out.new)) }
        ensures end { IfOk result (λ n. n ≡ 0 → IsAtEnd (R.remaining self.new.reader)) }
        ensures stays { OnErr result (Keeps (R.remaining self.old.reader)
            (R.remaining self.new.reader)) }
    {
        match self.reader.read(out) {
            Ok(count) => Ok(count),
            Err(_) => {
                self.faults = counted(self.faults, 1);
                Err(Fault)
            }
        }
    }
}
