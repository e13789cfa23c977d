//! A sink over a writer of the standard library, which tells nothing of its bytes. What the writer
//! itself tells is said of each write.
ghost use Rattle.std.specs.Prelude.{◌≡◌, ℕ, ◌<◌, ◌≤◌, length, take, None, IfOk, OnErr};
ghost use Rattle.std.specs.Io.KnownBytes.{Appends, Keeps};
ghost use Rattle.fault_count.specs.Counts.{HasCause};

use crate::sink::{Sink, SinkFail};
use fault_count::counted;
use std::io::Write;

/// Writes to `writer`. Each call of it that fails, or takes nothing, counts as a fault.
#[derive(Drop)]
pub struct StdSink<W: Write> {
    writer: W,
    faults: u64,
}

impl<W: Write> StdSink<W> {
    /// A sink over `writer`, with no fault yet.
    pub fn new(writer: W) -> StdSink<W>
        ensures { result ≡ record { writer = writer; faults = 0 } }
    {
        StdSink { writer, faults: 0 }
    }
}

impl<W: Write> Sink for StdSink<W> {
    ghost written = { λ _. None };

    ghost faults = { λ s. s.faults };

    fn write(&mut self, bytes: &[u8]) -> Result<usize, SinkFail>
        requires { 0 < length bytes.now }
        ensures some { IfOk result (λ n. 0 < n) }
        ensures within { IfOk result (λ n. n ≤ length bytes.now) }
        ensures cause { HasCause self.old.faults self.new.faults (result ≡ Err SinkFail.Fault) }

        // The writer holds the first n bytes more, where it tells what it holds; after a fault
        // none.
        ensures appends { IfOk result (λ n. Appends (W.contents self.old.writer)
            (W.contents self.new.writer)
            (take n bytes.now)) }
        ensures stays { OnErr result (Keeps (W.contents self.old.writer)
            (W.contents self.new.writer)) }
        ensures fault { OnErr result (result ≡ Err SinkFail.Fault) }
    {
        match self.writer.write(bytes) {
            Ok(count) if count > 0 => Ok(count),
            _ => {
                self.faults = counted(self.faults, 1);
                Err(SinkFail::Fault)
            }
        }
    }
}
