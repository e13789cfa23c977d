//! A sink over memory, whose calls of chosen numbers fail.
ghost use Rattle.std.specs.Prelude.{◌≡◌, ◌<◌, ◌≤◌, Some, [], length, take, IsErr, IfOk, OnErr};
ghost use Rattle.std.specs.Prelude.{OnOk};
ghost use Rattle.fault_count.specs.Counts.{HasCause};
ghost use Rattle.edge_io.specs.Moved.{Appends};
ghost use Rattle.edge_io.specs.Doubles.{IsCall, is_fault};

use crate::sink::{Sink, SinkFail};
use fault_count::counted;
use std::alloc::Global;
use std::marker::Model;

/// Keeps the bytes that it takes.
#[derive(Drop)]
pub struct MemSink {
    bytes: Vec<u8>,
    fail: Vec<u64>,
    calls: u64,
    faults: u64,
}

impl Model for MemSink {
    ghost use Rattle.edge_io.specs.Doubles.{Collected};

    ghost Value = { Collected };

    ghost view = { λ s. record {
      taken = s.bytes.items;
      failing = s.fail.items;
      calls = s.calls;
      faults = s.faults;
    } };
}

impl MemSink {
    /// An empty sink, whose calls with the numbers in `fail`, from 1, fail.
    pub fn new(alloc: Global, fail: Vec<u64>) -> MemSink
        ensures { result ≡ record { taken = []; failing = fail.items; calls = 0; faults = 0 } }
    {
        MemSink {
            bytes: Vec::new(alloc),
            fail,
            calls: 0,
            faults: 0,
        }
    }

    /// The bytes that it took.
    pub fn written(&self) -> &[u8]
        ensures { result.now ≡ self.now.taken }
    {
        self.bytes.as_slice()
    }
}

impl Sink for MemSink {
    ghost written = { λ s. Some s.taken };

    ghost faults = { λ s. s.faults };

    fn write(&mut self, bytes: &[u8]) -> Result<usize, SinkFail>
        requires { 0 < length bytes.now }
        ensures some { IfOk result (λ n. 0 < n) }
        ensures within { IfOk result (λ n. n ≤ length bytes.now) }
        ensures appends { IfOk result (λ n.
            Appends (take n bytes.now) (Some self.old.taken) (Some self.new.taken)) }
        ensures stays { OnErr result (self.new.taken ≡ self.old.taken) }
        ensures cause { HasCause self.old.faults self.new.faults
            (result ≡ Err SinkFail.Fault) }

        // What this sink does besides: it takes all at once, and which calls fail.
        ensures whole { IfOk result (λ n. n ≡ length bytes.now) }
        ensures call { IsCall (is_fault result) self.old.failing self.new.failing self.old.calls
            self.new.calls }
    {
        self.calls = counted(self.calls, 1);
        if self.fail.contains(&self.calls) {
            self.faults = counted(self.faults, 1);
            return Err(SinkFail::Fault);
        }
        if self.bytes.extend_from_slice(bytes).is_err() {
            return Err(SinkFail::Memory);
        }
        Ok(bytes.len())
    }
}
