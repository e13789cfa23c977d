//! Ports over memory, whose calls of chosen numbers fail.
ghost use Rattle.std.specs.Prelude.{◌≡◌, ◌+◌, ◌/◌, ◌≤◌, ◌<◌, length, IsTrue};
ghost use Rattle.fault_count.specs.Counts.{new_meter};
ghost use Rattle.page_port.specs.Memory.{Calls, Channel};

use crate::mem_span::MemSpan;
use crate::port::{DeviceFault, Port};
use crate::schedule::Schedule;
use fault_count::counted;
use std::marker::Model;

/// A port over memory. Its calls take no memory.
#[derive(Drop)]
pub struct MemPort {
    page: u32,
    faults: u64,
    read: u64,
    written: u64,
    reads: Schedule,
    writes: Schedule,
}

impl Model for MemPort {
    ghost use Rattle.page_port.specs.Memory.{Channel};

    ghost Value = { Channel };

    ghost view = { λ p. record {
      meter = record { page = p.page; faults = p.faults; read = p.read; written = p.written };
      reads = p.reads;
      writes = p.writes;
    } };
}

impl MemPort {
    /// A port for pages of `page` bytes, whose reads and writes with these numbers, from 1, fail.
    pub fn new(page: u32, failing_reads: Vec<u64>, failing_writes: Vec<u64>) -> MemPort
        ensures { result ≡ record {
          meter = new_meter page;
          reads = record { made = 0; failing = failing_reads.items };
          writes = record { made = 0; failing = failing_writes.items };
        } }
    {
        MemPort {
            page,
            faults: 0,
            read: 0,
            written: 0,
            reads: Schedule::new(failing_reads),
            writes: Schedule::new(failing_writes),
        }
    }

    /// How many of its calls failed.
    pub(crate) fn faults(&self) -> u64
        ensures { result ≡ self.now.meter.faults }
    {
        self.faults
    }
}

impl Port for MemPort {
    type S = MemSpan;

    ghost meter = { λ p. p.meter };

    fn page(&self) -> u32 {
        self.page
    }

    fn read(&mut self, s: &MemSpan, from: u32, out: &mut [u8]) -> Result<(), DeviceFault> {
        let size = self.page as usize;
        let count = (out.len() / size) as u64;
        self.read = counted(self.read, count);
        if self.reads.next() {
            self.faults = self.faults.saturating_add(1);
            return Err(DeviceFault);
        }
        s.read(from as usize, size, out);
        Ok(())
    }

    fn write(&mut self, s: &mut MemSpan, from: u32, bytes: &[u8]) -> Result<(), DeviceFault> {
        let size = self.page as usize;
        let count = (bytes.len() / size) as u64;
        self.written = counted(self.written, count);
        if self.writes.next() {
            self.faults = self.faults.saturating_add(1);
            return Err(DeviceFault);
        }
        s.write(from as usize, size, bytes);
        Ok(())
    }

    // Its spans tell their bytes, so nothing is ever found that wasn't written.
    fn blame(&mut self) {}
}
