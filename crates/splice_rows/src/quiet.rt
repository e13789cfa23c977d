//! A device in memory that tells nothing of its pages, as a file does, and fails at a chosen write.

ghost use Rattle.std.specs.Prelude.{◌≡◌, ◌+◌, ◌^◌, ◌<◌, ◌≤◌, [], replicate, false};

use fault_count::counted;
use page_port::{DeviceFault, Port, Span};
use std::marker::Model;

/// Pages of the device in a row: their numbers alone.
#[derive(Drop)]
pub struct QuietSpan {
    first: u32,
    count: u32,
}

impl Model for QuietSpan {
    ghost use Rattle.std.specs.Prelude.{ℕ, ◌+◌, ◌^◌, ◌<◌, ◌≤◌};

    ghost Value = { ℕ × ℕ };

    ghost view = { λ s. (s.first, s.count) };

    ghost invariant = { λ s. (1 ≤ s.count) × (s.first + s.count < 2 ^ 32) };
}

impl QuietSpan {
    /// The `count` pages from `first` on.
    pub fn new(first: u32, count: u32) -> QuietSpan
        requires some { 1 ≤ count }
        requires fits { first + count < 2 ^ 32 }
        ensures { result ≡ (first, count) }
    {
        QuietSpan { first, count }
    }
}

impl Span for QuietSpan {
    ghost tells = { false };

    ghost start = { λ s. s.0 };

    ghost contents = { λ s. replicate s.1 [] };

    fn first(&self) -> u32 {
        self.first
    }

    fn pages(&self) -> u32 {
        self.count
    }

    fn cut(&mut self, n: u32) -> QuietSpan {
        let front = QuietSpan {
            first: self.first,
            count: n,
        };
        self.first += n;
        self.count -= n;
        front
    }

    fn join(&mut self, next: QuietSpan) {
        self.count += next.count;
    }
}

/// A port to the device, whose pages have 256 bytes.
#[derive(Drop)]
pub struct QuietPort {
    pub bytes: Vec<u8>,
    pub faults: u64,
    pub read: u64,
    pub written: u64,
    /// The write that fails, counted from 1, and 0 where none does.
    pub failing: u64,
}

impl Port for QuietPort {
    type S = QuietSpan;

    ghost meter = { λ p. record {
      page = 256;
      faults = p.faults;
      read = p.read;
      written =
          p.written;
    } };

    fn page(&self) -> u32 {
        256
    }

    fn read(&mut self, s: &QuietSpan, from: u32, out: &mut [u8]) -> Result<(), DeviceFault> {
        self.read = counted(self.read, (out.len() / 256) as u64);
        let at = (s.first as usize + from as usize) * 256;
        if let Some(bytes) = self.bytes.as_slice().get(at..) {
            if out.len() <= bytes.len() {
                out.copy_from_slice(&bytes[..out.len()]);
                return Ok(());
            }
        }
        self.faults = self.faults.saturating_add(1);
        Err(DeviceFault)
    }

    fn write(&mut self, s: &mut QuietSpan, from: u32, bytes: &[u8]) -> Result<(), DeviceFault> {
        self.written = counted(self.written, (bytes.len() / 256) as u64);
        let at = (s.first as usize + from as usize) * 256;
        if self.written != self.failing {
            if let Some(out) = self.bytes.as_mut_slice().get_mut(at..) {
                if bytes.len() <= out.len() {
                    out[..bytes.len()].copy_from_slice(bytes);
                    return Ok(());
                }
            }
        }
        self.faults = self.faults.saturating_add(1);
        Err(DeviceFault)
    }

    fn blame(&mut self) {
        self.faults = self.faults.saturating_add(1);
    }
}
