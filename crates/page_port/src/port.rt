//! Ports: how a session reads and writes the pages of its spans.
ghost use Rattle.std.specs.Prelude.{◌≡◌, ℕ, ◌/◌, ◌≤◌, ◌<◌, Bool, List, length, IsTrue, IsErr};
ghost use Rattle.std.specs.Prelude.{OnOk};
ghost use Rattle.page_port.specs.Pages.{IsSized, FitsPages, KeepsOthers, run_bytes};
ghost use Rattle.fault_count.specs.Counts.{HasCause, Meter, Rose, after_read, after_write};

use crate::span::Span;

/// The device didn't do what was asked.
#[derive(Debug, Clone, Copy, PartialEq, Eq)]
pub struct DeviceFault;

/// One session's channel to the device. It reads and writes whole pages, counts the pages that were
/// asked for, and counts its failed calls. Its calls take no memory.
pub trait Port: Drop {
    /// The spans whose pages it moves.
    type S: Span;

    // Its page size in bytes, and its counts.
    ghost meter: { Self → Meter };

    /// The size of a page in bytes.
    fn page(&self) -> u32
        ensures { result ≡ (meter self.now).page };

    /// Reads whole pages into `out`, from page `from` of the span on.
    fn read(&mut self, s: &Self::S, from: u32, out: &mut [u8]) -> Result<(), DeviceFault>
        requires { FitsPages Self.S.tells (meter self.old).page from (length out.old)
            (Self.S.contents s.now) }
        ensures bytes { OnOk result (IsTrue Self.S.tells →
            out.new ≡ run_bytes from (length out.old / (meter self.old).page)
            (Self.S.contents s.now)) }
        ensures counts { meter self.new ≡ after_read (meter self.old)
            (length out.old / (meter self.old).page) (meter self.new).faults }
        ensures kept { (meter self.old).read ≤ (meter self.new).read }
        ensures cause { HasCause (meter self.old).faults (meter self.new).faults (IsErr result) };

    /// Writes whole pages, from page `from` of the span on. After an error the pages of the range
    /// may hold anything.
    fn write(&mut self, s: &mut Self::S, from: u32, bytes: &[u8]) -> Result<(), DeviceFault>
        requires { FitsPages Self.S.tells (meter self.old).page from (length bytes.now)
            (Self.S.contents s.old) }
        ensures place { Self.S.start s.new ≡ Self.S.start s.old }
        ensures others { KeepsOthers from (length bytes.now / (meter self.old).page)
            (Self.S.contents s.old) (Self.S.contents s.new) }
        ensures sized { IsSized Self.S.tells (meter self.old).page (Self.S.contents s.new) }
        ensures bytes { OnOk result (IsTrue Self.S.tells →
            run_bytes from (length bytes.now / (meter self.old).page) (Self.S.contents s.new)
            ≡ bytes.now) }
        ensures counts { meter self.new ≡ after_write (meter self.old)
            (length bytes.now / (meter self.old).page) (meter self.new).faults }
        ensures kept { (meter self.old).written ≤ (meter self.new).written }
        ensures cause { HasCause (meter self.old).faults (meter self.new).faults (IsErr result) };

    /// Counts a fault of the device that a layer above found: a page that doesn't hold what was
    /// written to it. A port that tells its bytes is never at fault, and stays as it is.
    fn blame(&mut self)
        ensures kept { (meter self.old).faults ≤ (meter self.new).faults }
        ensures faults { (IsTrue Self.S.tells → ⊥) →
            Rose (meter self.old).faults (meter self.new).faults }
        ensures told { IsTrue Self.S.tells → meter self.new ≡ meter self.old }
        ensures counts { meter self.new ≡ record (meter self.old)
            { faults = (meter self.new).faults } };
}
