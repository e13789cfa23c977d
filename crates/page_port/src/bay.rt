//! Bays: the whole device, which hands out its pages and takes them back.
ghost use Rattle.std.specs.Prelude.{◌≡◌, ℕ, ◌+◌, ◌*◌, ◌/◌, ◌≤◌, ◌<◌, ◌++◌, List, length, take};
ghost use Rattle.std.specs.Prelude.{IsTrue, IsSome, IsErr, IfOk, OnOk, OnErr, Err, Some, false};
ghost use Rattle.fault_count.specs.Counts.{HasCause, counted, new_meter};
ghost use Rattle.page_port.specs.Device.{Device, IsFront, IsOfMount, after_mount, after_prepare};
ghost use Rattle.page_port.specs.Device.{after_return, is_home, returned_bytes, with_faults};

use crate::port::{DeviceFault, Port};
use crate::span::Span;

/// Why a bay didn't do what was asked.
#[derive(Debug, Clone, Copy, PartialEq, Eq)]
pub enum BayFail {
    /// The device failed, and the bay's count of faults rose.
    Fault,
    /// There is no memory.
    Memory,
}

/// The whole device (a block device). `mount` hands out its pages as one span, and `restore` takes
/// them back; while no page is out, the bay itself holds all bytes.
pub trait Bay {
    /// Its spans, which own its pages. They may cross to another thread, as its ports may.
    type S: Span + Send;

    /// Its ports, which read and write its spans.
    type P: Port<S = Self::S> + Send;

    // Its bytes, and the pages that it handed out. Where the spans don't tell, bytes and pages of
    // the device say nothing.
    ghost device: { Self → Device };

    /// The number of its bytes.
    fn size(&mut self) -> Result<u64, DeviceFault>
        ensures bytes { IfOk result (λ n. IsTrue Self.S.tells → IsTrue (is_home (device self.old)) →
            n ≡ length (device self.old).bytes) }
        ensures stays { device self.new ≡ with_faults (device self.old) (device self.new).faults }
        ensures cause { HasCause (device self.old).faults (device self.new).faults (IsErr result) };

    /// Reads the first 256 bytes.
    fn probe(&mut self, out: &mut [u8; 256]) -> Result<(), DeviceFault>
        requires { IsTrue Self.S.tells → IsTrue (is_home (device self.old)) →
            256 ≤ length (device self.old).bytes }
        ensures bytes { IsTrue Self.S.tells → IsTrue (is_home (device self.old)) →
            OnOk result (out.new ≡ take 256 (device self.old).bytes) }
        ensures stays { device self.new ≡ with_faults (device self.old) (device self.new).faults }
        ensures cause { HasCause (device self.old).faults (device self.new).faults (IsErr result) };

    /// Makes the size exactly `bytes`. What is new is zero.
    fn prepare(&mut self, bytes: u64) -> Result<(), BayFail>
        requires { IsTrue Self.S.tells → IsTrue (is_home (device self.old)) }
        ensures ok { OnOk result (IsTrue Self.S.tells → device self.new
            ≡ after_prepare (device self.old) bytes (device self.new).faults) }
        ensures mounted { (device self.new).mounted ≡ (device self.old).mounted }
        ensures err { OnErr result
            (device self.new ≡ with_faults (device self.old) (device self.new).faults) }
        ensures cause { HasCause (device self.old).faults (device self.new).faults
            (result ≡ Err BayFail.Fault) };

    /// Hands out its first `pages` pages of `page` bytes, as the span that begins at page 0. The
    /// bay keeps the bytes behind them.
    fn mount(&mut self, page: u32, pages: u32) -> Result<Self::S, BayFail>
        requires some { 1 ≤ pages }
        requires fits { IsTrue Self.S.tells → page * pages ≤ length (device self.old).bytes }
        requires home { IsTrue Self.S.tells → IsTrue (is_home (device self.old)) }
        ensures front { IfOk result (λ s. IsFront Self.S.tells (device self.old) page pages
            (Self.S.start s) (Self.S.contents s)) }
        ensures mounted { OnOk result ((device self.new).mounted ≡ Some page) }
        ensures ok { OnOk result (IsTrue Self.S.tells → device self.new
            ≡ after_mount (device self.old) page pages (device self.new).faults) }
        ensures err { OnErr result
            (device self.new ≡ with_faults (device self.old) (device self.new).faults) }
        ensures cause { HasCause (device self.old).faults (device self.new).faults
            (result ≡ Err BayFail.Fault) };

    /// Makes a port, for the page size of the last mount.
    fn port(&mut self) -> Result<Self::P, BayFail>
        requires { IsSome (device self.old).mounted }
        ensures fresh { IfOk result (λ p.
            (device self.old).mounted ≡ Some (Self.P.meter p).page) }
        ensures counts { IfOk result (λ p. Self.P.meter p ≡ new_meter (Self.P.meter p).page) }
        ensures stays { device self.new ≡ with_faults (device self.old) (device self.new).faults }
        ensures cause { HasCause (device self.old).faults (device self.new).faults
            (result ≡ Err BayFail.Fault) };

    /// Takes a port back, with its faults.
    fn absorb(&mut self, port: Self::P)
        ensures faults { counted (device self.old).faults (Self.P.meter port).faults
            ≤ (device self.new).faults }
        ensures kept { (device self.old).faults ≤ (device self.new).faults }
        ensures none { (Self.P.meter port).faults ≡ 0 →
            (device self.new).faults ≡ (device self.old).faults }
        ensures stays { device self.new ≡ with_faults (device self.old) (device self.new).faults };

    /// Takes pages of the last mount back. It takes no memory.
    fn restore(&mut self, span: Self::S)
        requires { IsTrue Self.S.tells →
            IsOfMount (device self.old) (Self.S.start span) (Self.S.contents span) }
        ensures pages { IsTrue Self.S.tells → (device self.new).pages
            ≡ after_return (Self.S.start span) (Self.S.contents span) (device self.old).pages }
        // The last page to come back: the bytes are those of the pages, and then those behind them.
        ensures home { IsTrue Self.S.tells → is_home (device self.old) ≡ false →
            IsTrue (is_home (device self.new)) → (device self.new).bytes
            ≡ returned_bytes (device self.new).pages ++ (device self.old).bytes }
        ensures away { IsTrue Self.S.tells → is_home (device self.new) ≡ false →
            (device self.new).bytes ≡ (device self.old).bytes }
        ensures others { device self.new ≡ record (device self.old) {
          bytes = (device self.new).bytes;
          pages = (device self.new).pages;
        } };
}
