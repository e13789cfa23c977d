//! A part of one page, read by way of a page of scratch.

ghost use Rattle.std.specs.Prelude.{◌≡◌, ◌+◌, ◌<◌, ◌≤◌, length, take, drop, min, IsTrue, IsErr};
ghost use Rattle.std.specs.Prelude.{OnOk};
ghost use Rattle.fault_count.specs.Counts.{HasCause, Reads};
ghost use Rattle.span_store.specs.Held.{AllSized, bytes_on, has};

use page_port::{DeviceFault, Port};
use span_store::Holdings;

/// Reads bytes of a page from byte `from` of it on. Where there are none to read, the device isn't
/// called.
pub fn read_part<P: Port>(
    held: &Holdings<P::S>,
    port: &mut P,
    page: u32,
    from: usize,
    out: &mut [u8],
    scratch: &mut [u8],
) -> Result<(), DeviceFault>
    requires scratch { length scratch.old ≡ (P.meter port.old).page }
    requires some { 0 < (P.meter port.old).page }
    requires inside { from + length out.old ≤ (P.meter port.old).page }
    requires held { 0 < length out.old → IsTrue (has held.now page) }
    requires sized { AllSized P.S.tells (P.meter port.old).page held.now }
    ensures bytes { OnOk result (IsTrue P.S.tells
        → out.new ≡ take (length out.old) (drop from (bytes_on held.now page))) }
    ensures reads { Reads (min 1 (length out.old)) (P.meter port.old) (P.meter port.new) }
    ensures cause { HasCause (P.meter port.old).faults (P.meter port.new).faults (IsErr result) }
{
    if out.is_empty() {
        return Ok(());
    }
    held.read_run(port, page, scratch)?;
    out.copy_from_slice(&scratch[from..from + out.len()]);
    Ok(())
}
