//! Bytes written from a page on.

ghost use Rattle.std.specs.Prelude.{◌≡◌, ◌+◌, ◌-◌, ◌/◌, ◌%◌, ◌<◌, ◌≤◌, ◌++◌, length, min};
ghost use Rattle.std.specs.Prelude.{replicate, IsTrue, IsErr, OnOk};
ghost use Rattle.fault_count.specs.Counts.{HasCause, Writes};
ghost use Rattle.tree_model.specs.Content.{run_bytes};
ghost use Rattle.tree_model.specs.Tree.{page_count};
ghost use Rattle.span_store.specs.Held.{AllSized, HoldsRun, bytes_on, has};
ghost use Rattle.seg_bytes.specs.Segments.{HoldsBytes};
ghost use Rattle.seg_bytes.specs.Written.{ChangesAlone, StandFrom};

use page_port::{DeviceFault, Port};
use span_store::Holdings;

/// Writes bytes to the pages that begin at `first`; what is left of the last one becomes zeros. It
/// takes no memory: `scratch` is room for a page.
///
/// # Errors
/// The device failed: the port's count of faults rose. Then the pages of these bytes may hold
/// anything.
pub fn write_bytes<P: Port>(
    held: &mut Holdings<P::S>,
    port: &mut P,
    first: u32,
    bytes: &[u8],
    scratch: &mut [u8],
) -> Result<(), DeviceFault>
    requires scratch { length scratch.old ≡ (P.meter port.old).page }
    requires some { 0 < (P.meter port.old).page }
    requires held { HoldsBytes held.old (P.meter port.old).page first (length bytes.now) }
    requires sized { AllSized P.S.tells (P.meter port.old).page held.old }
    ensures bytes { OnOk result (IsTrue P.S.tells
        → StandFrom (bytes_on held.new) (P.meter port.old).page first bytes.now) }
    ensures others { ChangesAlone P.S.tells (P.meter port.old).page first
        (page_count (P.meter port.old).page (length bytes.now)) held.old held.new }
    ensures writes { Writes (page_count (P.meter port.old).page (length bytes.now))
        (P.meter port.old) (P.meter port.new) }
    ensures cause { HasCause (P.meter port.old).faults (P.meter port.new).faults (IsErr result) }
{
    let size = port.page() as usize;
    let pages = bytes.len() / size;
    // The pages of the bytes are held, so their numbers lie below this one.
    let _end = held.end();
    let (whole, rest) = bytes.split_at(pages * size);
    write_whole(held, port, first, whole)?;
    write_last(held, port, first + pages as u32, rest, scratch)
}

/// Writes whole pages. Where there are none, the device isn't called.
fn write_whole<P: Port>(
    held: &mut Holdings<P::S>,
    port: &mut P,
    first: u32,
    bytes: &[u8],
) -> Result<(), DeviceFault>
    requires even { length bytes.now % (P.meter port.old).page ≡ 0 }
    requires held { HoldsRun held.old first (length bytes.now / (P.meter port.old).page) }
    requires sized { AllSized P.S.tells (P.meter port.old).page held.old }
    ensures bytes { OnOk result (IsTrue P.S.tells → run_bytes (bytes_on held.new) first
        (length bytes.now / (P.meter port.old).page) ≡ bytes.now) }
    ensures others { ChangesAlone P.S.tells (P.meter port.old).page first
        (length bytes.now / (P.meter port.old).page) held.old held.new }
    ensures writes { Writes (length bytes.now / (P.meter port.old).page) (P.meter port.old)
        (P.meter port.new) }
    ensures cause { HasCause (P.meter port.old).faults (P.meter port.new).faults (IsErr result) }
{
    if bytes.is_empty() {
        return Ok(());
    }
    held.write_run(port, first, bytes)
}

/// Writes less than a page, with zeros behind it. Where there is nothing, the device isn't called.
fn write_last<P: Port>(
    held: &mut Holdings<P::S>,
    port: &mut P,
    page: u32,
    bytes: &[u8],
    scratch: &mut [u8],
) -> Result<(), DeviceFault>
    requires scratch { length scratch.old ≡ (P.meter port.old).page }
    requires less { length bytes.now < (P.meter port.old).page }
    requires held { 0 < length bytes.now → IsTrue (has held.old page) }
    requires sized { AllSized P.S.tells (P.meter port.old).page held.old }
    ensures bytes { OnOk result (IsTrue P.S.tells → 0 < length bytes.now → bytes_on held.new page
        ≡ bytes.now ++ replicate ((P.meter port.old).page - length bytes.now) 0) }
    ensures others { ChangesAlone P.S.tells (P.meter port.old).page page
        (min 1 (length bytes.now)) held.old held.new }
    ensures writes { Writes (min 1 (length bytes.now)) (P.meter port.old) (P.meter port.new) }
    ensures cause { HasCause (P.meter port.old).faults (P.meter port.new).faults (IsErr result) }
{
    if bytes.is_empty() {
        return Ok(());
    }
    fill(scratch, bytes);
    held.write_run(port, page, scratch)
}

/// Fills a page with these bytes, and with zeros behind them.
fn fill(page: &mut [u8], bytes: &[u8])
    requires { length bytes.now ≤ length page.old }
    ensures { page.new ≡ bytes.now ++ replicate (length page.old - length bytes.now) 0 }
{
    page[..bytes.len()].copy_from_slice(bytes);
    page[bytes.len()..].fill(0);
}
