//! Bytes of a run of pages.

ghost use Rattle.std.specs.Prelude.{◌≡◌, ◌+◌, ◌/◌, ◌%◌, ◌<◌, ◌≤◌, length, take, drop, IsTrue};
ghost use Rattle.std.specs.Prelude.{IsErr, OnOk};
ghost use Rattle.fault_count.specs.Counts.{HasCause, Reads};
ghost use Rattle.tree_model.specs.Content.{run_bytes};
ghost use Rattle.tree_model.specs.Tree.{page_count};
ghost use Rattle.span_store.specs.Held.{AllSized, HoldsRun, bytes_on};
ghost use Rattle.seg_bytes.specs.Segments.{HasBytes, pages_touched};

use crate::part::read_part;
use page_port::{DeviceFault, Port};
use span_store::Holdings;

/// Reads `count` bytes of a run of pages from byte `skip` of it on. What stands behind them in
/// `out` may have anything then.
pub fn read_from<P: Port>(
    held: &Holdings<P::S>,
    port: &mut P,
    first: u32,
    skip: u64,
    count: usize,
    out: &mut [u8],
    scratch: &mut [u8],
) -> Result<(), DeviceFault>
    requires scratch { length scratch.old ≡ (P.meter port.old).page }
    requires some { 0 < (P.meter port.old).page }
    requires room { count ≤ length out.old }
    requires held { HasBytes held.now (P.meter port.old).page first (skip + count) }
    requires sized { AllSized P.S.tells (P.meter port.old).page held.now }
    ensures bytes { OnOk result (IsTrue P.S.tells → take count out.new ≡ take count (drop skip
        (run_bytes (bytes_on held.now) first
        (page_count (P.meter port.old).page (skip + count))))) }
    ensures reads { Reads (pages_touched (P.meter port.old).page skip count)
        (P.meter port.old) (P.meter port.new) }
    ensures cause { HasCause (P.meter port.old).faults (P.meter port.new).faults (IsErr result) }
{
    let size = port.page() as u64;
    let page = first + (skip / size) as u32;
    let from = (skip % size) as usize;
    if from == 0 {
        return read_front(held, port, page, count, out, scratch);
    }
    let head = (size as usize - from).min(count);
    let (front, rest) = out.split_at_mut(head);
    read_part(held, port, page, from, front, scratch)?;
    read_front(held, port, page + 1, count - head, rest, scratch)
}

/// Reads `count` bytes of a run of pages from its first byte on: by one call for a span where `out`
/// has room for all of the last page. What stands behind them in `out` may have anything then.
fn read_front<P: Port>(
    held: &Holdings<P::S>,
    port: &mut P,
    first: u32,
    count: usize,
    out: &mut [u8],
    scratch: &mut [u8],
) -> Result<(), DeviceFault>
    requires scratch { length scratch.old ≡ (P.meter port.old).page }
    requires some { 0 < (P.meter port.old).page }
    requires room { count ≤ length out.old }
    requires held { HasBytes held.now (P.meter port.old).page first count }
    requires sized { AllSized P.S.tells (P.meter port.old).page held.now }
    ensures bytes { OnOk result (IsTrue P.S.tells → take count out.new ≡ take count
        (run_bytes (bytes_on held.now) first (page_count (P.meter port.old).page count))) }
    ensures reads { Reads (page_count (P.meter port.old).page count)
        (P.meter port.old) (P.meter port.new) }
    ensures cause { HasCause (P.meter port.old).faults (P.meter port.new).faults (IsErr result) }
{
    let size = port.page() as usize;
    let room = count.div_ceil(size) * size;
    if room <= out.len() {
        return read_whole(held, port, first, &mut out[..room]);
    }
    read_exactly(held, port, first, &mut out[..count], scratch)
}

/// Reads bytes of a run of pages from its first byte on, and writes to `out` nothing else: the last
/// page goes by way of scratch where it is wanted in part.
fn read_exactly<P: Port>(
    held: &Holdings<P::S>,
    port: &mut P,
    first: u32,
    out: &mut [u8],
    scratch: &mut [u8],
) -> Result<(), DeviceFault>
    requires scratch { length scratch.old ≡ (P.meter port.old).page }
    requires some { 0 < (P.meter port.old).page }
    requires held { HasBytes held.now (P.meter port.old).page first (length out.old) }
    requires sized { AllSized P.S.tells (P.meter port.old).page held.now }
    ensures bytes { OnOk result (IsTrue P.S.tells → out.new ≡ take (length out.old)
        (run_bytes (bytes_on held.now) first
        (page_count (P.meter port.old).page (length out.old)))) }
    ensures reads { Reads (page_count (P.meter port.old).page (length out.old))
        (P.meter port.old) (P.meter port.new) }
    ensures cause { HasCause (P.meter port.old).faults (P.meter port.new).faults (IsErr result) }
{
    let size = port.page() as usize;
    let pages = out.len() / size;
    let (whole, rest) = out.split_at_mut(pages * size);
    read_whole(held, port, first, whole)?;
    read_part(held, port, first + pages as u32, 0, rest, scratch)
}

/// Reads whole pages. Where there are none, the device isn't called.
fn read_whole<P: Port>(
    held: &Holdings<P::S>,
    port: &mut P,
    first: u32,
    out: &mut [u8],
) -> Result<(), DeviceFault>
    requires even { length out.old % (P.meter port.old).page ≡ 0 }
    requires held { HoldsRun held.now first (length out.old / (P.meter port.old).page) }
    requires sized { AllSized P.S.tells (P.meter port.old).page held.now }
    ensures bytes { OnOk result (IsTrue P.S.tells → out.new ≡ run_bytes (bytes_on held.now) first
        (length out.old / (P.meter port.old).page)) }
    ensures reads { Reads (length out.old / (P.meter port.old).page) (P.meter port.old)
        (P.meter port.new) }
    ensures cause { HasCause (P.meter port.old).faults (P.meter port.new).faults (IsErr result) }
{
    if out.is_empty() {
        return Ok(());
    }
    held.read_run(port, first, out)
}
