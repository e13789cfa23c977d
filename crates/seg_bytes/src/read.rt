//! The bytes of segments, from a position on.

ghost use Rattle.std.specs.Prelude.{◌≡◌, ◌+◌, ◌-◌, ◌<◌, ◌≤◌, length, take, drop, min};
ghost use Rattle.std.specs.Prelude.{IsTrue, IsErr, OnOk};
ghost use Rattle.fault_count.specs.Counts.{HasCause, Reads};
ghost use Rattle.tree_model.specs.Content.{content, segment_bytes};
ghost use Rattle.tree_model.specs.Range.{Covers, pairs_of, start_of};
ghost use Rattle.span_store.specs.Held.{AllSized, bytes_on};
ghost use Rattle.seg_bytes.specs.Segments.{HasScratch, HasSegment, HoldsSegments, pages_touched};
ghost use Rattle.seg_bytes.specs.Segments.{touched};

use crate::run::read_from;
use page_port::{DeviceFault, Port};
use span_store::Holdings;
use tree_model::{Pair, Placed};

/// Reads the bytes of an object from position `at` on, as many as `out` has. `placed` are segments
/// of the object, one after the other, that have them. It takes no memory: `scratch` is room for a
/// page.
///
/// # Errors
/// The device failed: the port's count of faults rose. Then `out` may have anything.
pub fn read_bytes<P: Port>(
    held: &Holdings<P::S>,
    port: &mut P,
    placed: &[Placed],
    at: u64,
    out: &mut [u8],
    scratch: &mut [u8],
) -> Result<(), DeviceFault>
    requires scratch { length scratch.old ≡ (P.meter port.old).page }
    requires some { 0 < (P.meter port.old).page }
    requires covers { Covers placed.now at (at + length out.old) }
    requires held { HoldsSegments held.now (P.meter port.old).page placed.now }
    requires sized { AllSized P.S.tells (P.meter port.old).page held.now }
    ensures bytes { OnOk result (IsTrue P.S.tells → out.new ≡ take (length out.old)
        (drop (at - start_of placed.now)
        (content (bytes_on held.now) (P.meter port.old).page (pairs_of placed.now)))) }
    ensures reads { Reads (touched (P.meter port.old).page (pairs_of placed.now)
        (at - start_of placed.now)
        (length out.old)) (P.meter port.old) (P.meter port.new) }
    ensures cause { HasCause (P.meter port.old).faults (P.meter port.new).faults (IsErr result) }
{
    // The pages of the segments are held, so their numbers lie below this one.
    let _end = held.end();
    let mut skip = bytes_before(placed, at);
    let mut done = 0;
    for segment in placed {
        let bytes = segment.pair.bytes;
        let count = bytes_here(bytes, skip, out.len() - done);
        read_here(
            held,
            port,
            segment.pair,
            skip,
            count,
            &mut out[done..],
            scratch,
        )?;
        skip = skip.saturating_sub(bytes);
        done += count;
    }
    Ok(())
}

/// The bytes of the segments that stand before position `at`.
fn bytes_before(placed: &[Placed], at: u64) -> u64
    ensures { result ≡ at - start_of placed.now }
{
    match placed.first() {
        Some(segment) => at.saturating_sub(segment.start),
        None => at,
    }
}

/// How many of the `left` bytes that are wanted a segment of so many bytes has from byte `skip` on.
fn bytes_here(bytes: u64, skip: u64, left: usize) -> usize
    ensures { result ≡ min left (bytes - skip) }
{
    (left as u64).min(bytes.saturating_sub(skip)) as usize
}

/// Reads `count` bytes of a segment from byte `skip` of it on. Where there are none to read, the
/// device isn't called. What stands behind them in `out` may have anything then.
fn read_here<P: Port>(
    held: &Holdings<P::S>,
    port: &mut P,
    pair: Pair,
    skip: u64,
    count: usize,
    out: &mut [u8],
    scratch: &mut [u8],
) -> Result<(), DeviceFault>
    requires scratch { HasScratch (P.meter port.old).page (length scratch.old) }
    requires room { count ≤ length out.old }
    requires inside { 0 < count → skip + count ≤ pair.bytes }
    requires held { HasSegment held.now (P.meter port.old).page pair }
    requires sized { AllSized P.S.tells (P.meter port.old).page held.now }
    ensures bytes { OnOk result (IsTrue P.S.tells → take count out.new ≡ take count
        (drop skip (segment_bytes (bytes_on held.now) (P.meter port.old).page pair))) }
    ensures reads { Reads (pages_touched (P.meter port.old).page skip count)
        (P.meter port.old) (P.meter port.new) }
    ensures cause { HasCause (P.meter port.old).faults (P.meter port.new).faults (IsErr result) }
{
    if count == 0 {
        return Ok(());
    }
    read_from(held, port, pair.page, skip, count, out, scratch)
}
