//! The bytes of a run of pages, read from the spans that have them.

ghost use Rattle.std.specs.Prelude.{◌≡◌, ◌+◌, ◌-◌, ◌*◌, ◌/◌, ◌<◌, ◌≤◌, length, IsTrue, IsErr, OnOk};
ghost use Rattle.tree_model.specs.Content.{run_bytes};
ghost use Rattle.fault_count.specs.Counts.{HasCause, Reads, after_read};
ghost use Rattle.page_port.specs.Pages.{IsWhole};
ghost use Rattle.span_store.specs.Held.{bytes_in};
ghost use Rattle.span_store.specs.Order.{EachSized, HaveRun, InOrder};
ghost use Rattle.span_store.specs.Pieces.{AreWithinLimit, spans_in};

use crate::piece::Piece;
use crate::place::{after, last_begun, span_at};
use crate::spans::pages_from;
use page_port::{DeviceFault, Port, Span};

/// Reads the pages from `first` on into `out`, by one call of the device for each span.
pub fn read_spans<P: Port>(
    pieces: &[Piece<P::S>],
    port: &mut P,
    first: u32,
    out: &mut [u8],
) -> Result<(), DeviceFault>
    requires filled { AreWithinLimit pieces.now }
    requires order { InOrder 0 (spans_in pieces.now) }
    requires whole { IsWhole (P.meter port.old).page (length out.old) }
    requires held { HaveRun (spans_in pieces.now) first
        (length out.old / (P.meter port.old).page) }
    requires sized { EachSized P.S.tells (P.meter port.old).page (spans_in pieces.now) }
    ensures bytes { OnOk result (IsTrue P.S.tells → out.new
        ≡ run_bytes (bytes_in (spans_in pieces.now)) first
        (length out.old / (P.meter port.old).page)) }
    ensures counts { OnOk result (P.meter port.new ≡ after_read (P.meter port.old)
        (length out.old / (P.meter port.old).page) (P.meter port.new).faults) }
    ensures reads { Reads (length out.old / (P.meter port.old).page)
        (P.meter port.old) (P.meter port.new) }
    ensures cause { HasCause (P.meter port.old).faults (P.meter port.new).faults (IsErr result) }
{
    let size = port.page() as usize;
    let pages = out.len() / size;
    let Some(mut at) = last_begun(pieces, first as u64) else {
        unreachable!()
    };
    let mut page = first;
    let mut done = 0;
    while done < pages {
        let span = span_at(pieces, at);
        let count = pages_from(span, page, pages - done);
        let part = &mut out[done * size..(done + count) * size];
        port.read(span, page - span.first(), part)?;
        done += count;
        page += count as u32;
        at = after(pieces, at);
    }
    Ok(())
}
