//! The bytes of a run of pages, written to the spans that have them.

ghost use Rattle.std.specs.Prelude.{◌≡◌, ◌+◌, ◌-◌, ◌*◌, ◌/◌, ◌<◌, ◌≤◌, length, vec_capacity};
ghost use Rattle.std.specs.Prelude.{IsTrue, IsErr, OnOk};
ghost use Rattle.tree_model.specs.Content.{run_bytes};
ghost use Rattle.fault_count.specs.Counts.{HasCause, Writes, after_write};
ghost use Rattle.page_port.specs.Pages.{IsWhole};
ghost use Rattle.span_store.specs.Held.{bytes_in};
ghost use Rattle.span_store.specs.Order.{EachSized, HaveRun, InOrder, IsOver};
ghost use Rattle.span_store.specs.Pieces.{AreWithinLimit, IsSameRow, spans_in};

use crate::piece::Piece;
use crate::place::{after, last_begun, span_at};
use crate::spans::pages_from;
use page_port::{DeviceFault, Port};

/// Writes the pages from `first` on, by one call of the device for each span. After an error these
/// pages may hold anything.
pub fn write_spans<P: Port>(
    pieces: &mut Vec<Piece<P::S>>,
    port: &mut P,
    first: u32,
    bytes: &[u8],
) -> Result<(), DeviceFault>
    requires filled { AreWithinLimit pieces.old.items }
    requires order { InOrder 0 (spans_in pieces.old.items) }
    requires whole { IsWhole (P.meter port.old).page (length bytes.now) }
    requires held { HaveRun (spans_in pieces.old.items) first
        (length bytes.now / (P.meter port.old).page) }
    requires sized { EachSized P.S.tells (P.meter port.old).page (spans_in pieces.old.items) }
    ensures bytes { OnOk result (IsTrue P.S.tells
        → run_bytes (bytes_in (spans_in pieces.new.items)) first
        (length bytes.now / (P.meter port.old).page) ≡ bytes.now) }
    ensures others { IsOver first (length bytes.now / (P.meter port.old).page)
        (spans_in pieces.old.items) (spans_in pieces.new.items) }
    ensures row { IsSameRow pieces.old.items pieces.new.items }
    ensures sized { EachSized P.S.tells (P.meter port.old).page (spans_in pieces.new.items) }
    ensures counts { OnOk result (P.meter port.new ≡ after_write (P.meter port.old)
        (length bytes.now / (P.meter port.old).page) (P.meter port.new).faults) }
    ensures room { vec_capacity pieces.new ≡ vec_capacity pieces.old }
    ensures writes { Writes (length bytes.now / (P.meter port.old).page)
        (P.meter port.old) (P.meter port.new) }
    ensures cause { HasCause (P.meter port.old).faults (P.meter port.new).faults (IsErr result) }
{
    let size = port.page() as usize;
    let pages = bytes.len() / size;
    let Some(mut at) = last_begun(pieces.as_slice(), first as u64) else {
        unreachable!()
    };
    let mut page = first;
    let mut done = 0;
    while done < pages {
        let span = span_at(pieces.as_slice(), at);
        let count = pages_from(span, page, pages - done);
        let part = &bytes[done * size..(done + count) * size];
        pieces[at.piece].write(at.index, port, page, part)?;
        done += count;
        page += count as u32;
        at = after(pieces.as_slice(), at);
    }
    Ok(())
}
