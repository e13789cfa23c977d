//! The bytes of pieces gathered into one row.

ghost use Rattle.std.specs.Prelude.{◌≡◌, ℕ, ◌<◌, length, IsTrue, IsErr, OnOk};
ghost use Rattle.std.specs.List.{AllByRecursion};
ghost use Rattle.fault_count.specs.Counts.{HasCause, Reads};
ghost use Rattle.edit_parts.specs.Pieces.{piece_bytes, piece_content, pieces_bytes};
ghost use Rattle.edit_parts.specs.Pieces.{pieces_content};
ghost use Rattle.span_store.specs.Held.{AllSized, bytes_on};
ghost use Rattle.part_bytes.specs.Gathering.{CanGather, piece_reads, pieces_reads};

use edit_parts::Piece;
use page_port::{DeviceFault, Port};
use seg_bytes::read_bytes;
use span_store::Holdings;
use tree_model::{Pair, Placed};

/// Gathers the bytes of pieces: old ones are read from their pages, new ones are those of the
/// payload. It takes no memory: `scratch` is room for a page.
///
/// # Errors
/// The device failed: the port's count of faults rose. Then `out` may have anything.
pub fn gather<P: Port>(
    held: &Holdings<P::S>,
    port: &mut P,
    pieces: &[Piece],
    payload: &[u8],
    out: &mut [u8],
    scratch: &mut [u8],
) -> Result<(), DeviceFault>
    requires scratch { length scratch.old ≡ (P.meter port.old).page }
    requires some { 0 < (P.meter port.old).page }
    requires long { length out.old ≡ pieces_bytes pieces.now }
    requires each { AllByRecursion (CanGather held.now (P.meter port.old).page
        (length payload.now)) pieces.now }
    requires sized { AllSized P.S.tells (P.meter port.old).page held.now }
    ensures bytes { OnOk result (IsTrue P.S.tells → out.new
        ≡ pieces_content (bytes_on held.now) (P.meter port.old).page payload.now pieces.now) }
    ensures reads { Reads (pieces_reads (P.meter port.old).page pieces.now)
        (P.meter port.old) (P.meter port.new) }
    ensures cause { HasCause (P.meter port.old).faults (P.meter port.new).faults (IsErr result) }
{
    let mut done = 0;
    for piece in pieces {
        let count = piece.bytes() as usize;
        let part = &mut out[done..done + count];
        gather_one(held, port, *piece, payload, part, scratch)?;
        done += count;
    }
    Ok(())
}

/// Gathers the bytes of one piece.
fn gather_one<P: Port>(
    held: &Holdings<P::S>,
    port: &mut P,
    piece: Piece,
    payload: &[u8],
    out: &mut [u8],
    scratch: &mut [u8],
) -> Result<(), DeviceFault>
    requires scratch { length scratch.old ≡ (P.meter port.old).page }
    requires some { 0 < (P.meter port.old).page }
    requires long { length out.old ≡ piece_bytes piece }
    requires here { CanGather held.now (P.meter port.old).page (length payload.now) piece }
    requires sized { AllSized P.S.tells (P.meter port.old).page held.now }
    ensures bytes { OnOk result (IsTrue P.S.tells → out.new
        ≡ piece_content (bytes_on held.now) (P.meter port.old).page payload.now piece) }
    ensures reads { Reads (piece_reads (P.meter port.old).page piece)
        (P.meter port.old) (P.meter port.new) }
    ensures cause { HasCause (P.meter port.old).faults (P.meter port.new).faults (IsErr result) }
{
    match piece {
        Piece::Given { from, bytes } => {
            let from = from as usize;
            out.copy_from_slice(&payload[from..from + bytes as usize]);
            Ok(())
        }
        Piece::Old { page, skip, bytes } => {
            let bytes = skip as u64 + bytes;
            let placed = [Placed {
                start: 0,
                pair: Pair { bytes, page },
            }];
            read_bytes(held, port, &placed, skip as u64, out, scratch)
        }
    }
}
