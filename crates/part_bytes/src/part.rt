//! A new part written on its pages.

ghost use Rattle.std.specs.Prelude.{◌≡◌, ◌^◌, ◌<◌, [], ◌∷◌, length, IsErr, IfSome, Err};
ghost use Rattle.std.specs.List.{AllByRecursion};
ghost use Rattle.fault_count.specs.Counts.{HasCause};
ghost use Rattle.edit_parts.specs.declared.piece.Piece.TheVariants.{Given};
ghost use Rattle.edit_parts.specs.Pieces.{pieces_bytes};
ghost use Rattle.part_bytes.specs.Gathering.{CanGather};
ghost use Rattle.part_bytes.specs.Parts.{HasWrittenPart};
ghost use Rattle.part_bytes.specs.Runs.{CanWriteOn};

use crate::gathering::gather;
use crate::writing::write_on;
use edit_parts::{Piece, Pieces};
use layout_model::Extent;
use page_port::{DeviceFault, Port};
use span_store::Holdings;
use std::alloc::Global;

/// Why a part wasn't written.
#[derive(Clone, Copy, Debug, PartialEq, Eq)]
pub enum WriteFail {
    /// The device failed.
    Fault,
    /// There was no memory.
    Memory,
}

/// Writes a new part on its runs of pages: its pieces are gathered, then written, each run full
/// before the next one begins. A part that is one piece of the payload is written from there, and
/// takes no memory. `scratch` is room for a page.
///
/// # Errors
/// - `Fault`: the device failed, and the port's count of faults rose. Then the pages of the runs
///   may hold anything.
/// - `Memory`: there is no memory for the bytes. No page was read or written.
pub fn write_part<P: Port>(
    alloc: Global,
    held: &mut Holdings<P::S>,
    port: &mut P,
    pieces: &Pieces,
    payload: &[u8],
    runs: &[Extent],
    scratch: &mut [u8],
) -> Result<(), WriteFail>
    requires can { CanWriteOn P.S.tells (P.meter port.old).page (length scratch.old)
        (pieces_bytes pieces.now) runs.now held.old }
    requires each { AllByRecursion (CanGather held.old (P.meter port.old).page
        (length payload.now)) pieces.now }
    requires fits { pieces_bytes pieces.now < 2 ^ 64 }
    ensures written { HasWrittenPart P.S.tells (P.meter port.old).page payload.now pieces.now
        runs.now result held.old held.new (P.meter port.old) (P.meter port.new) }
    ensures cause { HasCause (P.meter port.old).faults (P.meter port.new).faults
        (result ≡ Err WriteFail.Fault) }
{
    if let Some((from, bytes)) = one_given(pieces.as_slice()) {
        let from = from as usize;
        let part = &payload[from..from + bytes as usize];
        return match write_on(held, port, runs, part, scratch) {
            Ok(()) => Ok(()),
            Err(_) => Err(WriteFail::Fault),
        };
    }
    let Ok(mut part) = vec![in alloc; 0u8; pieces.bytes() as usize] else {
        return Err(WriteFail::Memory);
    };
    match gather_and_write(
        held,
        port,
        pieces.as_slice(),
        payload,
        &mut part,
        runs,
        scratch,
    ) {
        Ok(()) => Ok(()),
        Err(_) => Err(WriteFail::Fault),
    }
}

/// The bytes before the first of pieces that are one of the payload, and how many it has.
fn one_given(pieces: &[Piece]) -> Option<(u64, u64)>
    ensures { IfSome result (λ r. pieces.now ≡ Given r.0 r.1 ∷ []) }
{
    let (first, rest) = pieces.split_first()?;
    if !rest.is_empty() {
        return None;
    }
    match first {
        Piece::Given { from, bytes } => Some((*from, *bytes)),
        Piece::Old { .. } => None,
    }
}

/// Gathers pieces in `part`, and writes it on its runs.
fn gather_and_write<P: Port>(
    held: &mut Holdings<P::S>,
    port: &mut P,
    pieces: &[Piece],
    payload: &[u8],
    part: &mut [u8],
    runs: &[Extent],
    scratch: &mut [u8],
) -> Result<(), DeviceFault>
    requires can { CanWriteOn P.S.tells (P.meter port.old).page (length scratch.old)
        (pieces_bytes pieces.now) runs.now held.old }
    requires long { length part.old ≡ pieces_bytes pieces.now }
    requires each { AllByRecursion (CanGather held.old (P.meter port.old).page
        (length payload.now)) pieces.now }
    ensures written { HasWrittenPart P.S.tells (P.meter port.old).page payload.now pieces.now
        runs.now result held.old held.new (P.meter port.old) (P.meter port.new) }
    ensures cause { HasCause (P.meter port.old).faults (P.meter port.new).faults (IsErr result) }
{
    gather(held, port, pieces, payload, part, scratch)?;
    write_on(held, port, runs, part, scratch)
}
