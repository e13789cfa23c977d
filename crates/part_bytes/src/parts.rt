//! The new parts of an edit written on their pages.

ghost use Rattle.std.specs.Prelude.{◌≡◌, length, IsTrue, OnOk, Err};
ghost use Rattle.fault_count.specs.Counts.{HasCause};
ghost use Rattle.span_store.specs.Held.{bytes_on};
ghost use Rattle.part_bytes.specs.Parts.{CanWriteParts, ReadsAndWrites, PartsStand};
ghost use Rattle.part_bytes.specs.Parts.{parts_pages, parts_reads};
ghost use Rattle.part_bytes.specs.Runs.{ChangesRuns};

use crate::part::{WriteFail, write_part};
use edit_parts::Part;
use layout_model::Extent;
use page_port::Port;
use span_store::Holdings;
use std::alloc::Global;

/// Writes the new parts of an edit, in their order, on `runs`: each of them on as many of these as
/// its place in `counts` says. Parts that are kept are passed over. `scratch` is room for a page.
///
/// # Errors
/// As of `write_part`. The parts before are written then, so the pages of the runs may hold
/// anything.
pub fn write_parts<P: Port>(
    alloc: Global,
    held: &mut Holdings<P::S>,
    port: &mut P,
    parts: &[Part],
    payload: &[u8],
    counts: &[usize],
    runs: &[Extent],
    scratch: &mut [u8],
) -> Result<(), WriteFail>
    requires can { CanWriteParts P.S.tells (P.meter port.old).page (length scratch.old)
        (length payload.now) parts.now counts.now runs.now held.old }
    ensures bytes { OnOk result (IsTrue P.S.tells
        → PartsStand (bytes_on held.new) (P.meter port.old).page (bytes_on held.old) payload.now
        parts.now counts.now runs.now) }
    ensures others { ChangesRuns P.S.tells (P.meter port.old).page runs.now held.old held.new }
    ensures moves { ReadsAndWrites (parts_reads (P.meter port.old).page parts.now)
        (parts_pages (P.meter port.old).page parts.now) (P.meter port.old) (P.meter port.new) }
    ensures cause { HasCause (P.meter port.old).faults (P.meter port.new).faults
        (result ≡ Err WriteFail.Fault) }
{
    let mut counts = counts;
    let mut runs = runs;
    for part in parts {
        match part {
            Part::Keep(_) => {}
            Part::Make(pieces) => {
                let (first, rest) = counts.split_at(1);
                let (own, behind) = runs.split_at(first[0]);
                write_part(alloc, held, port, pieces, payload, own, scratch)?;
                counts = rest;
                runs = behind;
            }
        }
    }
    Ok(())
}
