//! Bytes written on runs of pages.

ghost use Rattle.std.specs.Prelude.{◌≡◌, ℕ, ◌+◌, ◌*◌, ◌<◌, ◌≤◌, length, map, sum, IsTrue, IsErr};
ghost use Rattle.std.specs.Prelude.{OnOk};
ghost use Rattle.fault_count.specs.Counts.{HasCause, Writes};
ghost use Rattle.tree_model.specs.Content.{content};
ghost use Rattle.tree_model.specs.Tree.{page_count};
ghost use Rattle.layout_model.specs.Layout.{segments_on};
ghost use Rattle.span_store.specs.Held.{AllSized, bytes_on};
ghost use Rattle.part_bytes.specs.Runs.{CanWriteOn, StandOn, ChangesRuns};

use layout_model::Extent;
use page_port::{DeviceFault, Port};
use seg_bytes::write_bytes;
use span_store::Holdings;

/// Writes bytes on runs of pages, each full before the next one begins; what is left of the last
/// page becomes zeros. It takes no memory: `scratch` is room for a page.
///
/// # Errors
/// The device failed: the port's count of faults rose. Then the pages of the runs may hold
/// anything.
pub fn write_on<P: Port>(
    held: &mut Holdings<P::S>,
    port: &mut P,
    runs: &[Extent],
    bytes: &[u8],
    scratch: &mut [u8],
) -> Result<(), DeviceFault>
    requires can { CanWriteOn P.S.tells (P.meter port.old).page (length scratch.old)
        (length bytes.now) runs.now held.old }
    ensures bytes { OnOk result (IsTrue P.S.tells
        → StandOn (bytes_on held.new) (P.meter port.old).page runs.now bytes.now) }
    ensures content { OnOk result (IsTrue P.S.tells
        → content (bytes_on held.new) (P.meter port.old).page
        (segments_on (P.meter port.old).page (length bytes.now) runs.now) ≡ bytes.now) }
    ensures others { ChangesRuns P.S.tells (P.meter port.old).page runs.now held.old held.new }
    ensures writes { Writes (page_count (P.meter port.old).page (length bytes.now))
        (P.meter port.old) (P.meter port.new) }
    ensures cause { HasCause (P.meter port.old).faults (P.meter port.new).faults (IsErr result) }
{
    let size = port.page() as u64;
    let mut from = 0;
    for run in runs {
        let left = bytes.len() - from;
        let count = (left as u64).min(run.pages as u64 * size) as usize;
        write_bytes(held, port, run.page, &bytes[from..from + count], scratch)?;
        from += count;
    }
    Ok(())
}
