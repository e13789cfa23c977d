//! The entries that stand for the parts of a plan.

ghost use Rattle.std.specs.Prelude.{◌≡◌, ◌<◌, ◌++◌, map, IfOk, OnOk};
ghost use Rattle.layout_model.specs.Layout.{laid_parts, segments_on};
ghost use Rattle.edit_parts.specs.Parts.{layout_part};
ghost use Rattle.part_store.specs.Asking.{rows};
ghost use Rattle.held_parts.specs.Entries.{HaveRuns};

use edit_parts::Part;
use layout_model::Extent;
use node_codec::{Pair, Pairs};
use std::alloc::{AllocError, Global};

/// The entries of parts: a kept one as it is, a made one on its runs, of which `counts` says how
/// many they are.
pub fn new_entries(
    alloc: Global,
    page: u32,
    parts: &[Part],
    counts: &[usize],
    runs: &[Extent],
) -> Result<Pairs, AllocError>
    requires runs { HaveRuns parts.now counts.now runs.now }
    ensures { IfOk result (λ entries. entries.items
        ≡ laid_parts page (map layout_part parts.now) (rows counts.now runs.now)) }
{
    let mut counts = counts;
    let mut runs = runs;
    let mut entries = Vec::new(alloc);
    for part in parts {
        match part {
            Part::Keep(pair) => entries.push(*pair)?,
            Part::Make(pieces) => {
                let (first, rest) = counts.split_at(1);
                let (own, behind) = runs.split_at(first[0]);
                push_segments(&mut entries, page, pieces.bytes(), own)?;
                counts = rest;
                runs = behind;
            }
        }
    }
    Ok(Pairs::from_vec(entries))
}

/// Puts segments of so many bytes on runs behind other entries: all are full but the last.
fn push_segments(
    entries: &mut Vec<Pair>,
    page: u32,
    bytes: u64,
    runs: &[Extent],
) -> Result<(), AllocError>
    ensures { OnOk result (entries.new.items
        ≡ entries.old.items ++ segments_on page bytes runs.now) }
{
    let mut left = bytes;
    for run in runs {
        let room = run.pages as u64 * page as u64;
        entries.push(Pair {
            bytes: left.min(room),
            page: run.page,
        })?;
        left = left.saturating_sub(room);
    }
    Ok(())
}
