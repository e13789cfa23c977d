//! A new part cut over several runs of pages.

ghost use Rattle.std.specs.Prelude.{◌≡◌, ◌<◌, ◌≤◌, ◌^◌, map, sum, IfOk};
ghost use Rattle.std.specs.List.{AllByRecursion};
ghost use Rattle.tree_model.specs.Tree.{page_count};
ghost use Rattle.layout_model.specs.Parts.{part_bytes};
ghost use Rattle.edit_parts.specs.declared.part.Part.TheVariants.{Make};
ghost use Rattle.edit_parts.specs.Parts.{layout_part, pieces_in};
ghost use Rattle.edit_plan.specs.Cuts.{IsNumbered, lengths_on, stretches};
ghost use Rattle.edit_plan.specs.Planned.{IsCut};

use crate::stretch::stretch;
use edit_parts::{Part, Parts, Piece};
use std::alloc::{AllocError, Global};

/// Cuts a new part into parts for runs of these `pages`, of `page` bytes each, which have room for
/// it. A run is full before the next one begins.
///
/// A part that is kept is cut as one piece. The one refusal is for want of memory.
pub fn cut_part(alloc: Global, part: Part, pages: &[u32], page: u32) -> Result<Parts, AllocError>
    requires some { 0 < page }
    requires numbered { AllByRecursion (IsNumbered page) (pieces_in part) }
    requires fits { part_bytes (layout_part part) < 2 ^ 64 }
    requires enough { page_count page (part_bytes (layout_part part)) ≤ sum pages.now }
    ensures { IfOk result (λ parts. IsCut page part pages.now parts) }
{
    let pieces = part.into_pieces(alloc)?;
    cut_all(alloc, pieces.as_slice(), pieces.bytes(), pages, page)
}

/// Cuts pieces, which have `total` bytes, into parts for runs of these pages.
fn cut_all(
    alloc: Global,
    pieces: &[Piece],
    total: u64,
    pages: &[u32],
    page: u32,
) -> Result<Parts, AllocError>
    requires some { 0 < page }
    requires numbered { AllByRecursion (IsNumbered page) pieces.now }
    ensures { IfOk result (λ parts. parts
        ≡ map Make (stretches page 0 (lengths_on page total pages.now) pieces.now)) }
{
    let mut parts = Parts::with_room(alloc, pages.len())?;
    let mut from = 0;
    for count in pages {
        let to = from + (total - from).min(*count as u64 * page as u64);
        parts.push(Part::Make(stretch(alloc, pieces, page, from, to)?))?;
        from = to;
    }
    Ok(parts)
}
