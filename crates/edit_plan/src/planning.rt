//! The plan of an edit.

ghost use Rattle.std.specs.Prelude.{◌≡◌, ◌+◌, ◌<◌, ◌^◌, [], ◌∷◌, ◌++◌, map, IfOk, OnOk};
ghost use Rattle.layout_model.specs.Parts.{pieces};
ghost use Rattle.edit_parts.specs.declared.part.Part.TheVariants.{Make};
ghost use Rattle.edit_parts.specs.declared.piece.Piece.TheVariants.{Given};
ghost use Rattle.edit_parts.specs.Pieces.{piece_bytes};
ghost use Rattle.edit_plan.specs.Cuts.{IsNumbered, stretches};
ghost use Rattle.edit_plan.specs.Planned.{CanPlan, IsPlan};

use crate::back::back_of;
use crate::front::{keep, keep_front};
use crate::stretch::stretch;
use crate::window::start_of;
use edit_parts::{Part, Parts, Piece};
use page_port::Geometry;
use std::alloc::{AllocError, Global};
use tree_model::Placed;

/// Plans that `cut` bytes at byte `at` of an object make way for `given` new ones, from the
/// segments around them alone.
///
/// The parts are the last segment that ends at the place or before it, what is left of the one that
/// the place lies inside, the new bytes with those up to the next border of a page, in as many
/// parts as have segments of a whole space, what is kept of the segment that the end of the cut
/// lies inside, and the first segment behind it (Biliris 1992). The one refusal is for want of
/// memory.
pub fn plan(
    alloc: Global,
    geometry: &Geometry,
    window: &[Placed],
    at: u64,
    cut: u64,
    given: u64,
) -> Result<Parts, AllocError>
    requires { CanPlan geometry.now window.now at cut given }
    ensures { IfOk result (λ parts. IsPlan geometry.now window.now at cut given parts) }
{
    let place = at - start_of(window);
    let most = geometry.space_pages() as u64 * geometry.page() as u64;
    let mut parts = Parts::with_room(alloc, (given / most) as usize + 6)?;
    keep_front(&mut parts, window, place)?;
    let back = back_of(geometry, window, place + cut);
    make(alloc, &mut parts, given, back.head, geometry.page(), most)?;
    keep(&mut parts, back.right)?;
    keep(&mut parts, back.after)?;
    Ok(parts)
}

/// Puts the new bytes and the head of what is kept behind the parts, as new parts of at most `most`
/// bytes.
fn make(
    alloc: Global,
    parts: &mut Parts,
    given: u64,
    head: Piece,
    page: u32,
    most: u64,
) -> Result<(), AllocError>
    requires some { 0 < page }
    requires most { 0 < most }
    requires numbered { IsNumbered page head }
    requires fits { given + piece_bytes head < 2 ^ 64 }
    ensures { OnOk result (parts.new ≡ parts.old ++ map Make
        (stretches page 0 (pieces most (given + piece_bytes head)) (Given 0 given ∷ head ∷ []))) }
{
    let fresh = [
        Piece::Given {
            from: 0,
            bytes: given,
        },
        head,
    ];
    let total = given + head.bytes();
    let mut from = 0;
    while from < total {
        let to = from + most.min(total - from);
        parts.push(Part::Make(stretch(alloc, &fresh, page, from, to)?))?;
        from = to;
    }
    Ok(())
}
