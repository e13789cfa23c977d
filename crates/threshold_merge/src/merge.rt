//! The merging of small neighbours.

ghost use Rattle.std.specs.Prelude.{◌≡◌, ℕ, ◌+◌, ◌<◌, List, ◌∷◌, ◌++◌, map, IfOk, OnOk};
ghost use Rattle.tree_model.specs.Tree.{Pages};
ghost use Rattle.layout_model.specs.declared.part.Part as layout;
ghost use Rattle.layout_model.specs.declared.part.Part.TheVariants.{Make};
ghost use Rattle.layout_model.specs.Pack.{is_small, pack};
ghost use Rattle.layout_model.specs.Parts.{part_bytes};
ghost use Rattle.edit_parts.specs.Parts.{layout_part, pieces_in, pieces_of, parts_content};
ghost use Rattle.threshold_merge.specs.Passed.{then_packed};

use edit_parts::{Part, Parts};
use std::alloc::{AllocError, Global};

/// Merges the leftmost two neighbours that both have fewer than `threshold` pages, of `page` bytes
/// each, into one new part, and so on until there are none. All other parts stay as they are.
///
/// It is one pass: left of the last part that is kept nothing is left to merge.
pub fn pack(alloc: Global, parts: Parts, page: u32, threshold: u32) -> Result<Parts, AllocError>
    requires { 0 < page }
    ensures packed { IfOk result (λ packed. map layout_part packed
        ≡ pack page threshold (map layout_part parts)) }
    ensures pieces { IfOk result (λ packed. pieces_of packed ≡ pieces_of parts) }
    ensures content { IfOk result (λ packed. (at : Pages) (payload : List ℕ) →
        parts_content at page payload packed ≡ parts_content at page payload parts) }
{
    let parts = parts.into_vec();
    let mut packed = Parts::with_room(alloc, parts.len())?;
    for part in parts {
        put(alloc, &mut packed, part, page, threshold)?;
    }
    Ok(packed)
}

/// Puts a part behind the others, as one with the last of them where both are small.
fn put(
    alloc: Global,
    packed: &mut Parts,
    part: Part,
    page: u32,
    threshold: u32,
) -> Result<(), AllocError>
    requires { 0 < page }
    ensures packed { OnOk result ((rest : List layout.Part) →
        then_packed page threshold (map layout_part packed.new) rest
        ≡ then_packed page threshold (map layout_part packed.old) (layout_part part ∷ rest)) }
    ensures pieces { OnOk result (pieces_of packed.new ≡ pieces_of packed.old ++ pieces_in part) }
{
    let Some(last) = packed.pop() else {
        return packed.push(part);
    };
    let small = is_small(&last, page, threshold);
    if small && is_small(&part, page, threshold) {
        packed.push(merged(alloc, last, &part)?)
    } else {
        packed.push(last)?;
        packed.push(part)
    }
}

/// A part and the one behind it as one new part.
fn merged(alloc: Global, part: Part, next: &Part) -> Result<Part, AllocError>
    ensures pieces { IfOk result (λ both. pieces_in both ≡ pieces_in part ++ pieces_in next.now) }
    ensures bytes { IfOk result (λ both. layout_part both
        ≡ Make (part_bytes (layout_part part) + part_bytes (layout_part next.now))) }
{
    let mut pieces = part.into_pieces(alloc)?;
    next.append_to(&mut pieces)?;
    Ok(Part::Make(pieces))
}

/// Whether a part has fewer pages than the threshold.
fn is_small(part: &Part, page: u32, threshold: u32) -> bool
    requires { 0 < page }
    ensures { result ≡ is_small page threshold (layout_part part.now) }
{
    threshold > 0 && part.bytes() <= (threshold as u64 - 1) * page as u64
}
