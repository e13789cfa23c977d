//! The merging of small neighbours.

ghost use Rattle.std.specs.Prelude.{◌≡◌, IfOk};
ghost use Rattle.layout_model.specs.Parts.{part_bytes};
ghost use Rattle.layout_model.specs.Pack.{is_small, pack_from, pack};

use crate::lists::{cons, one};
use crate::numbers::{Fail, add, page_count};
use layout_model::Part;
use std::alloc::Global;

/// The bytes of a part.
pub fn part_bytes(part: Part) -> u64
    ensures { result ≡ part_bytes part }
{
    match part {
        Part::Keep(pair) => pair.bytes,
        Part::Make(bytes) => bytes,
    }
}

/// Whether a part has fewer pages than the threshold.
pub fn is_small(size: u64, least: u64, part: Part) -> Result<bool, Fail>
    ensures { IfOk result (λ small. small ≡ is_small size least part) }
{
    Ok(page_count(size, part_bytes(part))? < least)
}

/// The parts from one in hand on, merged.
pub fn pack_from(
    alloc: Global,
    size: u64,
    least: u64,
    part: Part,
    after: &[Part],
) -> Result<Vec<Part>, Fail>
    ensures { IfOk result (λ parts. parts.items ≡ pack_from size least part after.now) }
{
    match after {
        [] => one(alloc, part),
        [next, others @ ..] => {
            let both = is_small(size, least, part)? && is_small(size, least, *next)?;
            if both {
                let merged = Part::Make(add(part_bytes(part), part_bytes(*next))?);
                pack_from(alloc, size, least, merged, others)
            } else {
                cons(part, pack_from(alloc, size, least, *next, others)?)
            }
        }
    }
}

/// The parts after all merging.
pub fn pack(alloc: Global, size: u64, least: u64, parts: &[Part]) -> Result<Vec<Part>, Fail>
    ensures { IfOk result (λ packed. packed.items ≡ pack size least parts.now) }
{
    match parts {
        [] => Ok(Vec::new(alloc)),
        [part, others @ ..] => pack_from(alloc, size, least, *part, others),
    }
}
