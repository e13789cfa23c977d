//! The plan of an edit as a body makes it, in a store with pages of 256 bytes and spaces of 16.

use append_grow::{Fit, Tail, fit};
use edit_plan::{Part, Parts, can_plan, plan};
use layout_model::Part as Laid;
use page_port::Geometry;
use std::alloc::Global;
use std::test::Fail;
use threshold_merge::pack;
use tree_model::{Pair, Placed};

/// A kept part.
pub fn keep(bytes: u64, page: u32) -> Laid {
    Laid::Keep(Pair { bytes, page })
}

/// A segment at a place.
pub fn segment(start: u64, bytes: u64, page: u32) -> Placed {
    Placed {
        start,
        pair: Pair { bytes, page },
    }
}

/// A part without its pieces.
pub fn laid(part: &Part) -> Laid {
    match part {
        Part::Keep(pair) => Laid::Keep(*pair),
        Part::Make(pieces) => Laid::Make(pieces.bytes()),
    }
}

/// The parts of an edit, not merged yet.
pub fn planned(
    alloc: Global,
    window: &[Placed],
    at: u64,
    cut: u64,
    given: u64,
) -> Result<Parts, Fail> {
    let Some(geometry) = Geometry::new(256, 4, 1, 1, 2) else {
        return Err(Fail::from("a small store"));
    };
    if !can_plan(&geometry, window, at, cut, given) {
        return Err(Fail::from("an edit within its window"));
    }
    Ok(plan(alloc, &geometry, window, at, cut, given)?)
}

/// The parts of an edit, merged at a threshold.
pub fn merged(
    alloc: Global,
    threshold: u32,
    window: &[Placed],
    at: u64,
    cut: u64,
    given: u64,
) -> Result<Parts, Fail> {
    let parts = planned(alloc, window, at, cut, given)?;
    Ok(pack(alloc, parts, 256, threshold)?)
}

/// The pages of so many bytes.
pub fn pages(bytes: u64) -> Result<u32, Fail> {
    match u32::try_from(bytes / 256 + (bytes % 256).min(1)) {
        Ok(pages) => Ok(pages),
        Err(_) => Err(Fail::from("more pages than have numbers")),
    }
}

/// Where the new bytes of an append go: by themselves, or as the one new part of these.
pub fn fit_of(last: Pair, spare: u32, given: u64, parts: &[Part]) -> Result<Fit, Fail> {
    let tail = Tail { first: 0, spare };
    if fit(&tail, &last, 256, pages(given)?) == Fit::Extend {
        return Ok(Fit::Extend);
    }
    match one_made(parts) {
        Some(bytes) => Ok(fit(&tail, &last, 256, pages(bytes)?)),
        None => Ok(Fit::Fresh),
    }
}

/// The bytes of the one new part of these.
fn one_made(parts: &[Part]) -> Option<u64> {
    let mut one = None;
    for part in parts {
        if let Part::Make(pieces) = part {
            if one.is_some() {
                return None;
            }
            one = Some(pieces.bytes());
        }
    }
    one
}
