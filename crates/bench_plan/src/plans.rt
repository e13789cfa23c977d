//! Plans of one edit, again and again.

use edit_plan::{can_plan, plan};
use page_port::Geometry;
use std::alloc::{AllocError, Global};
use threshold_merge::pack;
use tree_model::{Pair, Placed};

/// The bytes of a page.
const PAGE: u32 = 4096;

/// Why the plans weren't made.
#[derive(Clone, Copy, PartialEq, Eq, Debug)]
pub enum Failure {
    /// The place is too far behind.
    Place,
    /// There was no memory.
    Memory,
}

impl From<AllocError> for Failure {
    fn from(_error: AllocError) -> Failure {
        Failure::Memory
    }
}

/// Tests and plans an edit and merges its parts, so many times: 20,000 bytes make way for 100 among
/// four segments of eight pages each, the first of which begins at byte `place` of its object. They
/// begin inside the second and end inside the third.
pub fn plan_rounds(alloc: Global, place: u64, rounds: u32) -> Result<(), Failure> {
    let Some(geometry) = Geometry::new(PAGE, 14, 1, 1, 8) else {
        return Err(Failure::Place);
    };
    let window = [
        segment(place, 0, 3),
        segment(place, 1, 40),
        segment(place, 2, 80),
        segment(place, 3, 120),
    ];
    let at = place.saturating_add(50_000);
    for _round in 0..rounds {
        if !can_plan(&geometry, &window, at, 20_000, 100) {
            return Err(Failure::Place);
        }
        let parts = plan(alloc, &geometry, &window, at, 20_000, 100)?;
        let parts = pack(alloc, parts, PAGE, 8)?;
        if parts.as_slice().is_empty() {
            return Err(Failure::Place);
        }
    }
    Ok(())
}

/// One of the segments, of eight pages.
fn segment(place: u64, number: u64, page: u32) -> Placed {
    Placed {
        start: place.saturating_add(number.saturating_mul(32_768)),
        pair: Pair {
            bytes: 32_768,
            page,
        },
    }
}
