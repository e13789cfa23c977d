//! Rows of parts and what is left of them, worked by hand.

use crate::pack;
use edit_parts::{Part, Parts, Piece, Pieces};
use std::alloc::{AllocError, Global};
use std::test::Fail;
use tree_model::Pair;

/// A part of so many bytes, kept or new.
fn part(alloc: Global, kept: bool, bytes: u64) -> Result<Part, AllocError> {
    if kept {
        return Ok(Part::Keep(Pair { bytes, page: 3 }));
    }
    let mut pieces = Pieces::with_room(alloc, 1)?;
    pieces.push(Piece::Given { from: 0, bytes })?;
    Ok(Part::Make(pieces))
}

#[test]
fn the_leftmost_two_small_neighbours_become_one(rt: HostRuntime) -> Result<(), Fail> {
    // Pages of 256 bytes; the threshold, three parts, kept or new, and what is left of them.
    let keep = true;
    let make = false;
    let cases = [
        (
            2,
            [(keep, 255), (make, 2), (keep, 256)],
            [(make, 257), (keep, 256), (keep, 0)],
            2,
        ),
        (
            2,
            [(keep, 200), (make, 200), (keep, 200)],
            [(make, 400), (keep, 200), (keep, 0)],
            2,
        ),
        (
            2,
            [(keep, 100), (keep, 100), (keep, 100)],
            [(make, 300), (keep, 0), (keep, 0)],
            1,
        ),
        (
            2,
            [(keep, 600), (make, 100), (keep, 257)],
            [(keep, 600), (make, 100), (keep, 257)],
            3,
        ),
        (
            1,
            [(keep, 1), (make, 1), (keep, 1)],
            [(keep, 1), (make, 1), (keep, 1)],
            3,
        ),
        (
            3,
            [(keep, 512), (make, 513), (keep, 512)],
            [(keep, 512), (make, 513), (keep, 512)],
            3,
        ),
        (
            4,
            [(keep, 512), (make, 513), (keep, 512)],
            [(make, 1025), (keep, 512), (keep, 0)],
            2,
        ),
    ];
    for (threshold, row, want, count) in cases {
        let mut parts = Parts::with_room(rt.alloc(), 3)?;
        for (kept, bytes) in row {
            parts.push(part(rt.alloc(), kept, bytes)?)?;
        }
        let packed = pack(rt.alloc(), parts, 256, threshold)?;
        assert_eq!(rt; packed.as_slice().len(), count, "threshold {threshold}");
        for (part, (kept, bytes)) in packed.as_slice().iter().zip(want) {
            assert_eq!(rt; part.bytes(), bytes, "threshold {threshold}");
            assert_eq!(rt; matches!(part, Part::Keep(_)), kept, "{bytes} bytes");
        }
    }
    Ok(())
}
