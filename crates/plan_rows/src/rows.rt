//! Edits worked by hand: their merged parts, the pieces of the new ones, and how appends grow.

use crate::edit::{fit_of, keep, laid, merged, pages, planned, segment};
use append_grow::{Fit, ask};
use edit_plan::{Part, Piece, Pieces, cut_part};
use layout_model::Part as Laid;
use std::test::Fail;
use tree_model::{Pair, Placed};

/// Bytes of a page.
fn old(page: u32, skip: u32, bytes: u64) -> Piece {
    Piece::Old { page, skip, bytes }
}

/// Whether the new parts' pieces are just these.
fn has_pieces(parts: &[Part], want: &[Piece]) -> bool {
    let mut left = want;
    for part in parts {
        if let Part::Make(pieces) = part {
            for piece in pieces.as_slice() {
                let Some((first, rest)) = left.split_first() else {
                    return false;
                };
                if first != piece {
                    return false;
                }
                left = rest;
            }
        }
    }
    left.is_empty()
}

/// One byte that is put into 512 bytes on pages 3 and 4, at, just before and just behind the border
/// of the pages, and at threshold 8; and an object of 1,280 bytes in one part.
#[test]
fn small_neighbours_of_a_new_byte_are_merged(rt: HostRuntime) -> Result<(), Fail> {
    let two_pages = [segment(0, 512, 3)];
    let byte = Piece::Given { from: 0, bytes: 1 };
    // The threshold, the place, the parts, and the pieces of the new one.
    let cases: [(u32, u64, &[Laid], &[Piece]); 4] = [
        (
            2,
            255,
            &[Laid::Make(257), keep(256, 4)],
            &[old(3, 0, 255), byte, old(3, 255, 1)],
        ),
        (
            2,
            256,
            &[Laid::Make(257), keep(256, 4)],
            &[old(3, 0, 256), byte],
        ),
        (
            2,
            257,
            &[keep(257, 3), Laid::Make(256)],
            &[byte, old(4, 1, 255)],
        ),
        (
            8,
            256,
            &[Laid::Make(513)],
            &[old(3, 0, 256), byte, old(4, 0, 256)],
        ),
    ];
    for (threshold, at, want, pieces) in cases {
        let parts = merged(rt.alloc(), threshold, &two_pages, at, 0, 1)?;
        assert_eq!(rt;
            parts.as_slice().len(),
            want.len(),
            "at {at}, threshold {threshold}"
        );
        for (part, want) in parts.as_slice().iter().zip(want) {
            assert_eq!(rt; laid(part), *want, "at {at}, threshold {threshold}");
        }
        assert!(rt;
            has_pieces(parts.as_slice(), pieces),
            "at {at}, threshold {threshold}"
        );
    }
    Ok(())
}

/// 512 bytes, one byte at 255 without merging: what is left, the new bytes, and what is kept.
#[test]
fn a_byte_before_a_border_makes_a_part_of_two_bytes(rt: HostRuntime) -> Result<(), Fail> {
    let parts = planned(rt.alloc(), &[segment(0, 512, 3)], 255, 0, 1)?;
    let want = [keep(255, 3), Laid::Make(2), keep(256, 4)];
    assert_eq!(rt; parts.as_slice().len(), want.len());
    for (part, want) in parts.as_slice().iter().zip(want) {
        assert_eq!(rt; laid(part), want);
    }
    Ok(())
}

/// Appends of 256 bytes: the first two become one segment, the third stands behind it and gets pages
/// for more, and the fourth grows it. And the twenty-first entry of an object.
#[test]
fn appends_merge_then_double_then_grow(rt: HostRuntime) -> Result<(), Fail> {
    // The last segment, the spare pages behind it, the new bytes, the parts, where they go, and the
    // pages that are asked for.
    let cases: [(&[Placed], u32, u64, &[Laid], Fit, u32); 6] = [
        (&[], 0, 256, &[Laid::Make(256)], Fit::Fresh, 1),
        (
            &[segment(0, 256, 3)],
            0,
            256,
            &[Laid::Make(512)],
            Fit::Fresh,
            2,
        ),
        (
            &[segment(0, 512, 5)],
            0,
            256,
            &[keep(512, 5), Laid::Make(256)],
            Fit::Fresh,
            4,
        ),
        (
            &[segment(512, 256, 7)],
            3,
            256,
            &[Laid::Make(512)],
            Fit::Extend,
            2,
        ),
        (
            &[segment(9728, 512, 3)],
            0,
            256,
            &[keep(512, 3), Laid::Make(256)],
            Fit::Fresh,
            4,
        ),
        (&[], 0, 1280, &[Laid::Make(1280)], Fit::Fresh, 5),
    ];
    for (window, spare, given, want, fit, wish) in cases {
        let (last, at) = match window {
            [] => (Pair { bytes: 0, page: 0 }, 0),
            [segment, ..] => (
                segment.pair,
                segment.start.saturating_add(segment.pair.bytes),
            ),
        };
        let parts = merged(rt.alloc(), 2, window, at, 0, given)?;
        assert_eq!(rt; parts.as_slice().len(), want.len(), "{given} at {at}");
        for (part, want) in parts.as_slice().iter().zip(want) {
            assert_eq!(rt; laid(part), *want, "{given} at {at}");
        }
        assert!(rt;
            fit_of(last, spare, given, parts.as_slice())? == fit,
            "{given} at {at}"
        );
        assert_eq!(rt; asked(parts.as_slice(), last)?, wish, "{given} at {at}");
    }
    Ok(())
}

/// The pages that are asked for the last of these parts, behind a segment.
fn asked(parts: &[Part], last: Pair) -> Result<u32, Fail> {
    let mut needed = 0;
    for part in parts {
        if let Part::Make(pieces) = part {
            needed = pages(pieces.bytes())?;
        }
    }
    Ok(ask(needed, pages(last.bytes)?.min(16), 16))
}

/// Five pages that no space has in one piece are a run of three and one of two.
#[test]
fn a_part_is_cut_over_its_halves(rt: HostRuntime) -> Result<(), Fail> {
    let mut pieces = Pieces::with_room(rt.alloc(), 1)?;
    pieces.push(Piece::Given {
        from: 0,
        bytes: 1280,
    })?;
    let cut = cut_part(rt.alloc(), Part::Make(pieces), &[3, 2], 256)?;
    let [first, second] = cut.as_slice() else {
        return Err(Fail::from("two parts"));
    };
    assert_eq!(rt; laid(first), Laid::Make(768));
    assert_eq!(rt; laid(second), Laid::Make(512));
    Ok(())
}
