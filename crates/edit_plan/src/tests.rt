//! Plans of small edits and a cut of a new part, worked by hand.

use crate::{Part, Parts, Piece, Pieces, can_plan, cut_part, plan};
use layout_model::Part as Laid;
use page_port::Geometry;
use std::alloc::Global;
use std::test::Fail;
use tree_model::{Pair, Placed};

fn keep(bytes: u64, page: u32) -> Laid {
    Laid::Keep(Pair { bytes, page })
}

fn segment(start: u64, bytes: u64, page: u32) -> Placed {
    Placed {
        start,
        pair: Pair { bytes, page },
    }
}

/// A part without its pieces.
fn laid(part: &Part) -> Laid {
    match part {
        Part::Keep(pair) => Laid::Keep(*pair),
        Part::Make(pieces) => Laid::Make(pieces.bytes()),
    }
}

/// The plan of an edit in a store with pages of 256 bytes and spaces of 16.
fn planned(alloc: Global, window: &[Placed], at: u64, cut: u64, given: u64) -> Result<Parts, Fail> {
    let Some(geometry) = Geometry::new(256, 4, 1, 1, 2) else {
        return Err(Fail::from("a small store"));
    };
    if !can_plan(&geometry, window, at, cut, given) {
        return Err(Fail::from("an edit within its window"));
    }
    Ok(plan(alloc, &geometry, window, at, cut, given)?)
}

/// The plan of an edit of an object of three segments, on pages 3, 8 and 12 and those behind them.
fn of_six_pages(alloc: Global, at: u64, cut: u64, given: u64) -> Result<Parts, Fail> {
    let window = [
        segment(0, 512, 3),
        segment(512, 512, 8),
        segment(1024, 512, 12),
    ];
    planned(alloc, &window, at, cut, given)
}

#[test]
fn plans_have_the_parts_worked_by_hand(rt: HostRuntime) -> Result<(), Fail> {
    // Where bytes are cut out, how many, how many come in, and the parts.
    let cases: [(u64, u64, u64, &[Laid]); 9] = [
        (
            255,
            0,
            1,
            &[keep(255, 3), Laid::Make(2), keep(256, 4), keep(512, 8)],
        ),
        (
            768,
            0,
            1,
            &[
                keep(512, 3),
                keep(256, 8),
                Laid::Make(1),
                keep(256, 9),
                keep(512, 12),
            ],
        ),
        (1500, 0, 1, &[keep(512, 8), keep(476, 12), Laid::Make(37)]),
        (1536, 0, 10, &[keep(512, 12), Laid::Make(10)]),
        (0, 0, 4097, &[Laid::Make(4096), Laid::Make(1), keep(512, 3)]),
        (512, 512, 0, &[keep(512, 3), keep(512, 12)]),
        (
            100,
            1000,
            0,
            &[keep(100, 3), Laid::Make(180), keep(256, 13)],
        ),
        (
            100,
            100,
            50,
            &[keep(100, 3), Laid::Make(106), keep(256, 4), keep(512, 8)],
        ),
        (0, 1536, 0, &[]),
    ];
    for (at, cut, given, want) in cases {
        let parts = of_six_pages(rt.alloc(), at, cut, given)?;
        assert_eq!(rt; parts.as_slice().len(), want.len(), "{cut} at {at}");
        for (part, want) in parts.as_slice().iter().zip(want) {
            assert_eq!(rt; laid(part), *want, "{cut} at {at}");
        }
    }
    Ok(())
}

#[test]
fn a_new_part_has_the_payload_and_the_bytes_up_to_the_border(rt: HostRuntime) -> Result<(), Fail> {
    let parts = of_six_pages(rt.alloc(), 700, 0, 1)?;
    let [Part::Keep(_), Part::Keep(_), Part::Make(new), ..] = parts.as_slice() else {
        return Err(Fail::from("the segment before, and what is left of the one at the place"));
    };
    let want = [
        Piece::Given { from: 0, bytes: 1 },
        Piece::Old {
            page: 8,
            skip: 188,
            bytes: 68,
        },
    ];
    assert_eq!(rt; new.as_slice(), want.as_slice());
    Ok(())
}

#[test]
fn all_parts_of_a_cut_are_full_but_the_last(rt: HostRuntime) -> Result<(), Fail> {
    let mut pieces = Pieces::with_room(rt.alloc(), 2)?;
    pieces.push(Piece::Given {
        from: 0,
        bytes: 600,
    })?;
    pieces.push(Piece::Old {
        page: 7,
        skip: 100,
        bytes: 156,
    })?;
    let cut = cut_part(rt.alloc(), Part::Make(pieces), &[2, 1], 256)?;
    let [Part::Make(first), Part::Make(second)] = cut.as_slice() else {
        return Err(Fail::from("two parts"));
    };
    let full = [Piece::Given {
        from: 0,
        bytes: 512,
    }];
    let rest = [
        Piece::Given {
            from: 512,
            bytes: 88,
        },
        Piece::Old {
            page: 7,
            skip: 100,
            bytes: 156,
        },
    ];
    assert_eq!(rt; first.as_slice(), full.as_slice());
    assert_eq!(rt; second.as_slice(), rest.as_slice());
    Ok(())
}
