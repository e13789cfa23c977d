//! Grants over two spaces of 16 pages, with the enters counted, and over one that is nearly used
//! up.
ghost use Rattle.std.specs.Prelude.{◌≡◌, ◌+◌, ◌≤◌, [], ◌∷◌, length, IfSome, Some, None};
ghost use Rattle.page_port.specs.Pages.{AreOf};
ghost use Rattle.superdirectory.specs.Solo.{rest_of};

use crate::{
    Hint, Hints, Latches, NoSpace, Solo, give_all, grant, grant_parts, lock_run, release,
    unlock_run,
};
use page_port::{Bay, Geometry, MemBay, MemSpan, Span};
use space_directory::{Counts, Space};
use std::alloc::Global;
use std::test::Fail;

/// `Solo`, with the enters of each space counted.
#[derive(Drop)]
struct Counted {
    solo: Solo<MemSpan>,
    enters: [u32; 2],
}

impl Hints for Counted {
    ghost trace = { λ _. None };

    ghost hints = { λ counted. Some counted.solo.hints };

    ghost rest = { λ counted. rest_of counted.solo };

    fn spaces(&self) -> u16 {
        self.solo.spaces()
    }

    fn look(&mut self, s: u16) -> Hint {
        self.solo.look(s)
    }
}

impl Latches for Counted {
    type S = MemSpan;

    type Turn = ();

    fn enter(&mut self, turn: &mut (), s: u16) -> Space<MemSpan> {
        self.enters = one_more(self.enters, s);
        self.solo.enter(turn, s)
    }

    fn take_back(&mut self, s: u16, space: &mut Option<Space<MemSpan>>) {
        self.solo.take_back(s, space);
    }
}

/// The counts of two spaces, with one more for space `s`.
fn one_more(counts: [u32; 2], s: u16) -> [u32; 2] {
    let [zero, one] = counts;
    if s == 0 {
        [zero.saturating_add(1), one]
    } else {
        [zero, one.saturating_add(1)]
    }
}

/// The 36 pages of a store, of 256 bytes.
fn store_pages(alloc: Global) -> Option<MemSpan>
    ensures first { IfSome result (λ span. span.first ≡ 0) }
    ensures count { IfSome result (λ span. length span.pages ≡ 36) }
    ensures sized { IfSome result (λ span. AreOf 256 span.pages) }
{
    let mut bay = MemBay::new(alloc, Vec::new(alloc), Vec::new(alloc));
    let Ok(()) = bay.prepare(9216) else {
        return None;
    };
    let Ok(span) = bay.mount(256, 36) else {
        return None;
    };
    Some(span)
}

/// A space of 16 pages, of which those of the bitmap are free: `count` of them.
fn space_of(
    alloc: Global,
    number: u16,
    count: u8,
    bitmap: [u8; 2],
    span: MemSpan,
) -> Option<Space<MemSpan>>
    requires count { length span.pages ≡ 16 }
    requires sized { AreOf 256 span.pages }
    ensures number { IfSome result (λ v. v.number ≡ number) }
    ensures first { IfSome result (λ v. v.first ≡ span.first) }
    ensures page { IfSome result (λ v. v.page ≡ 256) }
    ensures pages { IfSome result (λ v. length v.free ≡ 16) }
{
    let mut page = [0; 256];
    page[0] = b'D';
    page[1] = b'I';
    page[2] = b'R';
    page[3] = b'1';
    page[7] = (number % 256) as u8;
    page[11] = count;
    page[16] = bitmap[0];
    page[17] = bitmap[1];
    let geometry = Geometry::new(256, 4, 2, 1, 2)?;
    match Space::read_page(alloc, &geometry, number, &page, span) {
        Ok(read) => Some(read.space),
        Err(_) => None,
    }
}

/// Spaces 0 (pages 3 to 18) and 1 (pages 20 to 35), each with its count of free pages and its
/// bitmap.
fn two_spaces(alloc: Global, free: [u8; 2], bitmaps: [[u8; 2]; 2]) -> Option<Counted>
    ensures entered { IfSome result (λ counted. counted.solo.entered ≡ None) }
    ensures pages { IfSome result (λ counted. counted.solo.pages ≡ 16) }
    ensures firsts { IfSome result (λ counted. counted.solo.firsts ≡ 3 ∷ 20 ∷ []) }
{
    let Some(mut rest) = store_pages(alloc) else {
        return None;
    };
    let _head = rest.cut(3);
    let first = rest.cut(16);
    let _directory = rest.cut(1);
    let Some(zero) = space_of(alloc, 0, free[0], bitmaps[0], first) else {
        return None;
    };
    let Some(one) = space_of(alloc, 1, free[1], bitmaps[1], rest) else {
        return None;
    };
    let Ok(spaces) = Vec::from_array(alloc, [zero, one]) else {
        return None;
    };
    match Solo::new(alloc, spaces) {
        Ok(solo) => Some(Counted {
            solo,
            enters: [0, 0],
        }),
        Err(_) => None,
    }
}

/// The first page of a grant from space `start` on.
fn granted(latches: &mut Counted, start: u16, n: u32) -> Result<u32, NoSpace>
    requires start { start ≤ 1 }
    requires some { 1 ≤ n }
    requires fits { n ≤ 16 }
    requires entered { latches.old.solo.entered ≡ None }
    requires pages { latches.old.solo.pages ≡ 16 }
    requires firsts { latches.old.solo.firsts ≡ 3 ∷ 20 ∷ [] }
    ensures entered { latches.new.solo.entered ≡ None }
    ensures pages { latches.new.solo.pages ≡ 16 }
    ensures firsts { latches.new.solo.firsts ≡ 3 ∷ 20 ∷ [] }
{
    match grant(latches, &mut (), start, n) {
        Ok(segment) => Ok(segment.span.first()),
        Err(refused) => Err(refused),
    }
}

#[test]
fn a_grant_takes_the_first_space_that_has_room(rt: HostRuntime) {
    let Some(mut latches) = two_spaces(rt.alloc(), [16, 16], [[255, 255], [255, 255]]) else {
        return assert!(rt; false);
    };
    assert!(rt; granted(&mut latches, 0, 16) == Ok(3));
    assert_eq!(rt; latches.enters, [1, 0]);
    assert!(rt; granted(&mut latches, 0, 9) == Ok(20));
    assert_eq!(rt; latches.enters, [1, 1]);
    assert!(rt; granted(&mut latches, 0, 9) == Err(NoSpace { pages: 9 }));
    assert_eq!(rt; latches.enters, [1, 1]);
    assert!(rt; granted(&mut latches, 0, 4) == Ok(32));
    assert_eq!(rt; latches.enters, [1, 2]);
}

/// What `grant_parts` answers at threshold 2, and the first pages and pages of its pieces, which
/// are given back.
fn halved(
    alloc: Global,
    latches: &mut Counted,
    n: u32,
) -> Result<(Result<(), NoSpace>, Vec<(u32, u32)>), Fail>
    requires some { 1 ≤ n }
    requires fits { n ≤ 16 }
    requires entered { latches.old.solo.entered ≡ None }
    requires pages { latches.old.solo.pages ≡ 16 }
    requires firsts { latches.old.solo.firsts ≡ 3 ∷ 20 ∷ [] }
    ensures entered { latches.new.solo.entered ≡ None }
    ensures pages { latches.new.solo.pages ≡ 16 }
    ensures firsts { latches.new.solo.firsts ≡ 3 ∷ 20 ∷ [] }
{
    let mut into = Vec::with_capacity(alloc, 10)?;
    let mut pieces = Vec::new(alloc);
    match grant_parts(latches, &mut (), 0, n, 2, &mut into) {
        Ok(()) => {
            for segment in &into {
                pieces.push((segment.span.first(), segment.span.pages()))?;
            }
            give_all(latches, &mut (), &mut into);
            Ok((Ok(()), pieces))
        }
        Err(refused) => Ok((Err(refused), pieces)),
    }
}

/// Places 9 to 15 of space 0 are free: the blocks 9, 10 to 11 and 12 to 15. Space 1 is full. So 5
/// pages find no block of 8; 3 of them take the first of places 12 to 15, and 2 places 10 and 11.
/// Each piece that is granted costs one enter, and one where it is given back; a refusal costs
/// none.
#[test]
fn a_part_is_granted_in_halves(rt: HostRuntime) -> Result<(), Fail> {
    let alloc = rt.alloc();
    let Some(mut latches) = two_spaces(alloc, [7, 0], [[0, 127], [0, 0]]) else {
        assert!(rt; false);
        return Ok(());
    };
    let (answer, pieces) = halved(alloc, &mut latches, 5)?;
    assert!(rt; answer == Ok(()));
    assert_eq!(rt; pieces.as_slice(), [(15, 3), (13, 2)].as_slice());
    assert_eq!(rt; latches.enters, [4, 0]);
    let (answer, pieces) = halved(alloc, &mut latches, 6)?;
    assert!(rt; answer == Err(NoSpace { pages: 3 }) && pieces.is_empty());
    assert_eq!(rt; latches.enters, [6, 0]);
    let (answer, pieces) = halved(alloc, &mut latches, 8)?;
    assert!(rt; answer == Err(NoSpace { pages: 2 }) && pieces.is_empty());
    assert_eq!(rt; latches.enters, [10, 0]);
    let (answer, pieces) = halved(alloc, &mut latches, 4)?;
    assert!(rt; answer == Ok(()));
    assert_eq!(rt; pieces.as_slice(), [(15, 4)].as_slice());
    assert_eq!(rt; latches.enters, [12, 0]);
    Ok(())
}

/// The counts of space 1 once 4 of its pages were granted and locked, and 1 of them unlocked.
fn unlocked_counts(mut latches: Counted) -> Option<Counts>
    requires entered { latches.solo.entered ≡ None }
    requires pages { latches.solo.pages ≡ 16 }
    requires firsts { latches.solo.firsts ≡ 3 ∷ 20 ∷ [] }
{
    let Ok(_segment) = grant(&mut latches, &mut (), 1, 4) else {
        return None;
    };
    lock_run(&mut latches, &mut (), 1, 20, 4);
    unlock_run(&mut latches, &mut (), 1, 20, 1);
    let Counted { solo, enters: _ } = latches;
    let spaces = solo.finish();
    let space = spaces.get(1)?;
    Some(space.counts())
}

/// The counts of space 1 once 4 of its pages were granted, locked and released.
fn released_counts(mut latches: Counted) -> Option<Counts>
    requires entered { latches.solo.entered ≡ None }
    requires pages { latches.solo.pages ≡ 16 }
    requires firsts { latches.solo.firsts ≡ 3 ∷ 20 ∷ [] }
{
    let Ok(segment) = grant(&mut latches, &mut (), 1, 4) else {
        return None;
    };
    lock_run(&mut latches, &mut (), 1, 20, 4);
    release(&mut latches, &mut (), segment);
    let Counted { solo, enters: _ } = latches;
    let spaces = solo.finish();
    let space = spaces.get(1)?;
    Some(space.counts())
}

#[test]
fn locked_pages_are_unlocked_or_released(rt: HostRuntime) {
    let alloc = rt.alloc();
    let Some(latches) = two_spaces(alloc, [16, 16], [[255, 255], [255, 255]]) else {
        return assert!(rt; false);
    };
    assert!(rt;
        unlocked_counts(latches)
            == Some(Counts {
                free: 12,
                locked: 3
            })
    );
    let Some(latches) = two_spaces(alloc, [16, 16], [[255, 255], [255, 255]]) else {
        return assert!(rt; false);
    };
    assert!(rt;
        released_counts(latches)
            == Some(Counts {
                free: 16,
                locked: 0
            })
    );
}
