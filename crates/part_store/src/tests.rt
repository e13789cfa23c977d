//! Parts asked for over a space of 16 pages, pages 3 to 18, of which the last seven are free.
ghost use Rattle.std.specs.Prelude.{◌≡◌, ◌+◌, ◌≤◌, [], ◌∷◌, length, IfSome, Some, None};
ghost use Rattle.std.specs.List.{AllByRecursion};
ghost use Rattle.page_port.specs.Pages.{AreOf};
ghost use Rattle.part_store.specs.Asking.{IsAskable};

use crate::{AskFail, ask_parts};
use layout_model::Request;
use page_port::{Bay, Geometry, MemBay, MemSpan, Span};
use space_directory::Space;
use std::alloc::Global;
use std::test::Fail;
use superdirectory::{Solo, give_all};

/// The 19 pages of a store, of 256 bytes.
fn store_pages(alloc: Global) -> Option<MemSpan>
    ensures first { IfSome result (λ span. span.first ≡ 0) }
    ensures count { IfSome result (λ span. length span.pages ≡ 19) }
    ensures sized { IfSome result (λ span. AreOf 256 span.pages) }
{
    let mut bay = MemBay::new(alloc, Vec::new(alloc), Vec::new(alloc));
    let Ok(()) = bay.prepare(4864) else {
        return None;
    };
    let Ok(span) = bay.mount(256, 19) else {
        return None;
    };
    Some(span)
}

/// The space, with its places 9 to 15 free: the blocks 9, 10 to 11 and 12 to 15.
fn space_of(alloc: Global, span: MemSpan) -> Option<Space<MemSpan>>
    requires count { length span.pages ≡ 16 }
    requires sized { AreOf 256 span.pages }
    ensures number { IfSome result (λ v. v.number ≡ 0) }
    ensures page { IfSome result (λ v. v.page ≡ 256) }
    ensures pages { IfSome result (λ v. length v.free ≡ 16) }
{
    let mut page = [0; 256];
    page[0] = b'D';
    page[1] = b'I';
    page[2] = b'R';
    page[3] = b'1';
    page[11] = 7;
    page[17] = 127;
    let geometry = Geometry::new(256, 4, 1, 1, 2)?;
    match Space::read_page(alloc, &geometry, 0, &page, span) {
        Ok(read) => Some(read.space),
        Err(_) => None,
    }
}

/// The spaces of the store: that one.
fn one_space(alloc: Global) -> Option<Solo<MemSpan>>
    ensures entered { IfSome result (λ solo. solo.entered ≡ None) }
    ensures pages { IfSome result (λ solo. solo.pages ≡ 16) }
    ensures firsts { IfSome result (λ solo. length solo.firsts ≡ 1) }
{
    let Some(mut rest) = store_pages(alloc) else {
        return None;
    };
    let _head = rest.cut(3);
    let Some(zero) = space_of(alloc, rest) else {
        return None;
    };
    let Ok(spaces) = Vec::from_array(alloc, [zero]) else {
        return None;
    };
    match Solo::new(alloc, spaces) {
        Ok(solo) => Some(solo),
        Err(_) => None,
    }
}

/// What is granted for these parts at threshold 2: how many pieces each has, and the first page and
/// the pages of each piece. All are given back.
fn asked(
    alloc: Global,
    solo: &mut Solo<MemSpan>,
    requests: &[Request],
) -> Result<Result<(Vec<usize>, Vec<(u32, u32)>), AskFail>, Fail>
    requires each { AllByRecursion (IsAskable 16) requests.now }
    requires entered { solo.old.entered ≡ None }
    requires pages { solo.old.pages ≡ 16 }
    requires firsts { length solo.old.firsts ≡ 1 }
    ensures entered { solo.new.entered ≡ None }
    ensures pages { solo.new.pages ≡ 16 }
    ensures firsts { length solo.new.firsts ≡ 1 }
{
    let mut granted = match ask_parts(alloc, solo, &mut (), 0, 2, requests) {
        Ok(granted) => granted,
        Err(refused) => return Ok(Err(refused)),
    };
    let mut pieces = Vec::new(alloc);
    for segment in &granted.segments {
        pieces.push((segment.span.first(), segment.span.pages()))?;
    }
    give_all(solo, &mut (), &mut granted.segments);
    Ok(Ok((granted.counts, pieces)))
}

/// A wish of 8 pages has no place; nor have 5, and so they are halved. 2 pages take the block of 2,
/// 1 page that of 1. 4 pages and then 4 are refused at the second half of the second part, and the
/// pages that were granted come back.
#[test]
fn parts_are_asked_for_in_their_order(rt: HostRuntime) -> Result<(), Fail> {
    let alloc = rt.alloc();
    let Some(mut solo) = one_space(alloc) else {
        assert!(rt; false);
        return Ok(());
    };
    let halves = asked(alloc, &mut solo, &[Request { want: 8, need: 5 }])?;
    assert!(rt; halves.is_ok());
    if let Ok((counts, pieces)) = halves {
        assert_eq!(rt; counts.as_slice(), [2].as_slice());
        assert_eq!(rt; pieces.as_slice(), [(15, 3), (13, 2)].as_slice());
    }
    let wish = asked(alloc, &mut solo, &[Request { want: 4, need: 1 }])?;
    assert!(rt; wish.is_ok());
    if let Ok((counts, pieces)) = wish {
        assert_eq!(rt; counts.as_slice(), [1].as_slice());
        assert_eq!(rt; pieces.as_slice(), [(15, 4)].as_slice());
    }
    let four = Request { want: 4, need: 4 };
    let refused = asked(alloc, &mut solo, &[four, four])?;
    assert!(rt; refused.is_err());
    if let Err(e) = refused {
        assert!(rt; e == AskFail::NoSpace(2));
    }
    let one = Request { want: 1, need: 1 };
    let two = Request { want: 2, need: 2 };
    let row = asked(alloc, &mut solo, &[one, two, four])?;
    assert!(rt; row.is_ok());
    if let Ok((counts, pieces)) = row {
        assert_eq!(rt; counts.as_slice(), [1, 1, 1].as_slice());
        assert_eq!(rt; pieces.as_slice(), [(12, 1), (13, 2), (15, 4)].as_slice());
    }
    let none = asked(alloc, &mut solo, &[])?;
    assert!(rt; none.is_ok());
    Ok(())
}
