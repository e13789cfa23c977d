//! A space of a small store: what its directory page shows, what is read off one, and which pages
//! are refused.

ghost use Rattle.std.specs.Prelude.{◌≡◌, ◌+◌, ◌<◌, ◌≤◌, IfOk, length};
ghost use Rattle.page_port.specs.Pages.{AreOf};
ghost use Rattle.space_directory.specs.SpaceView.{IsSpace};

use crate::{ReadSpace, Space, SpaceFail, SpaceRefused};
use page_port::{Bay, Geometry, MemBay, MemSpan, Span};
use std::alloc::{AllocError, Global};

/// The directory of a space of sixteen pages: the mark, space 0, sixteen free pages, a zero, the
/// bitmap.
const ALL_FREE: [u8; 18] = [
    0x44, 0x49, 0x52, 0x31, 0, 0, 0, 0, 0, 0, 0, 16, 0, 0, 0, 0, 0xff, 0xff,
];

/// The same with the first three pages used.
const THREE_USED: [u8; 18] = [
    0x44, 0x49, 0x52, 0x31, 0, 0, 0, 0, 0, 0, 0, 13, 0, 0, 0, 0, 0x1f, 0xff,
];

/// The same with two runs used: two pages from the first on, and two from the thirteenth on.
const TWO_RUNS_USED: [u8; 18] = [
    0x44, 0x49, 0x52, 0x31, 0, 0, 0, 0, 0, 0, 0, 12, 0, 0, 0, 0, 0x3f, 0xf3,
];

/// A page with these first bytes, and zeros behind them.
fn page_of(head: &[u8; 18]) -> [u8; 256] {
    let mut page = [0; 256];
    page[..18].copy_from_slice(head);
    page
}

/// The data pages of a store with one space of sixteen pages of 256 bytes: pages 3 to 18.
fn data_pages(alloc: Global) -> Result<MemSpan, AllocError>
    ensures first { IfOk result (λ s. s.first ≡ 3) }
    ensures count { IfOk result (λ s. length s.pages ≡ 16) }
    ensures sized { IfOk result (λ s. AreOf 256 s.pages) }
{
    let mut bay = MemBay::new(alloc, Vec::new(alloc), Vec::new(alloc));
    let Ok(()) = bay.prepare(4864) else {
        return Err(AllocError);
    };
    let Ok(mut span) = bay.mount(256, 19) else {
        return Err(AllocError);
    };
    let _ = span.cut(3);
    Ok(span)
}

/// Space `s` of that store, read off this page.
fn read(
    alloc: Global,
    s: u16,
    page: &[u8],
    span: MemSpan,
) -> Result<ReadSpace<MemSpan>, SpaceRefused<MemSpan>>
    requires count { length span.pages ≡ 16 }
    requires sized { AreOf 256 span.pages }
    ensures first { IfOk result (λ r. r.space.first ≡ span.first) }
    ensures size { IfOk result (λ r. r.space.page ≡ 256) }
    ensures count { IfOk result (λ r. length r.space.free ≡ 16) }
    ensures space { IfOk result (λ r. IsSpace r.space) }
{
    let Some(geometry) = Geometry::new(256, 4, 1, 1, 2) else {
        let why = SpaceFail::Memory;
        return Err(SpaceRefused { why, span });
    };
    Space::read_page(alloc, &geometry, s, page, span)
}

/// The directory page of a space.
fn written(space: &Space<MemSpan>) -> [u8; 256]
    requires { space.now.page ≡ 256 }
{
    let mut page = [0; 256];
    space.write_page(&mut page);
    page
}

#[test]
fn a_grant_and_a_give_show_on_the_directory_page(rt: HostRuntime) -> Result<(), AllocError> {
    let span = data_pages(rt.alloc())?;
    let Ok(whole) = read(rt.alloc(), 0, &page_of(&ALL_FREE), span) else {
        return Err(AllocError);
    };
    let ReadSpace { mut space, used } = whole;
    assert_eq!(rt; used.len(), 0);
    assert_eq!(rt;
        (space.number(), space.pages(), space.largest()),
        (0, 16, Some(4))
    );
    assert!(rt; written(&space) == page_of(&ALL_FREE));

    let Some(granted) = space.grant(3) else {
        return Err(AllocError);
    };
    assert_eq!(rt;
        (granted.space, granted.span.first(), granted.span.pages()),
        (0, 3, 3)
    );
    assert!(rt; written(&space) == page_of(&THREE_USED));
    assert!(rt; !space.is_free(5) && space.is_free(6));

    // Of pages 5 and 6 only the first isn't free.
    space.lock(5, 2);
    assert!(rt; space.is_locked(5) && !space.is_locked(6));
    assert_eq!(rt; (space.counts().free, space.counts().locked), (13, 1));

    space.give_locked(granted);
    assert_eq!(rt; (space.counts().free, space.counts().locked), (16, 0));
    assert!(rt; written(&space) == page_of(&ALL_FREE));
    Ok(())
}

#[test]
fn pages_that_are_not_free_come_back_in_runs(rt: HostRuntime) -> Result<(), AllocError> {
    let span = data_pages(rt.alloc())?;
    let Ok(whole) = read(rt.alloc(), 0, &page_of(&TWO_RUNS_USED), span) else {
        return Err(AllocError);
    };
    let ReadSpace { space, used } = whole;
    assert_eq!(rt; (space.counts().free, space.counts().locked), (12, 0));
    assert_eq!(rt; space.largest(), Some(2));
    assert_eq!(rt; used.len(), 2);
    assert_eq!(rt; (used[0].first(), used[0].pages()), (3, 2));
    assert_eq!(rt; (used[1].first(), used[1].pages()), (15, 2));
    assert!(rt; written(&space) == page_of(&TWO_RUNS_USED));
    Ok(())
}

#[test]
fn free_pages_are_taken_out_a_whole_run_a_call(rt: HostRuntime) -> Result<(), AllocError> {
    let span = data_pages(rt.alloc())?;
    let Ok(whole) = read(rt.alloc(), 0, &page_of(&TWO_RUNS_USED), span) else {
        return Err(AllocError);
    };
    let ReadSpace { mut space, used } = whole;
    for (first, pages) in [(5, 10), (17, 2)] {
        let Some(run) = space.take_any() else {
            return Err(AllocError);
        };
        assert_eq!(rt; (run.first(), run.pages()), (first, pages));
    }
    assert!(rt; space.take_any().is_none());
    assert_eq!(rt; (space.counts().free, used.len()), (0, 2));
    Ok(())
}

/// Why a page is refused as the directory of space `s`, and the first and the number of the pages
/// that come back. None where it is read.
fn refusal(
    alloc: Global,
    s: u16,
    page: &[u8],
) -> Result<Option<(SpaceFail, u32, u32)>, AllocError> {
    let span = data_pages(alloc)?;
    match read(alloc, s, page, span) {
        Ok(_) => Ok(None),
        Err(SpaceRefused { why, span }) => Ok(Some((why, span.first(), span.pages()))),
    }
}

#[test]
fn a_page_that_is_no_directory_hands_all_pages_back(rt: HostRuntime) -> Result<(), AllocError> {
    let refused = Some((SpaceFail::BadDirectory, 3, 16));
    let page = page_of(&THREE_USED);
    let short = &page[..255];
    assert_eq!(rt; refusal(rt.alloc(), 0, &page)?, None);
    assert_eq!(rt; refusal(rt.alloc(), 1, &page)?, refused, "of another space");
    assert_eq!(rt; refusal(rt.alloc(), 0, short)?, refused, "a byte short");

    // A byte that differs: in the mark, the number, the count, the zeros, the bitmap and behind it.
    let cases = [
        (0, 0x45),
        (7, 1),
        (11, 14),
        (15, 1),
        (16, 0x3f),
        (18, 0x80),
        (255, 1),
    ];
    for (at, byte) in cases {
        let mut other = page;
        other[at] = byte;
        assert_eq!(rt; refusal(rt.alloc(), 0, &other)?, refused, "byte {at}");
    }
    Ok(())
}
