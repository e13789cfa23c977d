//! Holdings over a device in memory, whose page i is filled with i: what is held, what is read and
//! written, and what a failed call leaves.

ghost use Rattle.std.specs.Prelude.{◌≡◌, ◌+◌, ◌*◌, ◌<◌, ◌≤◌, true, length};
ghost use Rattle.page_port.specs.Pages.{AreOf};
ghost use Rattle.span_store.specs.Held.{AllSized};

use crate::Holdings;
use page_port::{Bay, FailAt, MemBay, MemPort, MemSpan, Span};
use std::alloc::{AllocError, Global};
use std::process::Abort;

/// Eight pages of 256 bytes as one span, and a port whose calls of these numbers fail.
fn device(rt: &impl Abort, alloc: Global, fail: Vec<FailAt>) -> (MemPort, MemSpan)
    ensures page { result.0.meter.page ≡ 256 }
    ensures count { length result.1.pages ≡ 8 }
    ensures sized { AreOf 256 result.1.pages }
{
    let mut bytes = vec![in alloc; 0; 2048].expect(rt, "room for eight pages");
    for (i, byte) in bytes.iter_mut().enumerate() {
        *byte = (i / 256) as u8;
    }
    let mut bay = MemBay::new(alloc, bytes, fail);
    let span = bay.mount(256, 8).expect(rt, "eight pages");
    let port = bay.port().expect(rt, "a port");
    (port, span)
}

/// Holds a span more.
fn hold(rt: &impl Abort, held: &mut Holdings<MemSpan>, span: MemSpan)
    requires sized { AreOf 256 span.pages }
    requires all { AllSized true 256 held.old }
    ensures { AllSized true 256 held.new }
{
    assert!(rt; held.lacks(span.first(), span.pages()));
    held.reserve(1).expect(rt, "room for a span");
    held.add(span);
}

/// Cuts the first pages off a span.
fn cut(span: &mut MemSpan, n: u32) -> MemSpan
    requires some { 1 ≤ n }
    requires fewer { n < length span.old.pages }
    requires sized { AreOf 256 span.old.pages }
    ensures front { AreOf 256 result.pages }
    ensures rest { AreOf 256 span.new.pages }
    ensures count { length span.new.pages + n ≡ length span.old.pages }
{
    span.cut(n)
}

/// The pages 1 and 2, 3, and 5 to 7 of the device as three spans, put in out of order; the pages 0
/// and 4 are not held.
fn holdings(rt: &impl Abort, alloc: Global, span: MemSpan) -> Holdings<MemSpan>
    requires count { length span.pages ≡ 8 }
    requires sized { AreOf 256 span.pages }
    ensures { AllSized true 256 result }
{
    let mut rest = span;
    let _ = cut(&mut rest, 1);
    let front = cut(&mut rest, 2);
    let middle = cut(&mut rest, 1);
    let _ = cut(&mut rest, 1);
    let mut held = Holdings::new(alloc);
    hold(rt, &mut held, middle);
    hold(rt, &mut held, rest);
    hold(rt, &mut held, front);
    held
}

/// Takes out the span that begins at a page, once it is cut there.
fn take_at(rt: &impl Abort, held: &mut Holdings<MemSpan>, page: u32) -> (u32, u32)
    requires { AllSized true 256 held.old }
    ensures { AllSized true 256 held.new }
{
    assert!(rt; held.holds(page, 1));
    held.cut_at(page).expect(rt, "room for a span");
    let span = held.remove(page);
    (span.first(), span.pages())
}

/// The bytes 0 and 511 of two pages, or 99 where the device failed.
fn read_two(rt: &impl Abort, held: &Holdings<MemSpan>, port: &mut MemPort, first: u32) -> (u8, u8)
    requires page { port.old.meter.page ≡ 256 }
    requires sized { AllSized true 256 held.now }
    ensures { port.new.meter.page ≡ 256 }
{
    assert!(rt; held.holds(first, 2));
    let mut out = [0; 512];
    match held.read_run(port, first, &mut out) {
        Ok(()) => (out[0], out[511]),
        Err(_) => (99, 99),
    }
}

/// Fills two pages with 9. Did the device do it?
fn write_two(rt: &impl Abort, held: &mut Holdings<MemSpan>, port: &mut MemPort, first: u32) -> bool
    requires page { port.old.meter.page ≡ 256 }
    requires sized { AllSized true 256 held.old }
    ensures page { port.new.meter.page ≡ 256 }
    ensures sized { AllSized true 256 held.new }
{
    assert!(rt; held.holds(first, 2));
    held.write_run(port, first, &[9; 512]).is_ok()
}

#[test]
fn runs_are_held_where_each_page_is(rt: HostRuntime) {
    let (_, span) = device(&rt, rt.alloc(), Vec::new(rt.alloc()));
    let held = holdings(&rt, rt.alloc(), span);
    let cases = [
        (0, 1, false),
        (1, 3, true),
        (1, 4, false),
        (2, 2, true),
        (3, 1, true),
        (4, 1, false),
        (5, 3, true),
        (5, 4, false),
        (9, 1, false),
        (4, 0, true),
    ];
    for (first, pages, want) in cases {
        assert_eq!(rt; held.holds(first, pages), want, "{first} {pages}");
    }
}

#[test]
fn a_run_is_lacked_where_no_page_is_held(rt: HostRuntime) {
    let (_, span) = device(&rt, rt.alloc(), Vec::new(rt.alloc()));
    let held = holdings(&rt, rt.alloc(), span);
    let cases = [
        (0, 1, true),
        (0, 2, false),
        (4, 1, true),
        (4, 2, false),
        (3, 2, false),
        (0, 9, false),
        (8, 4, true),
        (7, 1, false),
        (u32::MAX, u32::MAX, true),
        (3, 0, true),
    ];
    for (first, pages, want) in cases {
        assert_eq!(rt; held.lacks(first, pages), want, "{first} {pages}");
    }
    assert_eq!(rt; held.end(), 8);
    assert_eq!(rt; Holdings::<MemSpan>::new(rt.alloc()).end(), 0);
}

#[test]
fn a_run_is_read_and_written_over_the_spans_that_have_it(rt: HostRuntime) {
    let (mut port, span) = device(&rt, rt.alloc(), Vec::new(rt.alloc()));
    let mut held = holdings(&rt, rt.alloc(), span);
    for (first, want) in [(1, (1, 2)), (2, (2, 3)), (5, (5, 6)), (6, (6, 7))] {
        assert_eq!(rt;
            read_two(&rt, &held, &mut port, first),
            want,
            "page {first}"
        );
    }
    assert!(rt; write_two(&rt, &mut held, &mut port, 2));
    for (first, want) in [(1, (1, 9)), (2, (9, 9)), (5, (5, 6))] {
        assert_eq!(rt;
            read_two(&rt, &held, &mut port, first),
            want,
            "page {first}"
        );
    }
}

#[test]
fn a_span_is_cut_once_and_taken_out(rt: HostRuntime) {
    let (_, span) = device(&rt, rt.alloc(), Vec::new(rt.alloc()));
    let mut held = holdings(&rt, rt.alloc(), span);
    assert_eq!(rt; take_at(&rt, &mut held, 6), (6, 2));
    assert_eq!(rt; take_at(&rt, &mut held, 5), (5, 1));
    assert_eq!(rt; take_at(&rt, &mut held, 1), (1, 2));
    for (page, want) in [(1, false), (2, false), (3, true), (5, false), (7, false)] {
        assert_eq!(rt; held.holds(page, 1), want, "page {page}");
    }
}

#[test]
fn spans_are_taken_out_until_none_is_held(rt: HostRuntime) {
    let (_, span) = device(&rt, rt.alloc(), Vec::new(rt.alloc()));
    let mut held = holdings(&rt, rt.alloc(), span);
    let mut pages = 0;
    for _ in 0..3 {
        let span = held.take_any().expect(&rt, "three spans");
        pages = span.pages().saturating_add(pages);
    }
    assert_eq!(rt; pages, 6);
    assert!(rt; held.take_any().is_none());
}

#[test]
fn a_failed_call_leaves_the_other_pages(rt: HostRuntime) -> Result<(), AllocError> {
    let cases = [(false, 1), (false, 2), (true, 1), (true, 2)];
    for (write, call) in cases {
        let fail = vec![in rt.alloc();
            FailAt {
                port: 1,
                write,
                call
            },
        ]?;
        let (mut port, span) = device(&rt, rt.alloc(), fail);
        let mut held = holdings(&rt, rt.alloc(), span);
        let first = read_two(&rt, &held, &mut port, 2);
        assert_eq!(rt;
            first,
            if write { (2, 3) } else { (99, 99) },
            "{write} {call}"
        );
        assert_eq!(rt;
            write_two(&rt, &mut held, &mut port, 2),
            !write,
            "{write} {call}"
        );
        assert_eq!(rt;
            read_two(&rt, &held, &mut port, 5),
            (5, 6),
            "{write} {call}"
        );
        assert!(rt; write_two(&rt, &mut held, &mut port, 2));
        assert_eq!(rt;
            read_two(&rt, &held, &mut port, 2),
            (9, 9),
            "{write} {call}"
        );
    }
    Ok(())
}

#[test]
fn spans_that_meet_are_joined_and_read_by_one_call(rt: HostRuntime) -> Result<(), AllocError> {
    let fail = vec![in rt.alloc();
        FailAt {
            port: 1,
            write: false,
            call: 2
        },
    ]?;
    let (mut port, span) = device(&rt, rt.alloc(), fail);
    let mut held = holdings(&rt, rt.alloc(), span);
    held.join_at(5);
    held.join_at(3);
    held.join_at(2);
    assert_eq!(rt; read_two(&rt, &held, &mut port, 2), (2, 3));
    for want in [(5, 3), (1, 3)] {
        let span = held.take_any().expect(&rt, "two spans");
        assert_eq!(rt; (span.first(), span.pages()), want);
    }
    assert!(rt; held.take_any().is_none());
    Ok(())
}

/// What a plain table says of a page: 0 where it isn't held, 2 where a span begins, else 1.
fn mark_of(plain: &[u8], page: u32) -> u8 {
    plain.get(page as usize).copied().unwrap_or(0)
}

/// Sets the mark of a page.
fn mark(plain: &mut Vec<u8>, page: u32, value: u8) {
    if let Some(place) = plain.get_mut(page as usize) {
        *place = value;
    }
}

/// How many pages the span has from this page of its on.
fn pages_of(plain: &[u8], first: u32) -> u32 {
    for n in 1..1024 {
        if mark_of(plain, first.saturating_add(n)) != 1 {
            return n;
        }
    }
    1024
}

/// Adds a span to both.
fn put_both(rt: &impl Abort, held: &mut Holdings<MemSpan>, plain: &mut Vec<u8>, span: MemSpan) {
    for n in 0..span.pages() {
        mark(
            plain,
            span.first().saturating_add(n),
            if n == 0 { 2 } else { 1 },
        );
    }
    assert!(rt; held.lacks(span.first(), span.pages()));
    held.reserve(1).expect(rt, "room for a span");
    held.add(span);
}

/// Cuts both at a page.
fn cut_both(rt: &impl Abort, held: &mut Holdings<MemSpan>, plain: &mut Vec<u8>, page: u32) {
    if mark_of(plain, page) == 0 {
        assert!(rt; held.lacks(page, 1), "{page}");
        return;
    }
    assert!(rt; held.holds(page, 1), "{page}");
    held.cut_at(page).expect(rt, "room for a span");
    mark(plain, page, 2);
}

/// Takes the pages of a span from a page on out of both.
fn take_both(
    rt: &impl Abort,
    held: &mut Holdings<MemSpan>,
    plain: &mut Vec<u8>,
    page: u32,
) -> Option<MemSpan> {
    if mark_of(plain, page) == 0 {
        return None;
    }
    assert!(rt; held.holds(page, 1), "{page}");
    held.cut_at(page).expect(rt, "room for a span");
    let span = held.remove(page);
    check_span(rt, plain, &span);
    Some(span)
}

/// A span that was taken out is one of the plain table's; it is taken out there too.
fn check_span(rt: &impl Abort, plain: &mut Vec<u8>, span: &MemSpan) {
    let first = span.first();
    assert!(rt; mark_of(plain, first) != 0, "{first}");
    assert_eq!(rt; span.pages(), pages_of(plain, first), "{first}");
    for n in 0..span.pages() {
        mark(plain, span.first().saturating_add(n), 0);
    }
}

/// Joins both at a page.
fn join_both(held: &mut Holdings<MemSpan>, plain: &mut Vec<u8>, page: u32) {
    held.join_at(page);
    if page > 0 && mark_of(plain, page) == 2 && mark_of(plain, page - 1) != 0 {
        mark(plain, page, 1);
    }
}

/// Both say the same of a run.
fn ask_both(rt: &impl Abort, held: &Holdings<MemSpan>, plain: &[u8], first: u32, pages: u32) {
    let mut all = true;
    let mut none = true;
    for n in 0..pages {
        if mark_of(plain, first.saturating_add(n)) == 0 {
            all = false;
        } else {
            none = false;
        }
    }
    assert_eq!(rt; held.holds(first, pages), all, "{first} {pages}");
    assert_eq!(rt; held.lacks(first, pages), none, "{first} {pages}");
}

#[test]
fn pieces_hold_what_a_plain_table_of_pages_says(rt: HostRuntime) -> Result<(), AllocError> {
    let bytes = vec![in rt.alloc(); 0; 262144]?;
    let mut bay = MemBay::new(rt.alloc(), bytes, Vec::new(rt.alloc()));
    let span = bay.mount(256, 1024).expect(&rt, "1024 pages");
    let mut plain = vec![in rt.alloc(); 0; 1024]?;
    let mut held = Holdings::new(rt.alloc());
    put_both(&rt, &mut held, &mut plain, span);
    for page in 0..1024 {
        cut_both(&rt, &mut held, &mut plain, page * 389 % 1024);
    }
    let mut out = Vec::new(rt.alloc());
    let mut seed: u64 = 1;
    for _ in 0..8000 {
        seed = seed
            .wrapping_mul(6364136223846793005)
            .wrapping_add(1442695040888963407);
        let page = (seed >> 40) as u32 % 1024;
        match seed >> 60 {
            0..=3 => {
                if let Some(span) = take_both(&rt, &mut held, &mut plain, page) {
                    out.push(span).expect(&rt, "room for a span");
                }
            }
            4..=7 => {
                if let Some(span) = out.pop() {
                    put_both(&rt, &mut held, &mut plain, span);
                }
            }
            8..=10 => cut_both(&rt, &mut held, &mut plain, page),
            11..=13 => join_both(&mut held, &mut plain, page),
            _ => ask_both(&rt, &held, &plain, page, (seed >> 32) as u32 % 8),
        }
    }
    for _ in 0..1024 {
        if let Some(span) = held.take_any() {
            check_span(&rt, &mut plain, &span);
        }
    }
    assert!(rt; held.take_any().is_none());
    assert!(rt; plain.iter().all(|mark| *mark == 0));
    Ok(())
}
