//! Plans of changes of an object on a file, worked by hand.

ghost use Rattle.std.specs.Prelude.{◌≡◌, ◌≤◌, IfOk, length};

use crate::{Planned, WorkingTree, plan_change};
use edit_parts::Part;
use file_port::{FileBay, FilePort, FileSpan};
use layout_model::{Change, Extent, Fit, Part as Laid, Request};
use node_codec::{Node, Pairs, encode};
use page_cache::Cache;
use page_port::{Bay, Geometry, Port, Span};
use span_store::Holdings;
use std::test::Fail;
use tree_model::{Pair, Root};
use tree_read::TreeFail;

/// A file of 19 pages of 256 bytes, and a port to it.
fn pages(rt: &HostRuntime) -> Result<(FilePort, FileSpan), Fail>
    ensures { IfOk result (λ d. d.1.count ≡ 19) }
{
    let mut bay = FileBay::new(rt.clone()?, rt.alloc(), "object_plan.img")?;
    let Ok(()) = bay.prepare(4864) else {
        return Err(Fail::from("a file of 19 pages"));
    };
    let Ok(span) = bay.mount(256, 19) else {
        return Err(Fail::from("its pages"));
    };
    let Ok(port) = bay.port() else {
        return Err(Fail::from("a port"));
    };
    Ok((port, span))
}

/// The page of a node with these three entries.
fn node(rt: &HostRuntime, first: Pair, second: Pair, last: Pair) -> Result<Vec<u8>, Fail>
    requires first { 1 ≤ first.bytes }
    requires second { 1 ≤ second.bytes }
    requires last { 1 ≤ last.bytes }
    ensures { IfOk result (λ page. length page.items ≡ 256) }
{
    let mut pairs = Pairs::with_room(rt.alloc(), 3)?;
    pairs.push(first)?;
    pairs.push(second)?;
    pairs.push(last)?;
    let mut page = vec![in rt.alloc(); 0; 256]?;
    encode(&Node { level: 1, pairs }, &mut page);
    Ok(page)
}

/// The plan of a change of an object with 600 bytes from page 3 on, 512 from page 8 on and those of
/// a last entry. Its node stands on page 18, and all pages from 3 on are held.
fn planned(
    rt: &HostRuntime,
    last: Pair,
    threshold: u32,
    spare: Option<Extent>,
    change: Change,
) -> Result<Result<Planned, TreeFail>, Fail> {
    let Some(geometry) = Geometry::new(256, 4, 1, 1, 2) else {
        return Err(Fail::from("a small store"));
    };
    if last.bytes == 0 || last.bytes > 4096 || threshold == 0 || threshold > 8 {
        return Err(Fail::from("an object of the store"));
    }
    let length = 1112 + last.bytes;
    if change.at > length || change.removed > length - change.at || change.added > 4096 {
        return Err(Fail::from("a change within the object"));
    }
    if change.removed + change.added == 0 {
        return Err(Fail::from("a change of something"));
    }
    if change.appends && change.at != length {
        return Err(Fail::from("an append at the end"));
    }
    if change.appends && change.removed != 0 {
        return Err(Fail::from("an append that removes nothing"));
    }
    let first = Pair {
        bytes: 600,
        page: 3,
    };
    let second = Pair {
        bytes: 512,
        page: 8,
    };
    let (mut port, mut span) = pages(rt)?;
    if port.page() != 256 {
        return Err(Fail::from("pages of 256 bytes"));
    }
    let page = node(rt, first, second, last)?;
    let Ok(()) = port.write(&mut span, 18, &page) else {
        return Err(Fail::from("the node's page"));
    };
    let _head = span.cut(3);
    let mut held = Holdings::new(rt.alloc());
    held.reserve(1)?;
    held.add(span);
    let mut cache = Cache::new(rt.alloc(), 4)?;
    let root = Root {
        height: 1,
        page: 18,
        length,
    };
    let working = WorkingTree {
        root,
        threshold,
        spare,
    };
    Ok(plan_change(
        rt.alloc(),
        &geometry,
        &working,
        change,
        &held,
        &mut cache,
        &mut port,
    ))
}

/// A part without its pieces.
fn laid(part: &Part) -> Laid {
    match part {
        Part::Keep(pair) => Laid::Keep(*pair),
        Part::Make(pieces) => Laid::Make(pieces.bytes()),
    }
}

/// The last entry, with so many bytes from page 12 on.
fn last(bytes: u64) -> Pair {
    Pair { bytes, page: 12 }
}

fn insert(at: u64, added: u64) -> Change {
    Change {
        at,
        removed: 0,
        added,
        appends: false,
    }
}

fn append(at: u64) -> Change {
    Change {
        at,
        removed: 0,
        added: 100,
        appends: true,
    }
}

/// A change, and what it becomes.
#[derive(Clone, Copy)]
struct Case {
    /// The bytes of the last entry, which begins at byte 1112.
    last: u64,
    threshold: u32,
    spare: Option<Extent>,
    change: Change,
    /// Where the first replaced entry begins, and where the last one ends.
    from: u64,
    to: u64,
    part: Laid,
    more: Option<Laid>,
    fit: Fit,
    request: Option<Request>,
}

#[test]
fn a_change_replaces_the_few_entries_around_its_place(rt: HostRuntime) -> Result<(), Fail> {
    let tail = Some(Extent { page: 14, pages: 3 });
    let cut = Change {
        at: 50,
        removed: 100,
        added: 0,
        appends: false,
    };
    let behind = Pair {
        bytes: 344,
        page: 4,
    };
    let grown = Pair {
        bytes: 612,
        page: 12,
    };
    let cases = [
        // A cut in the first segment keeps what lies on its later pages.
        Case {
            last: 300,
            threshold: 2,
            spare: None,
            change: cut,
            from: 0,
            to: 600,
            part: Laid::Make(156),
            more: Some(Laid::Keep(behind)),
            fit: Fit::Fresh,
            request: Some(Request { want: 1, need: 1 }),
        },
        // At a greater threshold these are merged with the neighbour.
        Case {
            last: 300,
            threshold: 4,
            spare: None,
            change: cut,
            from: 0,
            to: 1112,
            part: Laid::Make(1012),
            more: None,
            fit: Fit::Fresh,
            request: Some(Request { want: 4, need: 4 }),
        },
        // Between large segments both stay.
        Case {
            last: 300,
            threshold: 2,
            spare: None,
            change: insert(600, 1000),
            from: 600,
            to: 600,
            part: Laid::Make(1000),
            more: None,
            fit: Fit::Fresh,
            request: Some(Request { want: 4, need: 4 }),
        },
        // An append wishes for twice the last segment's pages,
        Case {
            last: 300,
            threshold: 1,
            spare: None,
            change: append(1412),
            from: 1412,
            to: 1412,
            part: Laid::Make(100),
            more: None,
            fit: Fit::Fresh,
            request: Some(Request { want: 4, need: 1 }),
        },
        // follows the tail on its spare pages,
        Case {
            last: 300,
            threshold: 1,
            spare: tail,
            change: append(1412),
            from: 1412,
            to: 1412,
            part: Laid::Make(100),
            more: None,
            fit: Fit::Follow,
            request: None,
        },
        // or grows it, where its last page is full.
        Case {
            last: 512,
            threshold: 2,
            spare: tail,
            change: append(1624),
            from: 1112,
            to: 1624,
            part: Laid::Keep(grown),
            more: None,
            fit: Fit::Extend,
            request: None,
        },
    ];
    for case in &cases {
        match planned(
            &rt,
            last(case.last),
            case.threshold,
            case.spare,
            case.change,
        )? {
            Ok(plan) => {
                assert_eq!(rt; (plan.from, plan.to), (case.from, case.to));
                assert_eq!(rt; plan.parts.first().map(laid), Some(case.part));
                assert_eq!(rt; plan.parts.get(1).map(laid), case.more);
                assert!(rt; plan.parts.len() <= 2);
                assert_eq!(rt; plan.fit, case.fit);
                assert_eq!(rt; plan.requests.first().copied(), case.request);
            }
            Err(_) => assert!(rt; false),
        }
    }
    Ok(())
}

#[test]
fn entries_that_were_never_written_are_a_fault(rt: HostRuntime) -> Result<(), Fail> {
    // A last entry on the pages of the space, and others that no object has: behind its last page,
    // in front of its first one, and on a page that isn't held.
    let cases = [(12, true), (17, false), (2, false), (400, false)];
    for (page, good) in cases {
        let last = Pair { bytes: 600, page };
        let answer = planned(&rt, last, 2, None, append(1712))?;
        assert_eq!(rt;
            answer.err(),
            if good { None } else { Some(TreeFail::Fault) },
            "{page}"
        );
    }
    Ok(())
}
