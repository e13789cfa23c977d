//! Trees on pages: the worked search of two nodes, every range of a small tree of three levels
//! against the plain list of its entries, what a second search costs, and a page that isn't its
//! node.

mod quiet;

ghost use Rattle.std.specs.Prelude.{◌≡◌, ℕ, ◌+◌, ◌*◌, ◌^◌, ◌<◌, ◌≤◌, [], length};
ghost use Rattle.page_cache.specs.Kept.{HaveAtMost};

use crate::tests::quiet::{QuietPort, QuietSpan};
use crate::{Root, TreeFail, entries, find};
use node_codec::{Pair, Placed};
use page_cache::Cache;
use span_store::Holdings;
use std::alloc::Global;
use std::process::Abort;

/// Writes a node of `count` pairs of `bytes` bytes each on page `page`. Its first pair names page
/// `first`, and each other one the page behind that of the pair before it.
fn put_node(port: &mut QuietPort, page: usize, level: u8, count: u8, bytes: u16, first: u8) {
    let at = page.min(31) * 256;
    let [high, low] = bytes.to_be_bytes();
    put(port, at, 0x4e);
    put(port, at + 1, level);
    put(port, at + 3, count);
    for i in 0..count.min(20) {
        let pair = at + 8 + 12 * i as usize;
        put(port, pair + 6, high);
        put(port, pair + 7, low);
        put(port, pair + 11, first.wrapping_add(i));
    }
}

fn put(port: &mut QuietPort, at: usize, byte: u8) {
    if at < port.bytes.len() {
        port.bytes[at] = byte;
    }
}

/// A port to 32 pages of zeros.
fn port_of(rt: &impl Abort, alloc: Global) -> QuietPort {
    QuietPort {
        bytes: vec![in alloc; 0; 8192].expect(rt, "room for 32 pages"),
        faults: 0,
        read: 0,
        written: 0,
    }
}

/// Holdings of all pages.
fn all_held(rt: &impl Abort, alloc: Global) -> Holdings<QuietSpan> {
    let mut held = Holdings::new(alloc);
    held.reserve(1).expect(rt, "room for a span");
    held.add(QuietSpan::whole());
    held
}

/// An empty cache for sixteen nodes.
fn cache_of(rt: &impl Abort, alloc: Global) -> Cache
    ensures { HaveAtMost 20 result }
{
    Cache::new(alloc, 16).expect(rt, "room for a cache")
}

/// What `entries` answers.
fn range_of(
    rt: &impl Abort,
    alloc: Global,
    root: &Root,
    cache: &mut Cache,
    port: &mut QuietPort,
    range: (u64, u64),
) -> Result<Vec<Placed>, TreeFail>
    requires { HaveAtMost 20 cache.old }
    ensures { HaveAtMost 20 cache.new }
{
    let held = all_held(rt, alloc);
    let (from, to) = range;
    assert!(rt; from <= to);
    assert!(rt; to <= root.length);
    entries(alloc, root, &held, cache, port, from, to)
}

/// Where the segment starts that `find` gives.
fn start_of(rt: &impl Abort, alloc: Global, root: &Root, port: &mut QuietPort, at: u64) -> u64 {
    let held = all_held(rt, alloc);
    let mut cache = cache_of(rt, alloc);
    assert!(rt; at < root.length);
    find(alloc, root, &held, &mut cache, port, at)
        .expect(rt, "a segment")
        .start
}

/// Two nodes of ten entries of 100 bytes each, under a root of level 2.
fn two_nodes(port: &mut QuietPort) -> Root {
    put_node(port, 0, 1, 10, 100, 100);
    put_node(port, 1, 1, 10, 100, 110);
    put_node(port, 2, 2, 2, 1000, 0);
    Root {
        height: 2,
        page: 2,
        length: 2000,
    }
}

/// Eighteen entries of 2 bytes, on the pages from 100 on: three of them in each of six nodes, three
/// of these in each of two, and a root of level 3.
fn three_levels(port: &mut QuietPort) -> Root {
    for i in 0..6u8 {
        put_node(port, i as usize, 1, 3, 2, 100 + 3 * i);
    }
    put_node(port, 6, 2, 3, 6, 0);
    put_node(port, 7, 2, 3, 6, 3);
    put_node(port, 8, 3, 2, 18, 6);
    Root {
        height: 3,
        page: 8,
        length: 36,
    }
}

#[test]
fn a_byte_is_found_in_the_segment_that_has_it(rt: HostRuntime) {
    let mut port = port_of(&rt, rt.alloc());
    let root = two_nodes(&mut port);
    for (at, want) in [(0, 0), (99, 0), (999, 900), (1000, 1000), (1999, 1900)] {
        assert_eq!(rt;
            start_of(&rt, rt.alloc(), &root, &mut port, at),
            want,
            "at {at}"
        );
    }
    let mut cache = cache_of(&rt, rt.alloc());
    let segments = range_of(&rt, rt.alloc(), &root, &mut cache, &mut port, (950, 1050)).expect(
        &rt,
        "two segments",
    );
    let first = Placed {
        start: 900,
        pair: Pair {
            bytes: 100,
            page: 109,
        },
    };
    let second = Placed {
        start: 1000,
        pair: Pair {
            bytes: 100,
            page: 110,
        },
    };
    assert_eq!(rt; segments.as_slice(), [first, second].as_slice());
}

/// Are these the entries of `three_levels` that have a byte from `from` on and before `to`?
fn are_plain(segments: &[Placed], from: u64, to: u64) -> bool {
    let first = from / 2;
    let count = if from < to {
        (to - 1) / 2 - first + 1
    } else {
        0
    };
    let mut at = first.min(36);
    for segment in segments {
        if segment.start != 2 * at
            || segment.pair.bytes != 2
            || segment.pair.page as u64 != 100 + at
        {
            return false;
        }
        at = at.wrapping_add(1).min(36);
    }
    segments.len() as u64 == count
}

#[test]
fn each_range_of_three_levels_has_its_plain_entries(rt: HostRuntime) {
    let mut port = port_of(&rt, rt.alloc());
    let root = three_levels(&mut port);
    for from in 0..37 {
        for to in from..37 {
            let mut cache = cache_of(&rt, rt.alloc());
            let segments = range_of(&rt, rt.alloc(), &root, &mut cache, &mut port, (from, to));
            let segments = segments.expect(&rt, "the segments of a range");
            assert!(rt; are_plain(segments.as_slice(), from, to), "{from} {to}");
        }
    }
}

#[test]
fn a_second_equal_search_reads_no_page(rt: HostRuntime) {
    let mut port = port_of(&rt, rt.alloc());
    let root = three_levels(&mut port);
    let mut cache = cache_of(&rt, rt.alloc());
    let first = range_of(&rt, rt.alloc(), &root, &mut cache, &mut port, (0, 36)).is_ok();
    assert_eq!(rt; (first, port.read), (true, 9));
    let second = range_of(&rt, rt.alloc(), &root, &mut cache, &mut port, (0, 36)).is_ok();
    assert_eq!(rt; (second, port.read), (true, 9));
}

#[test]
fn a_page_that_is_not_its_node_is_a_fault(rt: HostRuntime) {
    let cases = [
        (1, 2, 10, 100),
        (1, 1, 9, 100),
        (1, 1, 10, 99),
        (1, 1, 0, 0),
    ];
    for (page, level, count, bytes) in cases {
        let mut port = port_of(&rt, rt.alloc());
        let root = two_nodes(&mut port);
        put_node(&mut port, page, level, count, bytes, 110);
        let mut cache = cache_of(&rt, rt.alloc());
        let before = range_of(&rt, rt.alloc(), &root, &mut cache, &mut port, (0, 1000)).is_ok();
        assert_eq!(rt; (before, port.faults), (true, 0), "{level} {count} {bytes}");
        let behind = range_of(&rt, rt.alloc(), &root, &mut cache, &mut port, (0, 1001));
        assert!(rt;
            matches!(behind, Err(TreeFail::Fault)),
            "{level} {count} {bytes}"
        );
        assert_eq!(rt; port.faults, 1, "{level} {count} {bytes}");
    }
}

#[test]
fn a_page_that_was_read_wrongly_is_read_anew(rt: HostRuntime) {
    for (level, bytes) in [(2, 100), (1, 99)] {
        let mut port = port_of(&rt, rt.alloc());
        let root = two_nodes(&mut port);
        let mut cache = cache_of(&rt, rt.alloc());
        put_node(&mut port, 1, level, 10, bytes, 110);
        let wrong = range_of(&rt, rt.alloc(), &root, &mut cache, &mut port, (0, 2000));
        assert!(rt; matches!(wrong, Err(TreeFail::Fault)), "{level} {bytes}");
        assert_eq!(rt; (port.faults, port.read), (1, 3), "{level} {bytes}");
        put_node(&mut port, 1, 1, 10, 100, 110);
        let right = range_of(&rt, rt.alloc(), &root, &mut cache, &mut port, (0, 2000)).is_ok();
        assert!(rt; right, "{level} {bytes}");
        assert_eq!(rt; (port.faults, port.read), (1, 4), "{level} {bytes}");
    }
}
