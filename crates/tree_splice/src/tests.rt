//! Worked exchanges: which nodes are made on which level, how large they are, and what they name.

use crate::{NodeRun, PathLevel, Remade, left_pages, way_up};
use node_codec::Pair;
use std::alloc::Global;
use std::process::Abort;

/// `count` pairs of 100 bytes each, on the pages from `page` on.
fn pairs_from(rt: &impl Abort, alloc: Global, page: u32, count: u32) -> Vec<Pair> {
    let mut pairs = Vec::new(alloc);
    for i in 0..count {
        let pair = Pair {
            bytes: 100,
            page: page.wrapping_add(i),
        };
        pairs.push(pair).expect(rt, "room for a pair");
    }
    pairs
}

/// A run of nodes on the pages from 1 on, with so many pairs each.
fn run_of(rt: &impl Abort, alloc: Global, counts: &[u32]) -> NodeRun {
    let mut run = NodeRun::new(alloc);
    let mut page: u32 = 1;
    for count in counts {
        let pairs = pairs_from(rt, alloc, page.wrapping_mul(100), *count);
        run.push(page, &pairs).expect(rt, "room for a node");
        page = page.wrapping_add(1);
    }
    run
}

/// A level of which all nodes are known, with so many pairs each.
fn whole_level(rt: &impl Abort, alloc: Global, counts: &[u32]) -> PathLevel {
    PathLevel::new(run_of(rt, alloc, counts), 0, false, false)
}

/// A way of levels of which all nodes are known.
fn whole_path(rt: &impl Abort, alloc: Global, levels: &[&[u32]]) -> Vec<PathLevel> {
    let mut path = Vec::new(alloc);
    for counts in levels {
        let level = whole_level(rt, alloc, counts);
        path.push(level).expect(rt, "room for a level");
    }
    path
}

/// The new levels of a way where `count` entries from number `from` on are exchanged for fresh
/// ones.
fn exchange(
    rt: &impl Abort,
    alloc: Global,
    f: u32,
    path: &[PathLevel],
    place: (u32, u32),
    fresh: u32,
) -> Vec<Remade> {
    assert!(rt; f > 0);
    let (from, count) = place;
    let fresh = pairs_from(rt, alloc, 9000, fresh);
    let pages = [7, 8, 9];
    let made = way_up(
        alloc,
        f as usize,
        path,
        from as usize,
        count as usize,
        &fresh,
        &pages,
    );
    made.expect(rt, "room for the levels")
}

/// Does the level have made nodes with these numbers of pairs?
fn has_counts(levels: &[Remade], level: usize, counts: &[usize]) -> bool {
    level < levels.len() && levels[level].made.counts() == counts
}

/// Do the made nodes of the level stand on these pages?
fn has_pages(levels: &[Remade], level: usize, pages: &[u32]) -> bool {
    level < levels.len() && levels[level].made.pages() == pages
}

#[test]
fn a_full_root_takes_one_entry_more_and_grows(rt: HostRuntime) {
    let alloc = rt.alloc();
    let path = whole_path(&rt, alloc, &[&[20]]);
    let levels = exchange(&rt, alloc, 20, &path, (20, 0), 1);
    assert_eq!(rt; levels.len(), 2);
    assert!(rt; has_counts(&levels, 0, &[11, 10]));
    assert!(rt; has_pages(&levels, 0, &[7, 8]));
    assert!(rt; has_counts(&levels, 1, &[2]));
    assert!(rt; has_pages(&levels, 1, &[9]));
    let names = levels[1].made.pairs();
    assert_eq!(rt; names.len(), 2);
    assert_eq!(rt; (names[0].bytes, names[0].page), (1100, 7));
    assert_eq!(rt; (names[1].bytes, names[1].page), (1000, 8));
}

#[test]
fn the_other_node_joins_and_is_the_root(rt: HostRuntime) {
    let alloc = rt.alloc();
    let path = whole_path(&rt, alloc, &[&[11, 10], &[2]]);
    let levels = exchange(&rt, alloc, 20, &path, (20, 1), 0);
    assert_eq!(rt; levels.len(), 1);
    assert!(rt; has_counts(&levels, 0, &[20]));
    assert!(rt; has_pages(&levels, 0, &[7]));
    assert_eq!(rt;
        (levels[0].from, levels[0].count, levels[0].size),
        (0, 2, 1)
    );
}

#[test]
fn levels_come_and_go_by_more_than_one(rt: HostRuntime) {
    let alloc = rt.alloc();
    let empty = exchange(&rt, alloc, 20, &[], (0, 0), 401);
    assert_eq!(rt; empty.len(), 3);
    assert_eq!(rt; empty[0].made.len(), 21);
    assert!(rt; has_counts(&empty, 1, &[11, 10]));
    assert!(rt; has_counts(&empty, 2, &[2]));
    let path = whole_path(&rt, alloc, &[&[2, 2, 2, 2], &[2, 2], &[2]]);
    let shrunk = exchange(&rt, alloc, 4, &path, (0, 7), 0);
    assert_eq!(rt; shrunk.len(), 1);
    assert!(rt; has_counts(&shrunk, 0, &[1]));
    let gone = exchange(&rt, alloc, 4, &path, (0, 8), 0);
    assert_eq!(rt; gone.len(), 1);
    assert_eq!(rt; gone[0].size, 0);
}

#[test]
fn a_node_with_others_beside_it_is_named_above(rt: HostRuntime) {
    let alloc = rt.alloc();
    let mut path = Vec::new(alloc);
    let lowest = PathLevel::new(run_of(&rt, alloc, &[20]), 1, true, false);
    path.push(lowest).expect(&rt, "room for a level");
    let root = whole_level(&rt, alloc, &[2]);
    path.push(root).expect(&rt, "room for a level");
    let levels = exchange(&rt, alloc, 20, &path, (19, 1), 2);
    assert_eq!(rt; levels.len(), 2);
    assert!(rt; has_counts(&levels, 0, &[11, 10]));
    assert!(rt; has_counts(&levels, 1, &[3]));
    assert!(rt; has_pages(&levels, 1, &[9]));
    let names = levels[1].made.pairs();
    assert_eq!(rt; names.len(), 3);
    assert_eq!(rt; (names[0].page, names[1].page, names[2].page), (100, 7, 8));
}
