//! What a cache keeps, over more nodes than it has room for.

use crate::Cache;
use node_codec::{Node, Pair};
use std::alloc::Global;
use std::process::Abort;

/// A node of this level with one pair.
fn one_pair(rt: &impl Abort, alloc: Global, level: u8) -> Node {
    let mut node = Node::prepared(alloc, 256).expect(rt, "room for a page");
    node.level = level;
    node.pairs.clear();
    node.pairs
        .push(Pair { bytes: 7, page: 9 })
        .expect(rt, "room for a pair");
    node
}

/// An empty cache.
fn cache_of(rt: &impl Abort, alloc: Global, capacity: usize) -> Cache {
    Cache::new(alloc, capacity).expect(rt, "room for a cache")
}

/// The level of the node that is kept for a page, or 0. The node is then the one used last.
fn level_kept(cache: &mut Cache, page: u32) -> u8 {
    let found = cache.promote(page);
    match cache.peek(page) {
        Some(node) if found => node.level,
        _ => 0,
    }
}

#[test]
fn the_nodes_used_last_are_kept(rt: HostRuntime) {
    let mut cache = cache_of(&rt, rt.alloc(), 2);
    cache.keep(1, &one_pair(&rt, rt.alloc(), 1));
    cache.keep(2, &one_pair(&rt, rt.alloc(), 2));
    assert_eq!(rt; level_kept(&mut cache, 1), 1);
    cache.keep(3, &one_pair(&rt, rt.alloc(), 3));
    assert_eq!(rt; level_kept(&mut cache, 1), 1);
    assert_eq!(rt; level_kept(&mut cache, 2), 0);
    assert_eq!(rt; level_kept(&mut cache, 3), 3);
}

#[test]
fn a_forgotten_page_has_no_node(rt: HostRuntime) {
    let mut cache = cache_of(&rt, rt.alloc(), 2);
    cache.keep(5, &one_pair(&rt, rt.alloc(), 5));
    assert_eq!(rt; level_kept(&mut cache, 5), 5);
    cache.forget(5);
    assert!(rt; !cache.promote(5));
    assert_eq!(rt; level_kept(&mut cache, 5), 0);
}

#[test]
fn a_cache_without_room_keeps_nothing(rt: HostRuntime) {
    let mut cache = cache_of(&rt, rt.alloc(), 0);
    cache.keep(5, &one_pair(&rt, rt.alloc(), 5));
    assert_eq!(rt; level_kept(&mut cache, 5), 0);
}

/// A cache that kept a node for each of the pages 1 to 4, the page's number its level, and then
/// forgot a run of pages.
fn without_run(rt: &impl Abort, alloc: Global, first: u32, pages: u32) -> Cache {
    let mut cache = cache_of(rt, alloc, 4);
    cache.keep(1, &one_pair(rt, alloc, 1));
    cache.keep(2, &one_pair(rt, alloc, 2));
    cache.keep(3, &one_pair(rt, alloc, 3));
    cache.keep(4, &one_pair(rt, alloc, 4));
    cache.forget_run(first, pages);
    cache
}

#[test]
fn a_forgotten_run_has_no_node(rt: HostRuntime) {
    let cases = [
        (0, 8, [0, 0, 0, 0]),
        (2, 2, [1, 0, 0, 4]),
        (2, 4_294_967_294, [1, 0, 0, 0]),
        (4, 1, [1, 2, 3, 0]),
        (2, 0, [1, 2, 3, 4]),
        (5, 9, [1, 2, 3, 4]),
    ];
    for (first, pages, want) in cases {
        let mut cache = without_run(&rt, rt.alloc(), first, pages);
        let left = [
            level_kept(&mut cache, 1),
            level_kept(&mut cache, 2),
            level_kept(&mut cache, 3),
            level_kept(&mut cache, 4),
        ];
        assert_eq!(rt; left, want, "{first} {pages}");
    }
}
