//! Exchanges worked by hand: a tree that grows and shrinks, a write that fails, and a space that is
//! full.

use crate::store::{change, pages_of, store_of};
use std::alloc::Global;
use std::process::Abort;
use tree_splice::SpliceFail;

/// One node takes an entry more and grows to three; the cache has what is read of them. Then the
/// entry goes, and the other node joins; at last the object is emptied.
#[test]
fn a_tree_grows_and_shrinks(rt: HostRuntime) {
    let alloc = rt.alloc();
    let mut store = store_of(&rt, alloc, 64);
    let one = change(&rt, alloc, &mut store, (0, 0), 1000, 20).expect(&rt, "one node");
    assert_eq!(rt;
        (one.root.height, one.root.page, one.root.length),
        (1, 3, 2000)
    );
    assert_eq!(rt;
        (one.made.as_slice().len(), one.left.as_slice().len()),
        (1, 0)
    );
    store.root = one.root;
    let three = change(&rt, alloc, &mut store, (2000, 2000), 1020, 1).expect(&rt, "three nodes");
    assert_eq!(rt;
        (three.root.height, three.root.page, three.root.length),
        (2, 6, 2100)
    );
    assert_eq!(rt;
        (three.made.as_slice().len(), three.left.as_slice().len()),
        (3, 1)
    );
    store.root = three.root;
    let pages = pages_of(&rt, alloc, &mut store).expect(&rt, "entries");
    assert_eq!(rt;
        (pages.len(), pages.first(), pages.last()),
        (21, Some(&1000), Some(&1020))
    );
    assert_eq!(rt; (store.port.read, store.port.written), (0, 4));
    let two = change(&rt, alloc, &mut store, (2000, 2100), 0, 0).expect(&rt, "one node");
    assert_eq!(rt; (two.root.height, two.root.length), (1, 2000));
    assert_eq!(rt;
        (two.made.as_slice().len(), two.left.as_slice().len()),
        (1, 3)
    );
    store.root = two.root;
    let pages = pages_of(&rt, alloc, &mut store).expect(&rt, "entries");
    assert_eq!(rt; (pages.len(), pages.last()), (20, Some(&1019)));
    let none = change(&rt, alloc, &mut store, (0, 2000), 0, 0).expect(&rt, "no node");
    assert_eq!(rt;
        (none.root.height, none.root.page, none.root.length),
        (0, 0, 0)
    );
    assert_eq!(rt;
        (none.made.as_slice().len(), none.left.as_slice().len()),
        (0, 1)
    );
    assert_eq!(rt; store.port.faults, 0);
}

/// Four nodes are written, the first alone, and then three of one exchange. The chosen write fails,
/// the object stays, and in the end the exchange is made.
fn fails_at(rt: &impl Abort, alloc: Global, failing: u64) {
    let mut store = store_of(rt, alloc, 4);
    store.port.failing = failing;
    let one = change(rt, alloc, &mut store, (0, 0), 1000, 20).expect(rt, "one node");
    store.root = one.root;
    let fail = change(rt, alloc, &mut store, (2000, 2000), 1020, 1);
    assert!(rt; matches!(fail, Err(SpliceFail::Fault)));
    let pages = pages_of(rt, alloc, &mut store).expect(rt, "entries");
    assert_eq!(rt; (pages.len(), pages.last()), (20, Some(&1019)));
    let three = change(rt, alloc, &mut store, (2000, 2000), 1020, 1).expect(rt, "three nodes");
    assert_eq!(rt; (three.root.height, three.root.length), (2, 2100));
}

#[test]
fn a_write_that_fails_leaves_the_object(rt: HostRuntime) {
    for failing in 2..5 {
        fails_at(&rt, rt.alloc(), failing);
    }
}

/// Three nodes want a page each, and two are free: the third one is refused, and the two are given
/// back, so that two exchanges that want one page each are made.
#[test]
fn a_grant_that_is_refused_leaves_the_object(rt: HostRuntime) {
    let alloc = rt.alloc();
    let mut store = store_of(&rt, alloc, 3);
    let one = change(&rt, alloc, &mut store, (0, 0), 1000, 20).expect(&rt, "one node");
    store.root = one.root;
    let full = change(&rt, alloc, &mut store, (2000, 2000), 1020, 1);
    assert!(rt; matches!(full, Err(SpliceFail::NoSpace)));
    let pages = pages_of(&rt, alloc, &mut store).expect(&rt, "entries");
    assert_eq!(rt; (pages.len(), pages.last()), (20, Some(&1019)));
    let same = change(&rt, alloc, &mut store, (1900, 2000), 1019, 1).expect(&rt, "one node");
    assert_eq!(rt; (same.root.height, same.root.page), (1, 3));
    store.root = same.root;
    let other = change(&rt, alloc, &mut store, (1900, 2000), 1020, 1).expect(&rt, "one node");
    assert_eq!(rt; (other.root.height, other.root.page), (1, 4));
}

/// An empty tree takes 401 entries and has three levels, of 21, two and one node; all of them but
/// two entries in the middle go, and one node is left.
#[test]
fn levels_come_and_go_by_more_than_one(rt: HostRuntime) {
    let alloc = rt.alloc();
    let mut store = store_of(&rt, alloc, 64);
    let grown = change(&rt, alloc, &mut store, (0, 0), 1000, 401).expect(&rt, "24 nodes");
    assert_eq!(rt; (grown.root.height, grown.root.length), (3, 40_100));
    assert_eq!(rt;
        (grown.made.as_slice().len(), grown.left.as_slice().len()),
        (24, 0)
    );
    store.root = grown.root;
    let most = change(&rt, alloc, &mut store, (100, 40_000), 0, 0).expect(&rt, "one node");
    assert_eq!(rt; (most.root.height, most.root.length), (1, 200));
    assert_eq!(rt;
        (most.made.as_slice().len(), most.left.as_slice().len()),
        (1, 24)
    );
    store.root = most.root;
    let pages = pages_of(&rt, alloc, &mut store).expect(&rt, "entries");
    assert_eq!(rt;
        (pages.len(), pages.first(), pages.last()),
        (2, Some(&1000), Some(&1400))
    );
}
