//! What no clause says: that a layout is granted and laid with ample memory, and halves of a part.

use crate::{Answer, Level, Node, Pages, Spaces, Tree, granted, laid};
use layout_model::{Change, Extent};
use plain_plan::{Fail, Store};
use std::alloc::Global;
use tree_model::Pair;

const SMALL: Store = Store {
    page: 256,
    order: 4,
    spaces: 1,
    catalog: 1,
    threshold: 2,
};

fn free_pages(alloc: Global, marks: &str) -> Result<Spaces, Fail> {
    let mut tests = Vec::new(alloc);
    tests.extend_from_slice(&[true; 16])?;
    for (mark, test) in marks.as_bytes().iter().zip(tests.iter_mut()) {
        *test = *mark == b'.';
    }
    let mut rows = Vec::new(alloc);
    match rows.push(Pages::from_vec(tests)) {
        Ok(()) => Ok(Spaces::from_vec(rows)),
        Err(_) => Err(Fail::Memory),
    }
}

/// The pages that an append to an empty object is granted: its runs in order and then its nodes, or
/// nothing and the pages that no space had a place for.
fn appended(alloc: Global, marks: &str, bytes: u64) -> Result<(Vec<Extent>, u64), Fail> {
    let tree = Tree::new(Vec::new(alloc), 2);
    let change = Change {
        at: 0,
        removed: 0,
        added: bytes,
        appends: true,
    };
    let free = free_pages(alloc, marks)?;
    let mut all = Vec::new(alloc);
    match granted(alloc, &SMALL, 0, &tree, None, change, &free)? {
        Answer::Refused { pages } => Ok((all, pages)),
        Answer::Got { value: grants, .. } => {
            for part in grants.runs() {
                all.extend_from_slice(part.as_slice())?;
            }
            let after = laid(alloc, &SMALL, &tree, None, change, &grants)?.into_tree();
            for page in grants.pages() {
                all.extend_from_slice(&[Extent {
                    page: *page,
                    pages: 1,
                }])?;
            }
            Ok((all, after.entries(alloc)?.len() as u64))
        }
    }
}

#[test]
fn appends_are_granted_the_lowest_best_blocks(rt: HostRuntime) {
    // The free pages, the bytes, the runs that are granted, and the entries of the tree or the
    // pages refused.
    let cases: [(&str, u64, &[(u32, u32)], u64); 5] = [
        ("................", 600, &[(3, 3), (6, 1)], 1),
        ("###.............", 600, &[(7, 3), (6, 1)], 1),
        ("##..##..#...#..#", 1280, &[], 3),
        ("#...#...##......", 1280, &[(15, 3), (5, 2), (4, 1)], 2),
        ("................", 4096, &[], 1),
    ];
    for (marks, bytes, runs, count) in cases {
        match appended(rt.alloc(), marks, bytes) {
            Err(_) => assert!(rt; false, "no layout of {bytes}"),
            Ok((got, number)) => {
                assert_eq!(rt; number, count, "{marks} {bytes}");
                assert_eq!(rt; got.len(), runs.len(), "{marks} {bytes}");
                for (run, want) in got.iter().zip(runs) {
                    assert_eq!(rt; (run.page, run.pages), *want, "{marks} {bytes}");
                }
            }
        }
    }
}

#[test]
fn a_level_is_cut_anew_and_joins(rt: HostRuntime) {
    let pair = Pair {
        bytes: 512,
        page: 3,
    };
    // The pairs of two nodes, how many at the front are removed, and the pairs of the first node
    // afterwards.
    let cases = [(11, 10, 1, 10), (10, 10, 1, 19), (11, 10, 11, 10)];
    for (first, second, removed, want) in cases {
        let done = cut_front(rt.alloc(), pair, first, second, removed);
        match done {
            Err(_) => assert!(rt; false, "no layout"),
            Ok(count) => assert_eq!(rt; count, want, "{first} and {second} without {removed}"),
        }
    }
}

/// The pairs of the first node after some pairs at the front of two nodes are removed.
fn cut_front(
    alloc: Global,
    pair: Pair,
    first: usize,
    second: usize,
    removed: u64,
) -> Result<usize, Fail> {
    let mut nodes = Vec::new(alloc);
    for (page, count) in [(40, first), (41, second)] {
        if nodes
            .push(Node::new(page, vec![in alloc; pair; count]?))
            .is_err()
        {
            return Err(Fail::Memory);
        }
    }
    let mut levels = Vec::new(alloc);
    if levels.push(Level::new(nodes)).is_err() {
        return Err(Fail::Memory);
    }
    let made = crate::spliced(alloc, 20, &levels, 0, removed, &[], &[50, 51])?;
    let after = crate::nodes_of_levels(alloc, &made)?;
    match after.first() {
        None => Ok(0),
        Some(level) => match level.nodes() {
            [] => Ok(0),
            [node, ..] => Ok(node.pairs().len()),
        },
    }
}
