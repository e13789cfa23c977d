//! The tree of an object as it stands on its pages, beside one of the plain program, and what the
//! pages of the space are then.

use crate::rows::Trees;
use crate::store::Role;
use layout_model::Extent;
use plain_layout::{Level, Node, Tree};
use std::alloc::Global;
use std::process::Abort;
use std::test::Fail;
use tree_model::Pair;

/// The nodes on these pages are those of a level, whose nodes have this number.
fn compare_level(
    rt: &impl Abort,
    alloc: Global,
    store: &mut Trees,
    number: u8,
    want: &[Node],
) -> Result<(), Fail> {
    for node in want {
        let found = store.node(rt, alloc, node.page())?;
        assert_eq!(rt; found.level, number, "page {}", node.page());
        assert!(rt;
            found.pairs.as_slice() == node.pairs(),
            "the entries on page {}",
            node.page()
        );
    }
    Ok(())
}

/// The page of the highest node, 0 where there is none.
fn top_page(levels: &[Level]) -> u32 {
    let Some(top) = levels.last() else {
        return 0;
    };
    match top.nodes() {
        [] => 0,
        [node, ..] => node.page(),
    }
}

/// The object has the root of these levels, which has this length, and each of their nodes
/// stands on its page.
pub fn compare(
    rt: &impl Abort,
    alloc: Global,
    store: &mut Trees,
    levels: &[Level],
    length: u64,
) -> Result<(), Fail> {
    let Some(root) = store.root() else {
        return Err(Fail::from("no object"));
    };
    assert_eq!(rt; (root.height as usize, root.length), (levels.len(), length));
    assert_eq!(rt; root.page, top_page(levels));
    let mut number: u8 = 0;
    for level in levels {
        number = number.saturating_add(1);
        compare_level(rt, alloc, store, number, level.nodes())?;
    }
    Ok(())
}

/// Says of the pages of a run, the space beginning on page 3, what they are.
fn mark(roles: &mut [Role], page: u32, pages: u64, role: Role) {
    for at in 0..pages {
        let place = u64::from(page).saturating_add(at).saturating_sub(3);
        if let Some(found) = roles.get_mut(place as usize) {
            *found = role;
        }
    }
}

/// Says so of the pages of these entries.
fn mark_entries(roles: &mut [Role], entries: &[Pair], role: Role) {
    for pair in entries {
        mark(roles, pair.page, pair.bytes.div_ceil(256), role);
    }
}

/// Says so of all pages of a tree.
fn mark_tree(alloc: Global, roles: &mut [Role], tree: &Tree, role: Role) -> Result<(), Fail> {
    for level in tree.levels() {
        for node in level.nodes() {
            mark(roles, node.page(), 1, role);
        }
    }
    let Ok(entries) = tree.entries(alloc) else {
        return Err(Fail::from("the entries"));
    };
    mark_entries(roles, &entries, role);
    Ok(())
}

/// What `count` pages are where an object has these versions, and this spare.
pub fn roles_of(
    alloc: Global,
    count: usize,
    committed: &Tree,
    working: &Tree,
    spare: Option<Extent>,
) -> Result<Vec<Role>, Fail> {
    let mut roles = vec![in alloc; Role::Free; count]?;
    mark_tree(alloc, &mut roles, committed, Role::Locked)?;
    mark_tree(alloc, &mut roles, working, Role::Held)?;
    if let Some(run) = spare {
        mark(&mut roles, run.page, u64::from(run.pages), Role::Held);
    }
    Ok(roles)
}
