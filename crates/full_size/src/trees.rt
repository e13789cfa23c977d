//! Nodes of the largest pages, many of them kept, and the segments of a large object.

ghost use Rattle.std.specs.Prelude.{◌≡◌, ◌≤◌, IfOk};
ghost use Rattle.page_cache.specs.Kept.{HaveAtMost};

use file_port::{FileBay, FilePort, FileSpan};
use node_codec::{Node, Pair, Pairs};
use page_cache::Cache;
use page_port::{Bay, Port};
use span_store::Holdings;
use std::alloc::{AllocError, Global};
use tree_model::Root;
use tree_read::{entries, find};

/// The bytes of a page.
const PAGE: usize = 4096;

/// The pairs of a full node.
const PAIRS: usize = 340;

/// The pages of a full tree of two levels: its root, and a node for each of the root's pairs.
const NODES: u32 = 341;

/// The bytes of an object whose segments have a page each, under such a tree.
const LENGTH: u64 = 473_497_600;

/// A full node of level 1.
fn full_node(alloc: Global) -> Result<Node, AllocError> {
    let mut node = Node::prepared(alloc, PAGE as u32)?;
    node.level = 1;
    for page in 0..PAIRS {
        node.pairs.push(Pair {
            bytes: PAGE as u64,
            page: page as u32,
        })?;
    }
    Ok(node)
}

#[test]
fn full_nodes_are_copied_and_spans_have_room(rt: HostRuntime) -> Result<(), AllocError> {
    let node = full_node(rt.alloc())?;
    let copy = node.copy(rt.alloc())?;
    assert_eq!(rt; copy.pairs.as_slice().len(), PAIRS);
    let mut held: Holdings<FileSpan> = Holdings::new(rt.alloc());
    held.reserve(1_000_000)?;
    let _pairs = Pairs::with_room(rt.alloc(), 1_000_000)?;
    Ok(())
}

/// Writes bytes at a place.
fn put(bytes: &mut [u8], at: usize, value: &[u8]) {
    for (i, byte) in value.iter().enumerate() {
        let place = at.saturating_add(i);
        if place < bytes.len() {
            bytes[place] = *byte;
        }
    }
}

/// Writes a full node whose pairs have `each` bytes, and name the pages from `first` on.
fn put_node(bytes: &mut [u8], page: usize, level: u8, each: u64, first: u32) {
    let at = page.saturating_mul(PAGE);
    put(bytes, at, &[0x4e, level, 1, 84]);
    for i in 0..PAIRS {
        let pair = at.saturating_add(8 + 12 * i);
        put(bytes, pair, &each.to_be_bytes());
        let named = first.wrapping_add(i as u32);
        put(bytes, pair.saturating_add(8), &named.to_be_bytes());
    }
}

/// The pages of the tree: its root is on page 0.
fn tree_pages(alloc: Global) -> Result<Vec<u8>, AllocError> {
    let mut bytes = vec![in alloc; 0; NODES as usize * PAGE]?;
    put_node(bytes.as_mut_slice(), 0, 2, (PAIRS * PAGE) as u64, 1);
    for node in 0..PAIRS {
        put_node(
            bytes.as_mut_slice(),
            node + 1,
            1,
            PAGE as u64,
            (1000 + PAIRS * node) as u32,
        );
    }
    Ok(bytes)
}

/// A file that holds these pages, each of them held.
fn file_of(rt: &HostRuntime, bytes: Vec<u8>) -> Result<(FilePort, Holdings<FileSpan>), AllocError>
    ensures { IfOk result (λ made. made.0.page ≡ 4096) }
{
    let mut bay = FileBay::new(rt.clone()?, rt.alloc(), "full_size_tree.img")?;
    let Ok(()) = bay.prepare(bytes.len() as u64) else {
        return Err(AllocError);
    };
    let Ok(mut span) = bay.mount(PAGE as u32, NODES) else {
        return Err(AllocError);
    };
    let Ok(mut port) = bay.port() else {
        return Err(AllocError);
    };
    if bytes.len() != NODES as usize * PAGE || port.write(&mut span, 0, bytes.as_slice()).is_err() {
        return Err(AllocError);
    }
    let mut held = Holdings::new(rt.alloc());
    held.reserve(1)?;
    held.add(span);
    Ok((port, held))
}

/// An empty cache for all nodes.
fn cache_of(alloc: Global) -> Result<Cache, AllocError>
    ensures { IfOk result (HaveAtMost 340) }
{
    Cache::new(alloc, NODES as usize)
}

#[test]
fn all_segments_of_a_large_object_are_found(rt: HostRuntime) -> Result<(), AllocError> {
    let root = Root {
        height: 2,
        page: 0,
        length: LENGTH,
    };
    let (mut port, held) = file_of(&rt, tree_pages(rt.alloc())?)?;
    let mut cache = cache_of(rt.alloc())?;
    let segments = entries(rt.alloc(), &root, &held, &mut cache, &mut port, 0, LENGTH);
    match segments {
        Ok(segments) => assert_eq!(rt; segments.len(), PAIRS * PAIRS),
        Err(_) => assert!(rt; false),
    }
    match find(rt.alloc(), &root, &held, &mut cache, &mut port, LENGTH - 1) {
        Ok(last) => assert_eq!(rt; last.pair.page, 116_599),
        Err(_) => assert!(rt; false),
    }
    Ok(())
}
