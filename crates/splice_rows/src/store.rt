//! An object over a device that tells nothing of its pages, as a file does, and exchanges in it.

ghost use Rattle.std.specs.Prelude.{◌≡◌, ◌+◌, ◌*◌, ◌^◌, ◌<◌, ◌≤◌, [], ◌∷◌, length, IfSome, IfOk};
ghost use Rattle.std.specs.Prelude.{None, false};
ghost use Rattle.content_laws.specs.Spelling.{HaveBytes};
ghost use Rattle.span_store.specs.Held.{bytes_on};
ghost use Rattle.tree_model.specs.Tree.{Pages, bytes_of};
ghost use Rattle.tree_read.specs.Search.{KeepsNodes};

use crate::quiet::{QuietPort, QuietSpan};
use node_codec::{Pair, Pairs};
use page_cache::Cache;
use page_port::Geometry;
use space_directory::Space;
use span_store::Holdings;
use std::alloc::{AllocError, Global};
use std::process::Abort;
use superdirectory::Solo;
use tree_read::{Root, TreeFail, entries};
use tree_splice::{SpliceFail, Spliced, splice};

/// A space of 1,024 pages, from page 3 on, of which the first `free` are free.
fn space_of(alloc: Global, free: u16) -> Option<Space<QuietSpan>>
    ensures number { IfSome result (λ v. v.number ≡ 0) }
    ensures page { IfSome result (λ v. v.page ≡ 256) }
    ensures pages { IfSome result (λ v. length v.free ≡ 1024) }
    ensures first { IfSome result (λ v. v.first ≡ 3) }
{
    let mut page = [0; 256];
    page[..4].copy_from_slice(b"DIR1");
    page[10..12].copy_from_slice(&free.to_be_bytes());
    for i in 0..free.min(1024) as usize {
        page[16 + i / 8] |= 0x80 >> (i % 8);
    }
    let geometry = Geometry::new(256, 10, 1, 1, 2)?;
    match Space::read_page(alloc, &geometry, 0, &page, QuietSpan::new(3, 1024)) {
        Ok(read) => Some(read.space),
        Err(_) => None,
    }
}

/// The spaces of a store: that one.
fn one_space(alloc: Global, free: u16) -> Option<Solo<QuietSpan>>
    ensures entered { IfSome result (λ solo. solo.entered ≡ None) }
    ensures page { IfSome result (λ solo. solo.page ≡ 256) }
    ensures pages { IfSome result (λ solo. solo.pages ≡ 1024) }
    ensures firsts { IfSome result (λ solo. solo.firsts ≡ 3 ∷ []) }
{
    let Some(zero) = space_of(alloc, free) else {
        return None;
    };
    let Ok(spaces) = Vec::from_array(alloc, [zero]) else {
        return None;
    };
    match Solo::new(alloc, spaces) {
        Ok(solo) => Some(solo),
        Err(_) => None,
    }
}

/// `count` pairs of 100 bytes each, on the pages from `page` on.
fn pairs_of(alloc: Global, page: u32, count: u32) -> Result<Pairs, AllocError>
    ensures bytes { IfOk result (λ pairs. bytes_of pairs.items ≡ 100 * count) }
    ensures some { IfOk result (λ pairs. HaveBytes pairs.items) }
{
    let mut pairs = Pairs::new(alloc);
    for i in 0..count {
        pairs.push(Pair {
            bytes: 100,
            page: page.wrapping_add(i),
        })?;
    }
    Ok(pairs)
}

/// An object without bytes, and the device, cache and space that it is used with.
#[derive(Drop)]
pub struct Store {
    pub root: Root,
    pub held: Holdings<QuietSpan>,
    pub cache: Cache,
    pub port: QuietPort,
    pub latches: Solo<QuietSpan>,
}

/// A cache of eight nodes, without any yet.
fn empty_cache(rt: &impl Abort, alloc: Global) -> Cache
    ensures { (at : Pages) → KeepsNodes false 256 at result }
{
    let Ok(cache) = Cache::new(alloc, 8) else {
        panic!(rt; "no room for a cache")
    };
    cache
}

/// A store with so many free pages.
pub fn store_of(rt: &impl Abort, alloc: Global, free: u16) -> Store
    ensures kept { KeepsNodes false 256 (bytes_on result.held) result.cache }
    ensures entered { result.latches.entered ≡ None }
    ensures page { result.latches.page ≡ 256 }
    ensures pages { result.latches.pages ≡ 1024 }
    ensures firsts { result.latches.firsts ≡ 3 ∷ [] }
{
    let latches = one_space(alloc, free).expect(rt, "a space");
    Store {
        root: Root {
            height: 0,
            page: 0,
            length: 0,
        },
        held: Holdings::new(alloc),
        cache: empty_cache(rt, alloc),
        port: QuietPort {
            bytes: vec![in alloc; 0; 1027 * 256].expect(rt, "room for the pages"),
            faults: 0,
            read: 0,
            written: 0,
            failing: 0,
        },
        latches,
    }
}

/// Exchanges the entries in a range for fresh ones.
pub fn exchange(
    rt: &impl Abort,
    alloc: Global,
    store: &mut Store,
    range: (u64, u64),
    fresh: &Pairs,
) -> Result<Spliced, SpliceFail>
    requires some { HaveBytes fresh.now.items }
    requires few { bytes_of fresh.now.items < 2 ^ 63 }
    requires kept { KeepsNodes false 256 (bytes_on store.old.held) store.old.cache }
    requires entered { store.old.latches.entered ≡ None }
    requires page { store.old.latches.page ≡ 256 }
    requires pages { store.old.latches.pages ≡ 1024 }
    requires firsts { store.old.latches.firsts ≡ 3 ∷ [] }
    ensures kept { KeepsNodes false 256 (bytes_on store.new.held) store.new.cache }
    ensures entered { store.new.latches.entered ≡ None }
    ensures page { store.new.latches.page ≡ 256 }
    ensures pages { store.new.latches.pages ≡ 1024 }
    ensures firsts { store.new.latches.firsts ≡ 3 ∷ [] }
{
    let (from, to) = range;
    assert!(rt; from <= to);
    assert!(rt; to <= store.root.length);
    assert!(rt; store.root.length <= 1_000_000_000);
    splice(
        alloc,
        &store.root,
        from,
        to,
        fresh,
        &mut store.held,
        &mut store.cache,
        &mut store.port,
        &mut store.latches,
        &mut (),
        0,
    )
}

/// Exchanges the entries in a range for `count` pairs of 100 bytes each, on the pages from `page`
/// on.
pub fn change(
    rt: &impl Abort,
    alloc: Global,
    store: &mut Store,
    range: (u64, u64),
    page: u32,
    count: u32,
) -> Result<Spliced, SpliceFail>
    requires kept { KeepsNodes false 256 (bytes_on store.old.held) store.old.cache }
    requires entered { store.old.latches.entered ≡ None }
    requires page { store.old.latches.page ≡ 256 }
    requires pages { store.old.latches.pages ≡ 1024 }
    requires firsts { store.old.latches.firsts ≡ 3 ∷ [] }
    ensures kept { KeepsNodes false 256 (bytes_on store.new.held) store.new.cache }
    ensures entered { store.new.latches.entered ≡ None }
    ensures page { store.new.latches.page ≡ 256 }
    ensures pages { store.new.latches.pages ≡ 1024 }
    ensures firsts { store.new.latches.firsts ≡ 3 ∷ [] }
{
    let fresh = pairs_of(alloc, page, count).expect(rt, "room for the pairs");
    exchange(rt, alloc, store, range, &fresh)
}

/// The pages of the object's entries.
pub fn pages_of(rt: &impl Abort, alloc: Global, store: &mut Store) -> Result<Vec<u32>, TreeFail>
    requires kept { KeepsNodes false 256 (bytes_on store.old.held) store.old.cache }
    ensures kept { KeepsNodes false 256 (bytes_on store.new.held) store.new.cache }
    ensures latches { store.new.latches ≡ store.old.latches }
{
    let length = store.root.length;
    let found = entries(
        alloc,
        &store.root,
        &store.held,
        &mut store.cache,
        &mut store.port,
        0,
        length,
    )?;
    let mut pages = Vec::new(alloc);
    for segment in &found {
        pages.push(segment.pair.page).expect(rt, "room for a page");
    }
    Ok(pages)
}
