//! Thrown exchanges, beside the levels of the plain program.

ghost use Rattle.std.specs.Prelude.{◌≡◌, ◌+◌, ◌*◌, ◌^◌, ◌<◌, ◌≤◌, [], ◌∷◌, IfOk, None, false};
ghost use Rattle.content_laws.specs.Spelling.{HaveBytes};
ghost use Rattle.span_store.specs.Held.{bytes_on};
ghost use Rattle.tree_model.specs.Tree.{bytes_of};
ghost use Rattle.tree_read.specs.Search.{KeepsNodes};

use crate::store::{Store, exchange, store_of};
use node_codec::{Node, Pair, Pairs, decode};
use plain_layout::{Level, entry_bytes, nodes_of_levels, pairs_of_level, spliced};
use std::alloc::{AllocError, Global};
use std::process::Abort;
use std::test::Fail;
use tree_splice::Runs;

/// A number that looks thrown.
fn thrown(seed: &mut u64, below: u64) -> u64
    requires { 0 < below }
    ensures { result < below }
{
    *seed = seed
        .wrapping_mul(6_364_136_223_846_793_005)
        .wrapping_add(1_442_695_040_888_963_407);
    (*seed >> 33) % below
}

/// So many pairs, of 1 to 300 bytes each.
fn thrown_pairs(alloc: Global, seed: &mut u64, count: u64) -> Result<Pairs, AllocError>
    ensures bytes { IfOk result (λ pairs. bytes_of pairs.items ≤ 300 * count) }
    ensures some { IfOk result (λ pairs. HaveBytes pairs.items) }
{
    let mut pairs = Pairs::new(alloc);
    for i in 0..count {
        pairs.push(Pair {
            bytes: thrown(seed, 300) + 1,
            page: (i % 1_000_000) as u32,
        })?;
    }
    Ok(pairs)
}

/// A run of `entries` entries, mostly a short one: the number of the first, and how many there are.
fn thrown_run(seed: &mut u64, entries: usize) -> (usize, usize)
    requires { entries < 2 ^ 63 }
    ensures { result.0 + result.1 ≤ entries }
{
    let from = thrown(seed, entries as u64 + 1) as usize;
    let most = entries - from;
    let long = thrown(seed, 8) == 0;
    let limit = if long { most } else { most.min(3) };
    (from, thrown(seed, limit as u64 + 1) as usize)
}

/// How many entries come: mostly a few.
fn thrown_count(seed: &mut u64) -> u64
    ensures { result < 1000 }
{
    if thrown(seed, 8) == 0 {
        thrown(seed, 1000)
    } else {
        thrown(seed, 4)
    }
}

/// The entries of a tree of these levels.
fn entries_of(alloc: Global, levels: &[Level]) -> Result<Vec<Pair>, Fail> {
    let Some(lowest) = levels.first() else {
        return Ok(Vec::new(alloc));
    };
    match pairs_of_level(alloc, lowest.nodes()) {
        Ok(entries) => Ok(entries),
        Err(_) => Err(Fail::from("the entries")),
    }
}

/// The bytes of these entries.
fn length_of(entries: &[Pair]) -> Result<u64, Fail> {
    match entry_bytes(entries) {
        Ok(bytes) => Ok(bytes),
        Err(_) => Err(Fail::from("the bytes")),
    }
}

/// The levels that the plain program leaves, where these pages are granted.
fn plain_levels(
    alloc: Global,
    levels: &[Level],
    run: (usize, usize),
    fresh: &Pairs,
    made: &Runs,
) -> Result<Vec<Level>, Fail> {
    let mut pages = Vec::new(alloc);
    for run in made.as_slice() {
        pages.push(run.first)?;
    }
    let (from, count) = run;
    let new = spliced(
        alloc,
        20,
        levels,
        from as u64,
        count as u64,
        fresh.as_slice(),
        &pages,
    );
    let Ok(new) = new else {
        return Err(Fail::from("the plain levels"));
    };
    match nodes_of_levels(alloc, &new) {
        Ok(levels) => Ok(levels),
        Err(_) => Err(Fail::from("the plain nodes")),
    }
}

/// Each node of these levels stands on its page, and the object's root is the highest.
fn compare(rt: &impl Abort, alloc: Global, store: &Store, levels: &[Level]) -> Result<(), Fail> {
    assert_eq!(rt; store.root.height as usize, levels.len());
    if let Some(top) = levels.last() {
        assert_eq!(rt; top.nodes().len(), 1);
        assert_eq!(rt; store.root.page, top.nodes()[0].page());
    }
    assert_eq!(rt; store.root.length, length_of(&entries_of(alloc, levels)?)?);
    let mut found = Node::prepared(alloc, 256)?;
    for number in 0..levels.len() {
        for node in levels[number].nodes() {
            let at = node.page() as usize * 256;
            let Some(page) = store.port.bytes.as_slice().get(at..at + 256) else {
                return Err(Fail::from("a page of the device"));
            };
            assert_eq!(rt; page.len(), 256);
            assert!(rt; decode(page, &mut found).is_ok());
            assert_eq!(rt; found.level as usize, number + 1);
            assert!(rt; found.pairs.as_slice() == node.pairs());
        }
    }
    Ok(())
}

/// An exchange of a thrown run for so many entries, in an object whose tree has these levels. The
/// levels afterwards are those of the plain program.
fn exchange_thrown(
    rt: &impl Abort,
    alloc: Global,
    seed: &mut u64,
    store: &mut Store,
    levels: &[Level],
    fresh: u64,
) -> Result<Vec<Level>, Fail>
    requires few { fresh < 10000 }
    requires kept { KeepsNodes false 256 (bytes_on store.old.held) store.old.cache }
    requires entered { store.old.latches.entered ≡ None }
    requires page { store.old.latches.page ≡ 256 }
    requires pages { store.old.latches.pages ≡ 1024 }
    requires firsts { store.old.latches.firsts ≡ 3 ∷ [] }
    ensures kept { KeepsNodes false 256 (bytes_on store.new.held) store.new.cache }
    ensures entered { store.new.latches.entered ≡ None }
    ensures page { store.new.latches.page ≡ 256 }
    ensures pages { store.new.latches.pages ≡ 1024 }
    ensures firsts { store.new.latches.firsts ≡ 3 ∷ [] }
{
    let entries = entries_of(alloc, levels)?;
    let (from, count) = thrown_run(seed, entries.len());
    let fresh = thrown_pairs(alloc, seed, fresh)?;
    let begin = length_of(&entries[..from])?;
    let end = length_of(&entries[..from + count])?;
    let done = exchange(rt, alloc, store, (begin, end), &fresh).expect(rt, "an exchange");
    store.root = done.root;
    let levels = plain_levels(alloc, levels, (from, count), &fresh, &done.made)?;
    compare(rt, alloc, store, &levels)?;
    Ok(levels)
}

/// Five exchanges in a new object, of which the first brings so many entries.
fn exchange_five(rt: &impl Abort, alloc: Global, seed: &mut u64, first: u64) -> Result<(), Fail>
    requires { first < 10000 }
{
    let mut store = store_of(rt, alloc, 1024);
    let levels = exchange_thrown(rt, alloc, seed, &mut store, &[], first)?;
    let fresh = thrown_count(seed);
    let levels = exchange_thrown(rt, alloc, seed, &mut store, &levels, fresh)?;
    let fresh = thrown_count(seed);
    let levels = exchange_thrown(rt, alloc, seed, &mut store, &levels, fresh)?;
    let fresh = thrown_count(seed);
    let levels = exchange_thrown(rt, alloc, seed, &mut store, &levels, fresh)?;
    let fresh = thrown_count(seed);
    let _ = exchange_thrown(rt, alloc, seed, &mut store, &levels, fresh)?;
    Ok(())
}

#[test]
fn levels_are_those_of_the_plain_program(rt: HostRuntime) -> Result<(), Fail> {
    let mut seed = 1;
    for most in [9, 40, 600, 9000] {
        for _ in 0..100 {
            let first = thrown(&mut seed, most);
            exchange_five(&rt, rt.alloc(), &mut seed, first)?;
        }
    }
    Ok(())
}
