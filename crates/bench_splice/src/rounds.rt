//! Exchanges of one entry, again and again.

ghost use Rattle.std.specs.Prelude.{◌≡◌, ◌*◌, ◌^◌, ◌<◌, IfOk};
ghost use Rattle.bench_splice.specs.Store.{CanExchange};
ghost use Rattle.content_laws.specs.Spelling.{HaveBytes};
ghost use Rattle.tree_model.specs.Tree.{bytes_of};

use crate::store::{Failure, Store};
use node_codec::{Pair, Pairs};
use page_port::Span;
use space_directory::Segment;
use std::alloc::{AllocError, Global};
use superdirectory::release;
use tree_splice::{SpliceFail, splice};

/// Puts `entries` entries into the object, which is empty, and then exchanges the one in the middle
/// for another, so many times. The pages that the tree loses are given back each time.
pub fn exchange_rounds(
    alloc: Global,
    store: &mut Store,
    entries: u32,
    rounds: u32,
) -> Result<(), Failure>
    requires { CanExchange store.old.cache store.old.port.page store.old.pages store.old.latches }
{
    let all = pairs_of(alloc, entries)?;
    exchange(alloc, store, 0, 0, &all)?;
    let at = entries as u64 / 2 * 100;
    let one = pairs_of(alloc, 1)?;
    for _round in 0..rounds {
        exchange(alloc, store, at, at + 100, &one)?;
    }
    Ok(())
}

/// `count` pairs of 100 bytes each.
fn pairs_of(alloc: Global, count: u32) -> Result<Pairs, AllocError>
    ensures bytes { IfOk result (λ pairs. bytes_of pairs.items ≡ 100 * count) }
    ensures some { IfOk result (λ pairs. HaveBytes pairs.items) }
{
    let pair = Pair {
        bytes: 100,
        page: 1,
    };
    Ok(Pairs::from_vec(vec![in alloc; pair; count as usize]?))
}

/// Exchanges the entries between two bytes for fresh ones, and gives back the pages that the tree
/// loses.
fn exchange(
    alloc: Global,
    store: &mut Store,
    from: u64,
    to: u64,
    fresh: &Pairs,
) -> Result<(), Failure>
    requires some { HaveBytes fresh.now.items }
    requires few { bytes_of fresh.now.items < 2 ^ 63 }
    requires ready { CanExchange store.old.cache store.old.port.page store.old.pages
        store.old.latches }
    ensures ready { CanExchange store.new.cache store.new.port.page store.new.pages
        store.new.latches }
{
    if from > to || to > store.root.length || store.root.length > 1 << 62 {
        return Err(Failure::Device);
    }
    let done = splice(
        alloc,
        &store.root,
        from,
        to,
        fresh,
        &mut store.held,
        &mut store.cache,
        &mut store.port,
        &mut store.latches,
        &mut (),
        0,
    );
    let done = match done {
        Ok(done) => done,
        Err(SpliceFail::Memory) => return Err(Failure::Memory),
        Err(_) => return Err(Failure::Device),
    };
    store.root = done.root;
    for run in done.left.as_slice() {
        give_back(store, run.first);
    }
    Ok(())
}

/// Gives a page that is held as a span of its own back to the space.
fn give_back(store: &mut Store, page: u32)
    requires { CanExchange store.old.cache store.old.port.page store.old.pages store.old.latches }
    ensures { CanExchange store.new.cache store.new.port.page store.new.pages store.new.latches }
{
    let Some(span) = store.held.span_from(page) else {
        return;
    };
    if span.first() != page || span.pages() != 1 || page < 3 || page - 3 >= store.pages {
        return;
    }
    let span = store.held.remove(page);
    if span.pages() == 1 {
        release(&mut store.latches, &mut (), Segment { space: 0, span });
    }
}
