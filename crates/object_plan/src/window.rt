//! The entries around the place of a change, read from the tree.

ghost use Rattle.std.specs.Prelude.{◌≡◌, ◌+◌, ◌*◌, ◌/◌, ◌<◌, ◌≤◌, ◌++◌, [], length, IsTrue, IfOk, IfSome};
ghost use Rattle.std.specs.Prelude.{Err, Some, None, OnOk, option_to_list};
ghost use Rattle.std.specs.List.{AllByRecursion};
ghost use Rattle.fault_count.specs.Counts.{HasCause};
ghost use Rattle.tree_model.specs.Node.{room_of};
ghost use Rattle.tree_model.specs.Range.{pairs_of, placed, start_of};
ghost use Rattle.tree_model.specs.Tree.{IsTree, entries_of};
ghost use Rattle.content_laws.specs.Spelling.{HaveBytes};
ghost use Rattle.span_store.specs.Held.{bytes_on};
ghost use Rattle.tree_read.specs.Search.{AsksSearch, EndsInside, ReadsNodes};
ghost use Rattle.window_laws.specs.Searches.{end_of, last_start};
ghost use Rattle.object_plan.specs.Reading.{IsWindowOf, found_where, place_before};
ghost use Rattle.object_plan.specs.Reading.{place_behind};

use page_cache::Cache;
use page_port::Port;
use span_store::Holdings;
use std::alloc::{AllocError, Global};
use tree_model::{Placed, Root};
use tree_read::{TreeFail, entries, find};

/// The entries of the window of a change: from the last one that ends at the place or before it to
/// the first one that begins where the cut ends or behind it, each with its place.
///
/// It is one search from the byte before the place to the byte behind the cut, and one more on each
/// side where the change lies inside the segment that was found there.
///
/// # Errors
/// As of `entries`.
pub fn read_window<P: Port>(
    alloc: Global,
    root: &Root,
    at: u64,
    removed: u64,
    held: &Holdings<P::S>,
    cache: &mut Cache,
    port: &mut P,
) -> Result<Vec<Placed>, TreeFail>
    requires within { at + removed ≤ root.now.length }
    requires asks { AsksSearch P.S.tells (P.meter port.old).page held.now cache.old
        (IsTree (bytes_on held.now) (room_of (P.meter port.old).page / 2) root.now.height
        root.now.page root.now.length) }
    ensures told { IfOk result (λ window. IsTrue P.S.tells
        → IsWindowOf (bytes_on held.now) root.now at removed window.items) }
    ensures reads { ReadsNodes P.S.tells (P.meter port.old).page (bytes_on held.now) cache.new
        (P.meter port.old) (P.meter port.new) }
    ensures few { IfOk result (λ window. IsTrue P.S.tells → (P.meter port.new).read
        ≤ (P.meter port.old).read + root.now.height * length window.items) }
    ensures cause { HasCause (P.meter port.old).faults (P.meter port.new).faults
        (result ≡ Err TreeFail.Fault) }
{
    if root.length == 0 {
        return Ok(Vec::new(alloc));
    }
    let from = at.saturating_sub(1);
    let end = at + removed;
    let to = end + (root.length - end).min(1);
    let met = entries(alloc, root, held, cache, port, from, to)?;
    let place = before(met.as_slice(), at);
    let front = find_at(alloc, root, held, cache, port, place)?;
    let place = behind(met.as_slice(), end, root.length);
    let back = find_at(alloc, root, held, cache, port, place)?;
    Ok(joined(alloc, front, met.as_slice(), back)?)
}

/// The byte before the first of these segments, where a place lies before the end of that one.
fn before(met: &[Placed], at: u64) -> Option<u64>
    requires fits { AllByRecursion EndsInside met.now }
    ensures { result ≡ place_before at met.now }
{
    if met.is_empty() {
        return None;
    }
    let first = met[0];
    if at < first.start + first.pair.bytes && first.start > 0 {
        Some(first.start - 1)
    } else {
        None
    }
}

/// The byte behind the last of these segments, where the object has one and the cut ends behind the
/// start of that segment.
fn behind(met: &[Placed], end: u64, length: u64) -> Option<u64>
    requires fits { AllByRecursion EndsInside met.now }
    requires adjoined { met.now ≡ placed (start_of met.now) (pairs_of met.now) }
    ensures { result ≡ place_behind end length met.now }
{
    let (start, next) = last_borders(met);
    if start < end && next < length {
        Some(next)
    } else {
        None
    }
}

/// Where the last of these segments begins, and where it ends; 0 where there is none.
fn last_borders(met: &[Placed]) -> (u64, u64)
    requires fits { AllByRecursion EndsInside met.now }
    requires adjoined { met.now ≡ placed (start_of met.now) (pairs_of met.now) }
    ensures start { result.0 ≡ last_start met.now }
    ensures end { result.1 ≡ end_of met.now }
{
    let count = met.len();
    if count == 0 {
        return (0, 0);
    }
    let last = met[count - 1];
    (last.start, last.start + last.pair.bytes)
}

/// The segment that has a byte, where one is asked for.
fn find_at<P: Port>(
    alloc: Global,
    root: &Root,
    held: &Holdings<P::S>,
    cache: &mut Cache,
    port: &mut P,
    place: Option<u64>,
) -> Result<Option<Placed>, TreeFail>
    requires inside { IfSome place (λ at. at < root.now.length) }
    requires asks { AsksSearch P.S.tells (P.meter port.old).page held.now cache.old
        (IsTree (bytes_on held.now) (room_of (P.meter port.old).page / 2) root.now.height
        root.now.page root.now.length) }
    ensures told { IfOk result (λ found. IsTrue P.S.tells
        → option_to_list found ≡ found_where (entries_of (bytes_on held.now) root.now.height
        root.now.page) place) }
    ensures reads { ReadsNodes P.S.tells (P.meter port.old).page (bytes_on held.now) cache.new
        (P.meter port.old) (P.meter port.new) }
    ensures few { IfOk result (λ found. (P.meter port.new).read
        ≤ (P.meter port.old).read + root.now.height * length (option_to_list found)) }
    ensures cause { HasCause (P.meter port.old).faults (P.meter port.new).faults
        (result ≡ Err TreeFail.Fault) }
{
    let Some(at) = place else {
        return Ok(None);
    };
    let found = find(alloc, root, held, cache, port, at)?;
    Ok(Some(found))
}

/// Segments with one before them and one behind them, where there are such.
fn joined(
    alloc: Global,
    front: Option<Placed>,
    met: &[Placed],
    back: Option<Placed>,
) -> Result<Vec<Placed>, AllocError>
    ensures { IfOk result (λ all. all.items
        ≡ option_to_list front ++ (met.now ++ option_to_list back)) }
{
    let mut all = Vec::with_capacity(alloc, met.len())?;
    push_some(&mut all, front)?;
    all.extend_from_slice(met)?;
    push_some(&mut all, back)?;
    Ok(all)
}

/// Adds a segment, where there is one.
fn push_some(all: &mut Vec<Placed>, segment: Option<Placed>) -> Result<(), AllocError>
    ensures { OnOk result (all.new.items ≡ all.old.items ++ option_to_list segment) }
{
    let Some(segment) = segment else {
        return Ok(());
    };
    all.push(segment)?;
    Ok(())
}
