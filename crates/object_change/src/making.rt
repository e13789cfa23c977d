//! A planned change is made.

ghost use Rattle.std.specs.Prelude.{◌≡◌};
ghost use Rattle.object_change.specs.Calls.{CanMakeChange, MakesChange};
ghost use Rattle.object_change.specs.Steps.{CanChangeOn, CanSpare, ChangesOn, IsChangedTo};
ghost use Rattle.object_change.specs.Steps.{of_splice, of_write};

use crate::changed::Changed;
use crate::spare::spare_of;
use crate::writing::put_bytes;
use give_back::give_runs;
use held_parts::{PartRuns, ask_runs};
use node_codec::Pairs;
use object_body::EditFail;
use object_plan::{Planned, WorkingTree};
use page_cache::Cache;
use page_port::{Geometry, Port};
use part_bytes::WriteFail;
use span_store::Holdings;
use std::alloc::Global;
use superdirectory::Latches;
use tree_splice::{SpliceFail, Spliced, splice};

/// Makes a planned change of an object. The pages of the made parts are asked for, from space
/// `start` on and around, and the parts are written there; or the new bytes are written on the
/// spare pages. Then the entries are exchanged for the new ones, on new nodes.
///
/// No page that was held is written, but for spare ones, and all of them stay held. What was
/// granted is held besides, each run in a span of its own.
///
/// # Errors
/// `NoSpace` where no space has a block for a piece of a part, or a page for a node; `Fault` where
/// the device failed or gave what was never written; `Memory` where there was none, or a page was
/// granted that is held already. All that was granted is given back, and what is held is as it was.
pub fn make_change<P: Port, L: Latches<S = P::S>>(
    alloc: Global,
    geometry: &Geometry,
    working: &WorkingTree,
    planned: &Planned,
    payload: &[u8],
    held: &mut Holdings<P::S>,
    cache: &mut Cache,
    port: &mut P,
    latches: &mut L,
    turn: &mut L::Turn,
    start: u16,
) -> Result<Changed, EditFail>
    requires can { CanMakeChange P.S.tells geometry.now start working.now planned.now payload.now
        (record {
          held = held.old;
          nodes = cache.old;
          meter = P.meter port.old;
          rest = L.rest latches.old;
          trace = L.trace latches.old;
        }) }
    ensures makes { MakesChange P.S.tells geometry.now start working.now planned.now payload.now
        result
        (record {
          held = held.old;
          nodes = cache.old;
          meter = P.meter port.old;
          rest = L.rest latches.old;
          trace = L.trace latches.old;
        })
        (record {
          held = held.new;
          nodes = cache.new;
          meter = P.meter port.new;
          rest = L.rest latches.new;
          trace = L.trace latches.new;
        }) }
{
    let granted = match ask_runs(
        alloc,
        geometry,
        working.threshold,
        planned.requests.as_slice(),
        held,
        cache,
        latches,
        turn,
        start,
    ) {
        Ok(granted) => granted,
        Err(fail) => return Err(fail),
    };
    // These two say that the numbers are in range, and that those of held pages have 32 bits.
    let _page = geometry.page();
    let _end = held.end();
    match change_on(
        alloc, geometry, working, planned, payload, &granted, held, cache, port, latches, turn,
        start,
    ) {
        Ok((entries, spliced)) => Ok(changed(
            geometry, working, planned, granted, entries, spliced,
        )),
        Err(fail) => {
            give_runs(
                geometry,
                granted.runs.as_slice(),
                held,
                cache,
                latches,
                turn,
            );
            Err(fail)
        }
    }
}

/// Puts the new bytes on their pages, and exchanges the entries.
///
/// # Errors
/// As of `make_change`. The runs that were granted stay held; no page is held besides.
fn change_on<P: Port, L: Latches<S = P::S>>(
    alloc: Global,
    geometry: &Geometry,
    working: &WorkingTree,
    planned: &Planned,
    payload: &[u8],
    granted: &PartRuns,
    held: &mut Holdings<P::S>,
    cache: &mut Cache,
    port: &mut P,
    latches: &mut L,
    turn: &mut L::Turn,
    start: u16,
) -> Result<(Pairs, Spliced), EditFail>
    requires can { CanChangeOn P.S.tells geometry.now start working.now planned.now payload.now
        granted.now.counts.items granted.now.runs.items
        (record {
          held = held.old;
          nodes = cache.old;
          meter = P.meter port.old;
          rest = L.rest latches.old;
          trace = L.trace latches.old;
        }) }
    ensures changes { ChangesOn P.S.tells geometry.now start working.now planned.now payload.now
        granted.now.counts.items granted.now.runs.items result
        (record {
          held = held.old;
          nodes = cache.old;
          meter = P.meter port.old;
          rest = L.rest latches.old;
          trace = L.trace latches.old;
        })
        (record {
          held = held.new;
          nodes = cache.new;
          meter = P.meter port.new;
          rest = L.rest latches.new;
          trace = L.trace latches.new;
        }) }
{
    let _page = geometry.page();
    let entries = match put_bytes(
        alloc, geometry, working, planned, payload, granted, held, cache, port,
    ) {
        Ok(entries) => entries,
        Err(fail) => return Err(write_refused(fail)),
    };
    match splice(
        alloc,
        &working.root,
        planned.from,
        planned.to,
        &entries,
        held,
        cache,
        port,
        latches,
        turn,
        start,
    ) {
        Ok(spliced) => Ok((entries, spliced)),
        Err(fail) => Err(splice_refused(fail)),
    }
}

/// Why the bytes weren't written, as a refusal of the edit.
fn write_refused(fail: WriteFail) -> EditFail
    ensures { result ≡ of_write fail }
{
    match fail {
        WriteFail::Fault => EditFail::Fault,
        WriteFail::Memory => EditFail::Memory,
    }
}

/// Why the entries weren't exchanged, as a refusal of the edit: a page for a node was refused.
fn splice_refused(fail: SpliceFail) -> EditFail
    ensures { result ≡ of_splice fail }
{
    match fail {
        SpliceFail::NoSpace => EditFail::NoSpace(1),
        SpliceFail::Fault => EditFail::Fault,
        SpliceFail::Memory => EditFail::Memory,
    }
}

/// The object after a change that was made.
fn changed(
    geometry: &Geometry,
    working: &WorkingTree,
    planned: &Planned,
    granted: PartRuns,
    entries: Pairs,
    spliced: Spliced,
) -> Changed
    requires { CanSpare geometry.now working.now.spare planned.now entries.items
        granted.counts.items granted.runs.items }
    ensures { IsChangedTo geometry.now working.now.spare planned.now granted.counts.items
        granted.runs.items entries.items spliced result }
{
    let spare = spare_of(
        geometry,
        planned,
        working.spare,
        entries.as_slice(),
        &granted,
    );
    let PartRuns { runs, counts } = granted;
    let Spliced { root, made, left } = spliced;
    Changed {
        root,
        spare,
        entries,
        runs,
        counts,
        made,
        left,
    }
}
