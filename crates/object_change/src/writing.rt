//! The new bytes of a change are written: on the runs that were granted for its parts, or on the
//! spare.

ghost use Rattle.std.specs.Prelude.{◌≡◌, ℕ, [], length, IfNone, IfSome, IsTrue, None, Some};
ghost use Rattle.layout_model.specs.declared.fit.Fit.TheVariants.{Extend, Follow, Fresh};
ghost use Rattle.moment_model.specs.Version.{uses};
ghost use Rattle.page_cache.specs.Kept.{HaveAtMost, kept};
ghost use Rattle.span_store.specs.Held.{bytes_on};
ghost use Rattle.tree_read.specs.Search.{KeepsNodes};
ghost use Rattle.held_parts.specs.Asking.{AreBare};
ghost use Rattle.object_change.specs.Steps.{CanPut, PutsNewBytes, first_made, put_runs};

use edit_parts::{Part, Pieces};
use held_parts::{PartRuns, new_entries};
use layout_model::{Extent, Fit};
use node_codec::Pairs;
use object_plan::{Planned, WorkingTree};
use page_cache::Cache;
use page_port::{Geometry, Port};
use part_bytes::{WriteFail, write_on, write_part, write_parts};
use span_store::Holdings;
use std::alloc::Global;

/// Puts the new bytes of a change on pages, and says which entries stand for its parts.
///
/// # Errors
/// As of `write_part`. Then the pages of the runs, or of the spare, may hold anything.
pub fn put_bytes<P: Port>(
    alloc: Global,
    geometry: &Geometry,
    working: &WorkingTree,
    planned: &Planned,
    payload: &[u8],
    granted: &PartRuns,
    held: &mut Holdings<P::S>,
    cache: &mut Cache,
    port: &mut P,
) -> Result<Pairs, WriteFail>
    requires can { CanPut P.S.tells geometry.now working.now planned.now payload.now
        granted.now.counts.items granted.now.runs.items held.old (P.meter port.old) }
    requires nodes { KeepsNodes P.S.tells geometry.now.page (bytes_on held.old) cache.old }
    requires bare { IsTrue P.S.tells → AreBare granted.now.runs.items cache.old }
    ensures puts { PutsNewBytes P.S.tells geometry.now working.now.spare planned.now payload.now
        granted.now.counts.items granted.now.runs.items result held.old held.new
        (P.meter port.old) (P.meter port.new) }
    ensures nodes { KeepsNodes P.S.tells geometry.now.page (bytes_on held.new) cache.new }
{
    let Ok(mut scratch) = vec![in alloc; 0u8; geometry.page() as usize] else {
        return Err(WriteFail::Memory);
    };
    forget_spare(planned.fit, working.spare, cache);
    put_on_pages(
        alloc,
        geometry,
        working,
        planned,
        payload,
        granted,
        held,
        port,
        &mut scratch,
    )
}

/// Forgets the nodes of the spare pages where new bytes are put on them.
fn forget_spare(fit: Fit, spare: Option<Extent>, cache: &mut Cache)
    ensures gone { AreBare (put_runs fit spare []) cache.new }
    ensures others { (q : ℕ) → uses q (put_runs fit spare []) ≡ 0 →
        kept cache.new q ≡ kept cache.old q }
    ensures small { (most : ℕ) → HaveAtMost most cache.old → HaveAtMost most cache.new }
{
    if let Fit::Fresh = fit {
        return;
    }
    if let Some(run) = spare {
        cache.forget_run(run.page, run.pages);
    }
}

/// Puts the new bytes on their pages. `scratch` is room for a page.
fn put_on_pages<P: Port>(
    alloc: Global,
    geometry: &Geometry,
    working: &WorkingTree,
    planned: &Planned,
    payload: &[u8],
    granted: &PartRuns,
    held: &mut Holdings<P::S>,
    port: &mut P,
    scratch: &mut [u8],
) -> Result<Pairs, WriteFail>
    requires can { CanPut P.S.tells geometry.now working.now planned.now payload.now
        granted.now.counts.items granted.now.runs.items held.old (P.meter port.old) }
    requires scratch { length scratch.old ≡ geometry.now.page }
    ensures puts { PutsNewBytes P.S.tells geometry.now working.now.spare planned.now payload.now
        granted.now.counts.items granted.now.runs.items result held.old held.new
        (P.meter port.old) (P.meter port.new) }
{
    match planned.fit {
        Fit::Fresh => put_on_runs(
            alloc, geometry, working, planned, payload, granted, held, port, scratch,
        ),
        Fit::Follow => put_on_spare(
            alloc, geometry, working, planned, payload, granted, held, port, scratch,
        ),
        Fit::Extend => put_behind(
            alloc, geometry, working, planned, payload, granted, held, port, scratch,
        ),
    }
}

/// Writes the made parts on the runs that were granted for them.
fn put_on_runs<P: Port>(
    alloc: Global,
    geometry: &Geometry,
    working: &WorkingTree,
    planned: &Planned,
    payload: &[u8],
    granted: &PartRuns,
    held: &mut Holdings<P::S>,
    port: &mut P,
    scratch: &mut [u8],
) -> Result<Pairs, WriteFail>
    requires fit { planned.now.fit ≡ Fresh }
    requires can { CanPut P.S.tells geometry.now working.now planned.now payload.now
        granted.now.counts.items granted.now.runs.items held.old (P.meter port.old) }
    requires scratch { length scratch.old ≡ geometry.now.page }
    ensures puts { PutsNewBytes P.S.tells geometry.now working.now.spare planned.now payload.now
        granted.now.counts.items granted.now.runs.items result held.old held.new
        (P.meter port.old) (P.meter port.new) }
{
    let parts = planned.parts.as_slice();
    let counts = granted.counts.as_slice();
    let runs = granted.runs.as_slice();
    let Ok(entries) = new_entries(alloc, geometry.page(), parts, counts, runs) else {
        return Err(WriteFail::Memory);
    };
    match write_parts(alloc, held, port, parts, payload, counts, runs, scratch) {
        Ok(()) => Ok(entries),
        Err(fail) => Err(fail),
    }
}

/// Writes the one made part on the spare.
fn put_on_spare<P: Port>(
    alloc: Global,
    geometry: &Geometry,
    working: &WorkingTree,
    planned: &Planned,
    payload: &[u8],
    granted: &PartRuns,
    held: &mut Holdings<P::S>,
    port: &mut P,
    scratch: &mut [u8],
) -> Result<Pairs, WriteFail>
    requires fit { planned.now.fit ≡ Follow }
    requires can { CanPut P.S.tells geometry.now working.now planned.now payload.now
        granted.now.counts.items granted.now.runs.items held.old (P.meter port.old) }
    requires scratch { length scratch.old ≡ geometry.now.page }
    ensures puts { PutsNewBytes P.S.tells geometry.now working.now.spare planned.now payload.now
        granted.now.counts.items granted.now.runs.items result held.old held.new
        (P.meter port.old) (P.meter port.new) }
{
    let page = geometry.page();
    let parts = planned.parts.as_slice();
    let Some(run) = working.spare else {
        unreachable!()
    };
    let Some(pieces) = first_made(parts) else {
        unreachable!()
    };
    let Ok(entries) = new_entries(alloc, page, parts, &[1], &[run]) else {
        return Err(WriteFail::Memory);
    };
    match write_part(alloc, held, port, pieces, payload, &[run], scratch) {
        Ok(()) => Ok(entries),
        Err(fail) => Err(fail),
    }
}

/// The pieces of the first made part.
fn first_made(parts: &[Part]) -> Option<&Pieces>
    ensures some { IfSome result (λ pieces. first_made parts.now ≡ Some pieces.now) }
    ensures none { IfNone result (first_made parts.now ≡ None) }
{
    for part in parts {
        if let Part::Make(pieces) = part {
            return Some(pieces);
        }
    }
    None
}

/// Writes the payload on the spare, right behind the last segment.
fn put_behind<P: Port>(
    alloc: Global,
    geometry: &Geometry,
    working: &WorkingTree,
    planned: &Planned,
    payload: &[u8],
    granted: &PartRuns,
    held: &mut Holdings<P::S>,
    port: &mut P,
    scratch: &mut [u8],
) -> Result<Pairs, WriteFail>
    requires fit { planned.now.fit ≡ Extend }
    requires can { CanPut P.S.tells geometry.now working.now planned.now payload.now
        granted.now.counts.items granted.now.runs.items held.old (P.meter port.old) }
    requires scratch { length scratch.old ≡ geometry.now.page }
    ensures puts { PutsNewBytes P.S.tells geometry.now working.now.spare planned.now payload.now
        granted.now.counts.items granted.now.runs.items result held.old held.new
        (P.meter port.old) (P.meter port.new) }
{
    let parts = planned.parts.as_slice();
    let Ok(entries) = new_entries(alloc, geometry.page(), parts, &[], &[]) else {
        return Err(WriteFail::Memory);
    };
    // Where there is no spare page there is no new byte.
    let Some(run) = working.spare else {
        return Ok(entries);
    };
    match write_on(held, port, &[run], payload, scratch) {
        Ok(()) => Ok(entries),
        Err(_) => Err(WriteFail::Fault),
    }
}
