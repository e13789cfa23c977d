//! The held pages that aren't locked: all that the working version and its spare use.

ghost use Rattle.std.specs.Prelude.{◌≡◌, ℕ, ◌+◌, ◌^◌, ◌<◌, false, not, ◌&&◌, ◌||◌, OnOk, IfOk};
ghost use Rattle.page_set.specs.Members.{AllOn, AreSame, Keeps};
ghost use Rattle.page_set.specs.Words.{in_set, room_in};
ghost use Rattle.span_store.specs.Held.{has};
ghost use Rattle.page_cache.specs.Kept.{is_on_run};
ghost use Rattle.object_state.specs.Keeps.{AreOnData, IsMarked};

use page_port::{Geometry, Span};
use page_set::PageSet;
use span_store::Holdings;
use std::alloc::{AllocError, Global};

/// Gathers a run if its first page isn't locked, and makes room for it among the locked pages.
fn gather_run(
    gone: &mut PageSet,
    locked: &mut PageSet,
    first: u32,
    pages: u32,
) -> Result<(), AllocError>
    requires { first + pages < 2 ^ 32 }
    ensures gone { OnOk result ((page : ℕ) → in_set gone.new page
        ≡ (in_set gone.old page || (is_on_run first pages page && not (in_set locked.old first)))) }
    ensures room { OnOk result (in_set locked.old first ≡ false →
        AllOn (room_in locked.new) first pages) }
    ensures keeps { Keeps (room_in locked.old) (room_in locked.new) }
    ensures same { AreSame (in_set locked.old) (in_set locked.new) }
    ensures size { locked.new.size ≡ locked.old.size }
{
    if locked.has(first) {
        return Ok(());
    }
    gone.add(first, pages)?;
    locked.reserve(first, pages)
}

/// The held pages that aren't locked. For each of them there is room among the locked ones. It goes
/// through all spans.
///
/// # Errors
/// There was no memory: the same pages are locked.
pub fn gather_unlocked<S: Span>(
    alloc: Global,
    geometry: &Geometry,
    held: &Holdings<S>,
    locked: &mut PageSet,
) -> Result<PageSet, AllocError>
    requires on_data { AreOnData geometry.now held.now }
    requires marked { IsMarked held.now (in_set locked.old) }
    ensures gone { IfOk result (λ gone. (page : ℕ) → in_set gone page
        ≡ (has held.now page && not (in_set locked.old page))) }
    ensures room { IfOk result (λ gone. Keeps (in_set gone) (room_in locked.new)) }
    ensures same { AreSame (in_set locked.old) (in_set locked.new) }
    ensures size { locked.new.size ≡ locked.old.size }
{
    // No held page has the last number of 4 bytes.
    let _end = held.end();
    let mut gone = PageSet::new(alloc);
    let mut at = 0;
    while let Some(span) = held.span_from(at) {
        let first = span.first();
        let pages = span.pages();
        gather_run(&mut gone, locked, first, pages)?;
        at = first + pages;
    }
    Ok(gone)
}
