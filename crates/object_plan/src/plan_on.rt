//! The plan of a change, made from the entries of its window alone.

ghost use Rattle.std.specs.Prelude.{◌≡◌, ℕ, ◌+◌, ◌-◌, ◌^◌, ◌<◌, ◌≤◌, Option, length, take, true, IfOk};
ghost use Rattle.std.specs.List.{AllByRecursion};
ghost use Rattle.geometry_model.specs.Numbers.{Numbers};
ghost use Rattle.tree_model.specs.Range.{pairs_of, start_of};
ghost use Rattle.tree_model.specs.Tree.{bytes_of};
ghost use Rattle.layout_model.specs.declared.extent.Extent.{Extent};
ghost use Rattle.layout_model.specs.declared.fit.Fit.TheVariants.{Extend};
ghost use Rattle.layout_model.specs.Plan.{extent_pages, fit_appended, plan_extended};
ghost use Rattle.moment_model.specs.Moment.{count_true};
ghost use Rattle.window_laws.specs.Searches.{end_of};
ghost use Rattle.object_plan.specs.Sides.{count_sides};
ghost use Rattle.object_plan.specs.Window.{CanPlanOn, IsPlanOn, change_on, plan_on};

use crate::asking::{extends, fit_parts, wanted_for};
use crate::planned::Planned;
use crate::sides::{Sides, pairs_between, sides_of, trim};
use crate::usable::{bytes_of, start_of};
use edit_parts::Part;
use edit_plan::plan;
use layout_model::{Change, Extent, Fit};
use page_port::Geometry;
use std::alloc::{AllocError, Global};
use threshold_merge::pack;
use tree_model::{Pair, Placed};

/// Plans a change from the entries of its window. The one refusal is for want of memory.
pub fn plan_window(
    alloc: Global,
    geometry: &Geometry,
    threshold: u32,
    spare: Option<Extent>,
    change: Change,
    window: &[Placed],
) -> Result<Planned, AllocError>
    requires { CanPlanOn geometry.now threshold spare change window.now }
    ensures { IfOk result (λ p. IsPlanOn geometry.now
        (plan_on geometry.now threshold spare change window.now) change window.now p) }
{
    if extends(spare, geometry.page(), &change, window) {
        plan_extended(alloc, change, window)
    } else {
        plan_packed(alloc, geometry, threshold, spare, change, window)
    }
}

/// Plans that the last segment grows by the new bytes, on the spare pages behind it.
fn plan_extended(alloc: Global, change: Change, window: &[Placed]) -> Result<Planned, AllocError>
    requires some { 0 < length window.now }
    requires fits { end_of window.now < 2 ^ 64 }
    requires grows { AllByRecursion (λ p. p.bytes + change.added < 2 ^ 64) (pairs_of window.now) }
    ensures { IfOk result (λ p. (n : Numbers) (threshold : ℕ) (spare : Option Extent) →
        CanPlanOn n threshold spare change window.now → change.appends ≡ true →
        IsPlanOn n (plan_extended (pairs_of window.now) (change_on window.now change)) change
        window.now p) }
{
    let last = window[window.len() - 1].pair;
    let to = start_of(window) + bytes_of(window);
    let mut replaced = Vec::with_capacity(alloc, 1)?;
    replaced.push(last)?;
    let mut parts = Vec::with_capacity(alloc, 1)?;
    parts.push(Part::Keep(Pair {
        bytes: last.bytes + change.added,
        page: last.page,
    }))?;
    Ok(Planned {
        change,
        from: to - last.bytes,
        to,
        replaced,
        parts,
        fit: Fit::Extend,
        requests: Vec::new(alloc),
    })
}

/// Plans parts of which small neighbours are merged, and leaves the entries at the sides of the
/// window out that no part was merged with.
fn plan_packed(
    alloc: Global,
    geometry: &Geometry,
    threshold: u32,
    spare: Option<Extent>,
    change: Change,
    window: &[Placed],
) -> Result<Planned, AllocError>
    requires can { CanPlanOn geometry.now threshold spare change window.now }
    requires packed { fit_appended geometry.now.page (pairs_of window.now) (extent_pages spare)
        (change_on window.now change) ≡ Extend → ⊥ }
    ensures { IfOk result (λ p. IsPlanOn geometry.now
        (plan_on geometry.now threshold spare change window.now) change window.now p) }
{
    let page = geometry.page();
    let parts = plan(
        alloc,
        geometry,
        window,
        change.at,
        change.removed,
        change.added,
    )?;
    let mut parts = pack(alloc, parts, page, threshold)?.into_vec();
    let sides = sides_of(window, change.at, change.removed, parts.as_slice());
    let fit = fit_parts(change.appends, pages_of(spare), page, parts.as_slice());
    trim(&mut parts, sides);
    let requests = wanted_for(
        alloc,
        geometry,
        change.appends,
        fit,
        window,
        parts.as_slice(),
    )?;
    let replaced = pairs_between(alloc, window, sides)?;
    let (from, to) = borders(window, sides);
    Ok(Planned {
        change,
        from,
        to,
        replaced,
        parts,
        fit,
        requests,
    })
}

/// The pages of a run, none where there is none.
fn pages_of(run: Option<Extent>) -> u32
    ensures { result ≡ extent_pages run }
{
    match run {
        Some(run) => run.pages,
        None => 0,
    }
}

/// The bytes at which the segments begin and end between those that stay.
fn borders(window: &[Placed], sides: Sides) -> (u64, u64)
    requires fits { end_of window.now < 2 ^ 64 }
    requires few { count_sides sides ≤ length window.now }
    ensures from { result.0 ≡ start_of window.now
        + bytes_of (take (count_true sides.front) (pairs_of window.now)) }
    ensures to { result.1 ≡ start_of window.now + bytes_of (take
        (length window.now - count_true sides.back) (pairs_of window.now)) }
{
    let start = start_of(window);
    let mut from = start;
    if sides.front {
        from += window[0].pair.bytes;
    }
    let mut to = start + bytes_of(window);
    if sides.back {
        to -= window[window.len() - 1].pair.bytes;
    }
    (from, to)
}
