//! The runs of pages of a change that was made: those that it drops, those that it keeps, and those
//! that it was granted.

ghost use Rattle.std.specs.Prelude.{◌≡◌, ◌++◌, ◌^◌, ◌<◌, map, IfOk, IsTrue, OnOk};
ghost use Rattle.std.specs.List.{AllByRecursion};
ghost use Rattle.let_go_laws.specs.LetGo.{spare_run};
ghost use Rattle.moment_model.specs.Version.{segment_run};
ghost use Rattle.object_state.specs.Changes.{IsHeldRun, IsOnHeld, StandsOnHeld};
ghost use Rattle.object_state.specs.Changing.{dropped_by, kept_by};
ghost use Rattle.object_state.specs.Runs.{HoldsExtent};
ghost use Rattle.span_store.specs.Held.{HoldsRun};
ghost use Rattle.tree_model.specs.Tree.{page_count};
ghost use Rattle.tree_splice.specs.Splice.{extent_of};

use crate::fits::pages_of;
use layout_model::Extent;
use object_change::Changed;
use object_plan::Planned;
use page_port::{Geometry, Span};
use span_store::Holdings;
use std::alloc::{AllocError, Global};
use tree_model::Pair;
use tree_splice::Run;

/// Do the new entries and the nodes that are left out stand on held pages? Over a device that tells
/// its bytes they do.
pub fn stands<S: Span>(geometry: &Geometry, held: &Holdings<S>, changed: &Changed) -> bool
    ensures sound { IsTrue result → StandsOnHeld held.now geometry.now.page changed.now }
    ensures whole { IsOnHeld held.now geometry.now.page changed.now → IsTrue result }
{
    holds_segments(geometry, held, changed.entries.as_slice())
        && holds_runs(held, changed.left.as_slice())
}

/// Are the pages of all segments held?
fn holds_segments<S: Span>(geometry: &Geometry, held: &Holdings<S>, segments: &[Pair]) -> bool
    ensures sound { IsTrue result → AllByRecursion (λ p. IsHeldRun held.now
        (segment_run geometry.now.page p)) segments.now }
    ensures whole { AllByRecursion (λ p. HoldsExtent held.now (segment_run geometry.now.page p))
        segments.now → IsTrue result }
{
    for pair in segments {
        if !holds_run(held, pair.page, pages_of(geometry, pair.bytes)) {
            return false;
        }
    }
    true
}

/// Are the pages of all runs held?
fn holds_runs<S: Span>(held: &Holdings<S>, runs: &[Run]) -> bool
    ensures sound { IsTrue result → AllByRecursion (λ run. IsHeldRun held.now (extent_of run))
        runs.now }
    ensures whole { AllByRecursion (λ run. HoldsExtent held.now (extent_of run)) runs.now →
        IsTrue result }
{
    for run in runs {
        if !holds_run(held, run.first, run.pages as u64) {
            return false;
        }
    }
    true
}

/// Are these pages held? Then they have numbers of 32 bits.
fn holds_run<S: Span>(held: &Holdings<S>, first: u32, pages: u64) -> bool
    ensures sound { IsTrue result → IsHeldRun held.now (record { page = first; pages = pages }) }
    ensures whole { HoldsRun held.now first pages → IsTrue result }
{
    // No page behind this one is held.
    let _end = held.end();
    pages <= (u32::MAX - first) as u64 && held.holds(first, pages as u32)
}

/// The runs that a change drops: the replaced segments, the nodes that were left out, and the old
/// spare.
///
/// # Errors
/// There was no memory.
pub fn dropped_runs(
    alloc: Global,
    geometry: &Geometry,
    planned: &Planned,
    spare: Option<Extent>,
    changed: &Changed,
) -> Result<Vec<Extent>, AllocError>
    requires { AllByRecursion (λ p. page_count geometry.now.page p.bytes < 2 ^ 32)
        planned.now.replaced.items }
    ensures { IfOk result (λ runs. runs.items
        ≡ dropped_by geometry.now.page planned.now spare changed.now) }
{
    let mut runs = Vec::new(alloc);
    push_segments(&mut runs, geometry, planned.replaced.as_slice())?;
    push_runs(&mut runs, changed.left.as_slice())?;
    push_spare(&mut runs, spare)?;
    Ok(runs)
}

/// The runs that it keeps: the new segments, and the new spare.
///
/// # Errors
/// There was no memory.
pub fn kept_runs(
    alloc: Global,
    geometry: &Geometry,
    changed: &Changed,
) -> Result<Vec<Extent>, AllocError>
    requires { AllByRecursion (λ p. page_count geometry.now.page p.bytes < 2 ^ 32)
        changed.now.entries.items }
    ensures { IfOk result (λ runs. runs.items ≡ kept_by geometry.now.page changed.now) }
{
    let mut runs = Vec::new(alloc);
    push_segments(&mut runs, geometry, changed.entries.as_slice())?;
    push_spare(&mut runs, changed.spare)?;
    Ok(runs)
}

/// The runs that it was granted: those of the parts, and the pages of the nodes.
///
/// # Errors
/// There was no memory.
pub fn granted_runs(alloc: Global, changed: &Changed) -> Result<Vec<Extent>, AllocError>
    ensures { IfOk result (λ runs. runs.items
        ≡ changed.now.runs.items ++ map extent_of changed.now.made) }
{
    let mut runs = Vec::from_slice(alloc, changed.runs.as_slice())?;
    push_runs(&mut runs, changed.made.as_slice())?;
    Ok(runs)
}

/// Appends the runs of segments.
fn push_segments(
    into: &mut Vec<Extent>,
    geometry: &Geometry,
    segments: &[Pair],
) -> Result<(), AllocError>
    requires { AllByRecursion (λ p. page_count geometry.now.page p.bytes < 2 ^ 32) segments.now }
    ensures { OnOk result (into.new.items
        ≡ into.old.items ++ map (segment_run geometry.now.page) segments.now) }
{
    for pair in segments {
        let pages = pages_of(geometry, pair.bytes) as u32;
        into.push(Extent {
            page: pair.page,
            pages,
        })?;
    }
    Ok(())
}

/// Appends runs of pages.
fn push_runs(into: &mut Vec<Extent>, runs: &[Run]) -> Result<(), AllocError>
    ensures { OnOk result (into.new.items ≡ into.old.items ++ map extent_of runs.now) }
{
    for run in runs {
        into.push(Extent {
            page: run.first,
            pages: run.pages,
        })?;
    }
    Ok(())
}

/// Appends the run of the spare pages, where there are some.
fn push_spare(into: &mut Vec<Extent>, spare: Option<Extent>) -> Result<(), AllocError>
    ensures { OnOk result (into.new.items ≡ into.old.items ++ spare_run spare) }
{
    if let Some(run) = spare {
        into.push(run)?;
    }
    Ok(())
}
