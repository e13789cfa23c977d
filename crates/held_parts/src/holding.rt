//! Segments that were granted, and are held from then on, each a span of its own.

ghost use Rattle.std.specs.Prelude.{◌≡◌, ℕ, ◌+◌, ◌≤◌, IfOk, IsTrue, [], length, false};
ghost use Rattle.std.specs.List.{AllByRecursion};
ghost use Rattle.page_port.specs.Pages.{IsSized};
ghost use Rattle.span_store.specs.Held.{AllSized};
ghost use Rattle.superdirectory.specs.Parts.{extents};
ghost use Rattle.held_parts.specs.Asking.{AreHeldLast};

use layout_model::Extent;
use page_port::Span;
use space_directory::Segment;
use span_store::Holdings;
use std::alloc::{AllocError, Global};

/// The runs of pages of segments.
pub fn runs_of<S: Span>(alloc: Global, segments: &[Segment<S>]) -> Result<Vec<Extent>, AllocError>
    ensures { IfOk result (λ runs. runs.items
        ≡ extents (λ g. S.start g.span) (λ g. S.contents g.span) segments.now) }
{
    let mut runs = Vec::with_capacity(alloc, segments.len())?;
    for segment in segments {
        runs.push_reserved(Extent {
            page: segment.span.first(),
            pages: segment.span.pages(),
        });
    }
    Ok(runs)
}

/// Holds segments, the last one first, and takes them out of the list. It takes no memory: room was
/// made for them. False comes where one of them has a page that is held already: it stays in the
/// list, as do those before it.
pub fn hold_all<S: Span>(held: &mut Holdings<S>, segments: &mut Vec<Segment<S>>) -> bool
    requires room { length held.old.spans + length segments.old.items ≤ held.old.room }
    requires some { AllByRecursion (λ g. 1 ≤ length (S.contents g.span)) segments.old.items }
    ensures last { AreHeldLast (λ g. S.start g.span) (λ g. S.contents g.span)
        segments.old.items segments.new.items held.old held.new }
    ensures all { IsTrue result → segments.new.items ≡ [] }
    ensures sized { (size : ℕ) → AllSized S.tells size held.old
        → AllByRecursion (λ g. IsSized S.tells size (S.contents g.span)) segments.old.items
        → AllSized S.tells size held.new }
{
    'moves: while let Some(segment) = segments.pop() {
        if !held.lacks(segment.span.first(), segment.span.pages()) {
            segments.push_reserved(segment);
            return false;
        }
        held.add(segment.span);
    }
    true
}
