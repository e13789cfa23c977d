//! The pages of an open store given back to its device, page 0 left for last.

ghost use Rattle.std.specs.Prelude.{◌≡◌, ℕ, true, length, Some, All, IsTrue, unwrap_or};
ghost use Rattle.tree_model.specs.Tree.{Pages};
ghost use Rattle.page_port.specs.Pages.{AreOf};
ghost use Rattle.span_store.specs.Held.{AllSized, has, span_of};
ghost use Rattle.space_directory.specs.SpaceView.{IsSpace};
ghost use Rattle.store_parts.specs.Returning.{HaveReturned, IsFirstOut, IsOnMount, ShowsSpan};
ghost use Rattle.store_parts.specs.Returning.{ShowsSpace, ShowsHeld, AreHeldOnMount, any_has};
ghost use Rattle.store_parts.specs.Returning.{is_page_of, is_free_of};

use eos_ops::Annals;
use object_body::{Object, Stored};
use page_port::Bay;
use space_directory::Space;
use span_store::Holdings;

/// Gives a span back that lies behind page 0.
pub fn give_span<Y: Bay>(bay: &mut Y, span: Y::S)
    requires out { IsTrue Y.S.tells → IsFirstOut (Y.device bay.old) }
    requires on { IsTrue Y.S.tells →
        IsOnMount (Y.device bay.old) (Y.S.start span) (length (Y.S.contents span)) }
    requires sized { IsTrue Y.S.tells →
        AreOf (unwrap_or (Y.device bay.old).mounted 0) (Y.S.contents span) }
    ensures back { IsTrue Y.S.tells → (at : Pages) →
        ShowsSpan at (span_of Y.S.start Y.S.contents span) →
        HaveReturned at (is_page_of (span_of Y.S.start Y.S.contents span))
        (Y.device bay.old) (Y.device bay.new) }
    ensures faults { (Y.device bay.new).faults ≡ (Y.device bay.old).faults }
{
    bay.restore(span);
}

/// Gives the free pages of a space back.
pub fn give_space<Y: Bay>(bay: &mut Y, mut space: Space<Y::S>)
    requires space { IsSpace space }
    requires out { IsTrue Y.S.tells → IsFirstOut (Y.device bay.old) }
    requires on { IsTrue Y.S.tells →
        IsOnMount (Y.device bay.old) space.first (length space.free) }
    requires sized { IsTrue Y.S.tells → (Y.device bay.old).mounted ≡ Some space.page }
    ensures back { IsTrue Y.S.tells → (at : Pages) → ShowsSpace at space →
        HaveReturned at (is_free_of space) (Y.device bay.old) (Y.device bay.new) }
    ensures faults { (Y.device bay.new).faults ≡ (Y.device bay.old).faults }
{
    'runs: while let Some(span) = space.take_any() {
        give_span(bay, span);
    }
}

/// Gives held pages back.
pub fn give_held<Y: Bay>(bay: &mut Y, mut held: Holdings<Y::S>)
    requires out { IsTrue Y.S.tells → IsFirstOut (Y.device bay.old) }
    requires on { IsTrue Y.S.tells → AreHeldOnMount (Y.device bay.old) held }
    requires sized { AllSized Y.S.tells (unwrap_or (Y.device bay.old).mounted 0) held }
    ensures back { IsTrue Y.S.tells → (at : Pages) → ShowsHeld at held →
        HaveReturned at (has held) (Y.device bay.old) (Y.device bay.new) }
    ensures faults { (Y.device bay.new).faults ≡ (Y.device bay.old).faults }
{
    'spans: while let Some(span) = held.take_any() {
        give_span(bay, span);
    }
}

/// Gives the spans of a list back.
pub fn give_spans<Y: Bay>(bay: &mut Y, mut spans: Vec<Y::S>)
    requires out { IsTrue Y.S.tells → IsFirstOut (Y.device bay.old) }
    requires on { IsTrue Y.S.tells → All (λ span.
        IsOnMount (Y.device bay.old) (Y.S.start span) (length (Y.S.contents span))
        × AreOf (unwrap_or (Y.device bay.old).mounted 0) (Y.S.contents span)) spans.items }
    ensures back { IsTrue Y.S.tells → (at : Pages) →
        All (λ span. ShowsSpan at (span_of Y.S.start Y.S.contents span)) spans.items →
        HaveReturned at (any_has (λ span. is_page_of (span_of Y.S.start Y.S.contents span))
        spans.items) (Y.device bay.old) (Y.device bay.new) }
    ensures faults { (Y.device bay.new).faults ≡ (Y.device bay.old).faults }
{
    'list: while let Some(span) = spans.pop() {
        give_span(bay, span);
    }
}

/// Gives the free pages of all spaces back.
pub fn give_spaces<Y: Bay>(bay: &mut Y, mut spaces: Vec<Space<Y::S>>)
    requires spaces { All (λ v. IsSpace v) spaces.items }
    requires out { IsTrue Y.S.tells → IsFirstOut (Y.device bay.old) }
    requires on { IsTrue Y.S.tells → All (λ v.
        IsOnMount (Y.device bay.old) v.first (length v.free)
        × ((Y.device bay.old).mounted ≡ Some v.page)) spaces.items }
    ensures back { IsTrue Y.S.tells → (at : Pages) → All (ShowsSpace at) spaces.items →
        HaveReturned at (any_has is_free_of spaces.items)
        (Y.device bay.old) (Y.device bay.new) }
    ensures faults { (Y.device bay.new).faults ≡ (Y.device bay.old).faults }
{
    'list: while let Some(space) = spaces.pop() {
        give_space(bay, space);
    }
}

/// Gives the pages of all objects back, each of which is at rest.
pub fn give_objects<Y: Bay, B: Stored<P = Y::P>, H: Annals>(
    bay: &mut Y,
    mut objects: Vec<Object<B, H>>,
)
    requires out { IsTrue Y.S.tells → IsFirstOut (Y.device bay.old) }
    requires rest { All (λ x. (B.form x.body).is_resting ≡ true) objects.items }
    requires on { IsTrue Y.S.tells →
        All (λ x. AreHeldOnMount (Y.device bay.old) (B.pages x.body)
        × AllSized Y.S.tells (unwrap_or (Y.device bay.old).mounted 0) (B.pages x.body))
        objects.items }
    ensures back { IsTrue Y.S.tells → (at : Pages) →
        All (λ x. ShowsHeld at (B.pages x.body)) objects.items →
        HaveReturned at (any_has (λ x. has (B.pages x.body)) objects.items)
        (Y.device bay.old) (Y.device bay.new) }
    ensures faults { (Y.device bay.new).faults ≡ (Y.device bay.old).faults }
{
    'list: while let Some(object) = objects.pop() {
        let Object { body, annals: _ } = object;
        give_held(bay, body.unload());
    }
}
