//! Where an append puts its bytes.

ghost use Rattle.std.specs.Prelude.{◌≡◌, ℕ, ◌%◌, ◌<◌, ◌≤◌, Bool, false, nat_eq};
ghost use Rattle.layout_model.specs.declared.fit.Fit.TheVariants.{Extend};
ghost use Rattle.layout_model.specs.Plan.{fit_of};

use crate::tail::Tail;
use layout_model::Fit;
use tree_model::Pair;

/// Where an append with a need of pages puts its bytes: on the spare pages as more bytes of the
/// `last` segment where they are enough and its last page is full, else on them as a segment of its
/// own where they are enough, else on pages that are asked for.
///
/// `page` is the bytes of a page. It is asked first with the pages of the new bytes alone, where
/// only `Extend` counts, and then with those of the one part that merging made.
pub fn fit(tail: &Tail, last: &Pair, page: u32, needed: u32) -> Fit
    requires { 0 < page }
    ensures { result ≡ fit_of needed tail.now.spare (nat_eq (last.now.bytes % page) 0) }
{
    if needed > tail.spare {
        Fit::Fresh
    } else if last.bytes % page as u64 == 0 {
        Fit::Extend
    } else {
        Fit::Follow
    }
}

/// Where the new bytes alone don't extend the last segment, no part that has as many pages or more
/// does: the second question is answered by the need alone.
pub fn a_second_fit_never_extends()
    ensures { (alone needed spare : ℕ) (full : Bool) → alone ≤ needed
        → (fit_of alone spare full ≡ Extend → ⊥)
        → fit_of needed spare full ≡ fit_of needed spare false }
{}
