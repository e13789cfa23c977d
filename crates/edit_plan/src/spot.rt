//! Where a place lies among segments.

ghost use Rattle.std.specs.Prelude.{◌≤◌, length};
ghost use Rattle.tree_model.specs.Range.{pairs_of};
ghost use Rattle.edit_plan.specs.Spots.{IsSpot};

use tree_model::Placed;

/// A place among segments: behind the first `ended` of them, and `inside` bytes into the next one.
#[derive(Clone, Copy)]
pub struct Spot {
    pub ended: usize,
    pub inside: u64,
}

/// The spot of a place, counted from the start of the first segment.
pub fn spot_of(window: &[Placed], place: u64) -> Spot
    ensures spot { IsSpot place (pairs_of window.now) result.ended result.inside }
    ensures within { result.ended ≤ length window.now }
{
    let mut ended = 0;
    let mut inside = place;
    for segment in window {
        let bytes = segment.pair.bytes;
        if inside < bytes {
            return Spot { ended, inside };
        }
        inside -= bytes;
        ended += 1;
    }
    Spot { ended, inside }
}
