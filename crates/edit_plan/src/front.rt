//! What is kept before a place: the segment that ends at it or before it, and what is left of the
//! one that it lies inside.

ghost use Rattle.std.specs.Prelude.{◌≡◌, ℕ, ◌-◌, ◌≤◌, ◌++◌, length, map, take, drop, OnOk};
ghost use Rattle.std.specs.Prelude.{option_to_list};
ghost use Rattle.tree_model.specs.Range.{pairs_of};
ghost use Rattle.layout_model.specs.Parts.{left_of, one_before};
ghost use Rattle.content_laws.specs.Spelling.{HaveBytes};
ghost use Rattle.edit_parts.specs.declared.part.Part.TheVariants.{Keep};
ghost use Rattle.edit_plan.specs.Spots.{IsSpot};

use crate::spot::{Spot, spot_of};
use edit_parts::{Part, Parts};
use std::alloc::AllocError;
use tree_model::{Pair, Placed};

/// Puts what is kept before a place behind the parts.
pub fn keep_front(parts: &mut Parts, window: &[Placed], place: u64) -> Result<(), AllocError>
    requires { HaveBytes (pairs_of window.now) }
    ensures { OnOk result (parts.new ≡ parts.old ++ map Keep
        (one_before place (pairs_of window.now) ++ left_of place (pairs_of window.now))) }
{
    let spot = spot_of(window, place);
    keep(parts, before(window, spot))?;
    keep(parts, left(window, spot))
}

/// Puts a segment that stays behind the parts, where there is one.
pub fn keep(parts: &mut Parts, pair: Option<Pair>) -> Result<(), AllocError>
    ensures { OnOk result (parts.new ≡ parts.old ++ map Keep (option_to_list pair)) }
{
    match pair {
        Some(pair) => parts.push(Part::Keep(pair)),
        None => Ok(()),
    }
}

/// The last of the segments that end at a place or before it.
fn before(window: &[Placed], spot: Spot) -> Option<Pair>
    requires { spot.ended ≤ length window.now }
    ensures { option_to_list result ≡ drop (spot.ended - 1) (take spot.ended (pairs_of window.now)) }
{
    if spot.ended == 0 {
        None
    } else {
        Some(window[spot.ended - 1].pair)
    }
}

/// What is left, before a place, of the segment that it lies inside.
fn left(window: &[Placed], spot: Spot) -> Option<Pair>
    requires { HaveBytes (pairs_of window.now) }
    ensures { (place : ℕ) → IsSpot place (pairs_of window.now) spot.ended spot.inside
        → option_to_list result ≡ left_of place (pairs_of window.now) }
{
    if spot.inside == 0 || spot.ended >= window.len() {
        return None;
    }
    Some(Pair {
        bytes: spot.inside,
        page: window[spot.ended].pair.page,
    })
}
