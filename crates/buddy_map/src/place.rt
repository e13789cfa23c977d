//! What the mask of the whole space answers: the place of a grant and the largest order.

ghost use Rattle.std.specs.Prelude.{◌≡◌, ◌+◌, ◌*◌, ◌<◌, ◌≤◌, ◌^◌, List, Bool, length, slice_index};
ghost use Rattle.block_model.specs.Block.{IsPlace, IsLargest};
ghost use Rattle.buddy_map.specs.Tree.{AreMasks};

use crate::masks::leftmost;
use crate::orders::{greatest, least_from};
use block_model::order_of;

/// The first page of the lowest maximal block among those of the least order that holds `n` pages.
pub fn place_of(masks: &[u16], whole: u8, n: u32) -> Option<u32>
    requires small { whole ≤ 14 }
    requires size { length masks.now ≡ 2 * 2 ^ whole }
    requires fits { n ≤ 2 ^ whole }
    requires orders { slice_index masks.now 1 < 2 ^ (whole + 1) }
    ensures { (free : List Bool) → AreMasks free whole masks.now → IsPlace free n result }
{
    let Some(order) = least_from(masks[1], order_of(n)) else {
        return None;
    };
    Some(leftmost(masks, whole, order) << order)
}

/// The greatest order of a block, and none where no page is free: one look.
pub fn largest_of(masks: &[u16], whole: u8) -> Option<u8>
    requires { length masks.now ≡ 2 * 2 ^ whole }
    ensures { (free : List Bool) → AreMasks free whole masks.now → IsLargest free result }
{
    greatest(masks[1])
}
