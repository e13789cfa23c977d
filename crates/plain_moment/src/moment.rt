//! The slots of all objects.

ghost use Rattle.std.specs.Prelude.{◌≡◌, IfOk, replicate};
ghost use Rattle.moment_model.specs.Moment.{absent_slot};

use crate::slot::ObjectSlot;
use plain_plan::{Fail, cons};
use std::alloc::Global;

/// So many absent objects.
#[tactic(auto, using(crate::proofs::Steps::replicate_more))]
pub fn fresh(alloc: Global, objects: u64) -> Result<Vec<ObjectSlot>, Fail>
    ensures { IfOk result (λ moment. moment.items ≡ replicate objects absent_slot) }
{
    if objects == 0 {
        return Ok(Vec::new(alloc));
    }
    cons(ObjectSlot::absent(), fresh(alloc, objects - 1)?)
}
