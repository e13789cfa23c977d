//! What a caller that is generic in the body knows of the bytes: a run of two edits with their
//! ends.

ghost use Rattle.std.specs.Prelude.{◌≡◌, ◌<◌, IsTrue, OnOk, true};
ghost use Rattle.eos_ops.specs.Edits.{edited};
ghost use Rattle.moment_model.specs.Edit.{edited_length};
ghost use Rattle.superdirectory.specs.Rest.{count};
ghost use Rattle.object_body.specs.Form.{NamesThreshold};
ghost use Rattle.object_body.specs.Places.{IsReady};

use crate::body::Body;
use crate::fails::EditFail;
use eos_ops::Edit;
use page_port::Port;
use std::alloc::Global;
use superdirectory::{Hints, Latches};

/// Makes an edit and settles it, then makes another one and undoes it: the object is as the first
/// one left it, in both versions.
///
/// # Errors
/// The first edit that was refused. What was made before it is settled, and the object is at rest.
pub fn settle_one_and_undo_one<B: Body, L: Latches<S = <B::P as Port>::S>>(
    alloc: Global,
    body: &mut B,
    port: &mut B::P,
    latches: &mut L,
    turn: &mut L::Turn,
    start: u16,
    first: &Edit,
    second: &Edit,
) -> Result<(), EditFail>
    requires page { (B.P.meter port.old).page ≡ (B.form body.old).numbers.page }
    requires ready { IsReady (B.form body.old).numbers (L.rest latches.old) }
    requires start { start < count (L.rest latches.old) }
    requires threshold { NamesThreshold first.now }
    requires other_threshold { NamesThreshold second.now }
    ensures committed { OnOk result (IsTrue B.P.S.tells →
        (B.told body.new).committed ≡ edited first.now (B.told body.old).working) }
    ensures working { OnOk result (IsTrue B.P.S.tells →
        (B.told body.new).working ≡ edited first.now (B.told body.old).working) }
    ensures length { OnOk result ((B.form body.new).committed
        ≡ edited_length first.now (B.form body.old).working) }
    ensures rests { OnOk result ((B.form body.new).is_resting ≡ true) }
{
    body.edit(alloc, port, latches, turn, start, first)?;
    body.settle(latches, turn);
    body.edit(alloc, port, latches, turn, start, second)?;
    body.undo(latches, turn);
    Ok(())
}
