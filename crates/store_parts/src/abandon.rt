//! A store given up: all its pages go back as they are.

ghost use Rattle.std.specs.Prelude.{◌<◌, ◌≤◌, IsTrue};
ghost use Rattle.fault_count.specs.Counts.{HasCause, counted};
ghost use Rattle.store_parts.specs.Parts.{AreParts, parts_view};
ghost use Rattle.store_parts.specs.Pages.{HasAll};
ghost use Rattle.store_parts.specs.Opening.{AreBack};

use crate::fixed::Fixed;
use crate::parts::StoreParts;
use crate::returning::{give_objects, give_spaces, give_spans};
use eos_ops::Annals;
use object_body::Stored;
use page_port::Bay;

/// Gives all pages of a store and its port back, and writes nothing: the pages come back with what
/// they held. The device counts the port's faults. It takes no memory.
pub fn abandon_store<Y: Bay, B: Stored<P = Y::P>, H: Annals>(
    bay: &mut Y,
    parts: StoreParts<Y::P, B, H>,
)
    requires parts { AreParts Y.S.tells (parts_view Y.S.start Y.S.contents
        B.form B.told B.entry B.pages parts.geometry parts.fixed parts.spaces.items
        parts.objects.items (Y.P.meter parts.port).page) }
    requires all { IsTrue Y.S.tells → HasAll (Y.device bay.old) (parts_view Y.S.start Y.S.contents
        B.form B.told B.entry B.pages parts.geometry parts.fixed parts.spaces.items
        parts.objects.items (Y.P.meter parts.port).page) }
    ensures back { IsTrue Y.S.tells → AreBack (parts_view Y.S.start Y.S.contents
        B.form B.told B.entry B.pages parts.geometry parts.fixed parts.spaces.items
        parts.objects.items (Y.P.meter parts.port).page) (Y.device bay.old) (Y.device bay.new) }
    ensures faults { counted (Y.device bay.old).faults (Y.P.meter parts.port).faults
        ≤ (Y.device bay.new).faults }
    ensures cause { HasCause (Y.device bay.old).faults (Y.device bay.new).faults
        (0 < (Y.P.meter parts.port).faults) }
{
    let StoreParts {
        geometry: _,
        fixed,
        spaces,
        objects,
        port,
    } = parts;
    let Fixed {
        front,
        directories,
        room: _,
    } = fixed;
    give_objects(bay, objects);
    give_spaces(bay, spaces);
    give_spans(bay, directories);
    bay.restore(front);
    bay.absorb(port);
}
