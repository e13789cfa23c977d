//! Closing a store.

ghost use Rattle.std.specs.Prelude.{◌≡◌, ◌+◌, ◌<◌, ◌≤◌, ◌⊎◌, List, IsTrue, IsErr, OnOk, OnErr};
ghost use Rattle.fault_count.specs.Counts.{HasCause, counted};
ghost use Rattle.eos_ops.specs.declared.plain.Plain.{Plain};
ghost use Rattle.moment_model.specs.Moment.{Moment};
ghost use Rattle.page_port.specs.Device.{is_home};
ghost use Rattle.store_parts.specs.Parts.{AreParts, StandFor, parts_view};
ghost use Rattle.store_parts.specs.Pages.{HasAll};
ghost use Rattle.store_parts.specs.Opening.{IsClosedStore};
ghost use Rattle.image_store.specs.Closing.{IsUnclosed};

use crate::fixed::write_fixed;
use eos_ops::Annals;
use object_body::Stored;
use page_port::{Bay, DeviceFault};
use store_parts::{StoreParts, abandon_store};

/// Closes a store at rest: writes its directories, and then its superblock with the catalog, and
/// gives all pages and the port back. The image is of version 2. It takes no memory.
///
/// # Errors
/// The device failed: its count of faults rose by one more than the port's faults before. All pages
/// and the port are back. What was to be written then may hold anything, and what comes behind it
/// holds what it held.
pub fn close_store<Y: Bay, B: Stored<P = Y::P>, H: Annals>(
    bay: &mut Y,
    parts: StoreParts<Y::P, B, H>,
) -> Result<(), DeviceFault>
    requires parts { AreParts Y.S.tells (parts_view Y.S.start Y.S.contents
        B.form B.told B.entry B.pages parts.geometry parts.fixed parts.spaces.items
        parts.objects.items (Y.P.meter parts.port).page) }
    requires all { IsTrue Y.S.tells → HasAll (Y.device bay.old) (parts_view Y.S.start Y.S.contents
        B.form B.told B.entry B.pages parts.geometry parts.fixed parts.spaces.items
        parts.objects.items (Y.P.meter parts.port).page) }
    ensures home { IsTrue Y.S.tells → IsTrue (is_home (Y.device bay.new)) }
    ensures closed { OnOk result (IsTrue Y.S.tells → (database : List Plain) (moment : Moment) →
        StandFor database moment (parts_view Y.S.start Y.S.contents
        B.form B.told B.entry B.pages parts.geometry parts.fixed parts.spaces.items
        parts.objects.items (Y.P.meter parts.port).page) →
        IsClosedStore parts.geometry database moment (Y.device bay.old) (Y.device bay.new)) }
    ensures failed { OnErr result (IsTrue Y.S.tells → IsUnclosed (parts_view Y.S.start Y.S.contents
        B.form B.told B.entry B.pages parts.geometry parts.fixed parts.spaces.items
        parts.objects.items (Y.P.meter parts.port).page) (Y.device bay.new)) }
    ensures faults { counted (Y.device bay.old).faults (Y.P.meter parts.port).faults
        ≤ (Y.device bay.new).faults }
    ensures raised { OnErr result (counted (Y.device bay.old).faults
        ((Y.P.meter parts.port).faults + 1) ≤ (Y.device bay.new).faults) }
    ensures cause { HasCause (Y.device bay.old).faults (Y.device bay.new).faults
        ((0 < (Y.P.meter parts.port).faults) ⊎ IsErr result) }
{
    let mut parts = parts;
    let written = write_fixed(
        &mut parts.port,
        &mut parts.fixed,
        &parts.geometry,
        &parts.spaces,
        &parts.objects,
    );
    abandon_store(bay, parts);
    written
}
