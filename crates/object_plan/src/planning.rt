//! The plan of a change.

ghost use Rattle.std.specs.Prelude.{◌≡◌, ◌+◌, ◌*◌, ◌≤◌, length, IsTrue, IfOk, Err, None, nat_eq, if◌then◌else◌};
ghost use Rattle.fault_count.specs.Counts.{HasCause};
ghost use Rattle.span_store.specs.Held.{AllSized, bytes_on};
ghost use Rattle.tree_read.specs.Search.{KeepsNodes, Uses};
ghost use Rattle.object_plan.specs.Planned.{CanMake, IsPlanOf};
ghost use Rattle.object_plan.specs.WorkingTree.{CanChange, IsToldWorking};

use crate::plan_on::plan_window;
use crate::planned::Planned;
use crate::usable::is_usable;
use crate::window::read_window;
use crate::working_tree::WorkingTree;
use layout_model::{Change, Extent};
use page_cache::Cache;
use page_port::{Geometry, Port};
use span_store::Holdings;
use std::alloc::Global;
use tree_read::TreeFail;

/// Plans a change of an object: reads the entries around its place, tests them, and says which of
/// them are replaced, by which parts, and what is asked for these (Biliris 1992).
///
/// It reads the nodes of one search, and of one more for each side of the change that lies inside a
/// segment. Nothing is written, and nothing changes but what the cache keeps.
///
/// # Errors
/// `Fault` where the device failed, or gave nodes or entries that were never written: the port's
/// count of faults rose. `Memory` where there was no memory: the device didn't fail.
pub fn plan_change<P: Port>(
    alloc: Global,
    geometry: &Geometry,
    working: &WorkingTree,
    change: Change,
    held: &Holdings<P::S>,
    cache: &mut Cache,
    port: &mut P,
) -> Result<Planned, TreeFail>
    requires page { (P.meter port.old).page ≡ geometry.now.page }
    requires change { CanChange geometry.now working.now change }
    requires sized { AllSized P.S.tells geometry.now.page held.now }
    requires nodes { KeepsNodes P.S.tells geometry.now.page (bytes_on held.now) cache.old }
    requires told { IsTrue P.S.tells → IsToldWorking geometry.now held.now working.now }

    // The change as it was given, a plan that can be made over every device, and where it tells the
    // plan of the definition.
    ensures change { IfOk result (λ p. p.change ≡ change) }
    ensures ready { IfOk result (λ p. CanMake geometry.now held.now working.now p) }
    ensures told { IfOk result (λ p. IsTrue P.S.tells
        → IsPlanOf geometry.now (bytes_on held.now) working.now p) }

    // What is read.
    ensures nodes { KeepsNodes P.S.tells geometry.now.page (bytes_on held.now) cache.new }
    ensures uses { Uses (P.meter port.old) (P.meter port.new) }
    ensures few { IfOk result (λ p. IsTrue P.S.tells → (P.meter port.new).read
        ≤ (P.meter port.old).read + working.now.root.height * (length p.replaced.items + 2)) }
    ensures cause { HasCause (P.meter port.old).faults (P.meter port.new).faults
        (result ≡ Err TreeFail.Fault) }
{
    let _page = geometry.page();
    let root = &working.root;
    let window = read_window(alloc, root, change.at, change.removed, held, cache, port)?;
    if !is_usable(geometry, held, root.length, &change, window.as_slice()) {
        port.blame();
        return Err(TreeFail::Fault);
    }
    let spare = spare_of(working);
    let planned = plan_window(
        alloc,
        geometry,
        working.threshold,
        spare,
        change,
        window.as_slice(),
    )?;
    Ok(planned)
}

/// The spare pages behind the last segment: an object of no byte has none.
fn spare_of(working: &WorkingTree) -> Option<Extent>
    ensures { result ≡ (if nat_eq working.now.root.length 0 then None else working.now.spare) }
{
    if working.root.length == 0 {
        None
    } else {
        working.spare
    }
}
