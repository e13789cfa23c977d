//! The spare pages behind the last segment of a changed object.

ghost use Rattle.std.specs.Prelude.{◌≡◌, ◌<◌, ◌^◌};
ghost use Rattle.std.specs.List.{AllByRecursion};
ghost use Rattle.tree_model.specs.Tree.{page_count};
ghost use Rattle.layout_model.specs.Layout.{spare_after, spare_behind};
ghost use Rattle.layout_model.specs.Plan.{last_entry, past};
ghost use Rattle.part_store.specs.Asking.{rows};
ghost use Rattle.object_change.specs.Changed.{parts_plan};
ghost use Rattle.object_change.specs.Steps.{CanSpare};

use edit_plan::page_count;
use held_parts::{PartRuns, past, spare_behind};
use layout_model::{Extent, Fit};
use node_codec::Pair;
use object_plan::Planned;
use page_port::Geometry;

/// The spare pages behind the last segment after a change that was made: what is left of the spare
/// that it used, or what an append got beyond its need.
pub fn spare_of(
    geometry: &Geometry,
    planned: &Planned,
    spare: Option<Extent>,
    entries: &[Pair],
    granted: &PartRuns,
) -> Option<Extent>
    requires { CanSpare geometry.now spare planned.now entries.now granted.now.counts.items
        granted.now.runs.items }
    ensures { result ≡ spare_after geometry.now spare planned.now.change (parts_plan planned.now)
        (rows granted.now.counts.items granted.now.runs.items) }
{
    let page = geometry.page();
    match planned.fit {
        Fit::Extend => past(page_count(page, planned.change.added), spare),
        Fit::Follow => past(last_pages(page, entries), spare),
        Fit::Fresh => {
            if !planned.change.appends {
                return None;
            }
            spare_behind(
                page,
                planned.parts.as_slice(),
                granted.counts.as_slice(),
                granted.runs.as_slice(),
            )
        }
    }
}

/// The pages of the last entry, none where there is none.
fn last_pages(page: u32, entries: &[Pair]) -> u64
    requires some { 0 < page }
    requires few { AllByRecursion (λ p. p.bytes < 2 ^ 63) entries.now }
    ensures { result ≡ page_count page (last_entry entries.now).bytes }
{
    match entries.last() {
        Some(pair) => page_count(page, pair.bytes),
        None => 0,
    }
}
