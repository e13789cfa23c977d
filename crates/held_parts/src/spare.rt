//! What the run of the last made part has beyond its need.

ghost use Rattle.std.specs.Prelude.{◌≡◌, ◌+◌, ◌<◌, ◌^◌, length, IfSome, map};
ghost use Rattle.tree_model.specs.Tree.{page_count};
ghost use Rattle.layout_model.specs.Layout.{left_over, spare_behind};
ghost use Rattle.layout_model.specs.Plan.{made_part_bytes, past};
ghost use Rattle.edit_parts.specs.Parts.{layout_part};
ghost use Rattle.part_store.specs.Asking.{rows};
ghost use Rattle.held_parts.specs.Entries.{AreLowRuns, HaveRuns};

use edit_parts::Part;
use edit_plan::page_count;
use layout_model::Extent;

/// What the last made part's run has beyond its need.
pub fn spare_behind(page: u32, parts: &[Part], counts: &[usize], runs: &[Extent]) -> Option<Extent>
    requires some { 0 < page }
    requires runs { HaveRuns parts.now counts.now runs.now }
    requires whole { length counts.now
        ≡ length (made_part_bytes (map layout_part parts.now)) }
    requires low { AreLowRuns runs.now }
    ensures { result ≡ spare_behind page (made_part_bytes (map layout_part parts.now))
        (rows counts.now runs.now) }
{
    let mut counts = counts;
    let mut runs = runs;
    let mut spare = None;
    for part in parts {
        match part {
            Part::Keep(_) => {}
            Part::Make(pieces) => {
                let (first, rest) = counts.split_at(1);
                let (own, behind) = runs.split_at(first[0]);
                spare = left_over(page, pieces.bytes(), own);
                counts = rest;
                runs = behind;
            }
        }
    }
    spare
}

/// What the only run of a part of so many bytes has beyond its need.
fn left_over(page: u32, bytes: u64, runs: &[Extent]) -> Option<Extent>
    requires some { 0 < page }
    requires few { bytes < 2 ^ 63 }
    requires low { AreLowRuns runs.now }
    ensures { result ≡ left_over (page_count page bytes) runs.now }
{
    let (run, more) = runs.split_first()?;
    if !more.is_empty() {
        return None;
    }
    past(page_count(page, bytes), Some(*run))
}

/// A run without its first pages.
pub fn past(pages: u64, run: Option<Extent>) -> Option<Extent>
    requires low { IfSome run (λ run. run.page + run.pages < 2 ^ 32) }
    ensures { result ≡ past pages run }
{
    let run = run?;
    if run.pages as u64 <= pages {
        return None;
    }
    let pages = pages as u32;
    Some(Extent {
        page: run.page + pages,
        pages: run.pages - pages,
    })
}
