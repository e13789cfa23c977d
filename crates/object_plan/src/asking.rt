//! What is asked for the parts that are made, and how an append meets the spare pages.

ghost use Rattle.std.specs.Prelude.{◌≡◌, ◌+◌, ◌-◌, ◌*◌, ◌<◌, ◌≤◌, ◌^◌, ◌↔◌, IsTrue, length, map, IfOk, true};
ghost use Rattle.std.specs.List.{AllByRecursion};
ghost use Rattle.tree_model.specs.Range.{pairs_of};
ghost use Rattle.geometry_model.specs.Numbers.{space_pages};
ghost use Rattle.tree_model.specs.Tree.{IsSegment, page_count};
ghost use Rattle.layout_model.specs.declared.fit.Fit.TheVariants.{Extend};
ghost use Rattle.layout_model.specs.Layout.{requests};
ghost use Rattle.layout_model.specs.Plan.{extent_pages, fit_appended, fit_made, last_entry};
ghost use Rattle.layout_model.specs.Plan.{made_part_bytes};
ghost use Rattle.edit_parts.specs.Parts.{layout_part};
ghost use Rattle.object_plan.specs.Asked.{AreCounted, just, only_one, wanted_by, with_wish};

use append_grow::{Tail, ask, fit};
use edit_parts::Part;
use edit_plan::page_count;
use layout_model::{Change, Extent, Fit, Request};
use page_port::Geometry;
use std::alloc::{AllocError, Global};
use tree_model::Placed;

/// Whether the new bytes of an append grow the last segment, on the spare pages behind it.
pub fn extends(spare: Option<Extent>, page: u32, change: &Change, window: &[Placed]) -> bool
    requires some { 0 < page }
    requires added { change.now.added < 2 ^ 63 }
    requires behind { change.now.appends ≡ true → 0 < extent_pages spare → 0 < length window.now }
    requires brings { change.now.appends ≡ true → 0 < change.now.added }
    ensures { IsTrue result
        ↔ (fit_appended page (pairs_of window.now) (extent_pages spare) change.now ≡ Extend) }
{
    let Some(run) = spare else {
        return false;
    };
    let count = window.len();
    if count == 0 {
        return false;
    }
    let needed = page_count(page, change.added);
    if !change.appends || needed > run.pages as u64 {
        return false;
    }
    let tail = Tail {
        first: run.page,
        spare: run.pages,
    };
    match fit(&tail, &window[count - 1].pair, page, needed as u32) {
        Fit::Extend => true,
        _ => false,
    }
}

/// How the new bytes meet so many spare pages where they don't grow the last segment: an append
/// whose made parts are merged into one follows the tail where it fits there, and else they are
/// asked for.
pub fn fit_parts(appends: bool, spare: u32, page: u32, parts: &[Part]) -> Fit
    requires some { 0 < page }
    requires few { AreCounted (made_part_bytes (map layout_part parts.now)) }
    ensures { result ≡ fit_made page appends spare (made_part_bytes (map layout_part parts.now)) }
{
    let Some(bytes) = only_made(parts) else {
        return Fit::Fresh;
    };
    if appends && page_count(page, bytes) <= spare as u64 {
        Fit::Follow
    } else {
        Fit::Fresh
    }
}

/// The bytes of the made part, where there is just one.
fn only_made(parts: &[Part]) -> Option<u64>
    requires few { AreCounted (made_part_bytes (map layout_part parts.now)) }
    ensures { result ≡ only_one (made_part_bytes (map layout_part parts.now)) }
{
    let mut found = None;
    for part in parts {
        if let Part::Make(pieces) = part {
            if found.is_some() {
                return None;
            }
            found = Some(pieces.bytes());
        }
    }
    found
}

/// What is asked for parts by how they meet the spare pages: for the made ones where they are fresh,
/// and else nothing.
pub fn wanted_for(
    alloc: Global,
    geometry: &Geometry,
    appends: bool,
    fit: Fit,
    window: &[Placed],
    parts: &[Part],
) -> Result<Vec<Request>, AllocError>
    requires few { AreCounted (made_part_bytes (map layout_part parts.now)) }
    requires fit { AllByRecursion (λ bytes. page_count geometry.now.page bytes
        ≤ space_pages geometry.now) (made_part_bytes (map layout_part parts.now)) }
    requires segments { AllByRecursion (IsSegment geometry.now) (pairs_of window.now) }
    ensures { IfOk result (λ list. list.items ≡ wanted_by fit geometry.now (pairs_of window.now)
        appends (map layout_part parts.now)) }
{
    let page = geometry.page();
    match fit {
        Fit::Fresh => {
            let last = last_pages(page, window);
            let limit = geometry.space_pages();
            requests_for(alloc, appends, last, limit, page, parts)
        }
        _ => Ok(Vec::new(alloc)),
    }
}

/// The pages of the last segment, none where there is none.
fn last_pages(page: u32, window: &[Placed]) -> u32
    requires some { 0 < page }
    requires few { AllByRecursion (λ p. p.bytes < 2 ^ 32) (pairs_of window.now) }
    ensures { result ≡ page_count page (last_entry (pairs_of window.now)).bytes }
{
    let count = window.len();
    if count == 0 {
        return 0;
    }
    page_count(page, window[count - 1].pair.bytes) as u32
}

/// What is asked for made parts: the pages of each, and for the last one of an append as many as it
/// wishes behind a segment of `last` pages, up to `limit`.
fn requests_for(
    alloc: Global,
    appends: bool,
    last: u32,
    limit: u32,
    page: u32,
    parts: &[Part],
) -> Result<Vec<Request>, AllocError>
    requires some { 0 < page }
    requires few { AreCounted (made_part_bytes (map layout_part parts.now)) }
    requires fit { AllByRecursion (λ bytes. page_count page bytes ≤ limit)
        (made_part_bytes (map layout_part parts.now)) }
    requires last { last ≤ limit }
    requires limit { limit ≤ 16384 }
    ensures { IfOk result (λ list. list.items ≡ requests appends last limit
        (map (page_count page) (made_part_bytes (map layout_part parts.now)))) }
{
    let mut requests = needs(alloc, limit, page, parts)?;
    if appends {
        wish(&mut requests, last, limit);
    }
    Ok(requests)
}

/// The pages of each made part, as what is needed and wished for.
fn needs(alloc: Global, limit: u32, page: u32, parts: &[Part]) -> Result<Vec<Request>, AllocError>
    requires some { 0 < page }
    requires few { AreCounted (made_part_bytes (map layout_part parts.now)) }
    requires fit { AllByRecursion (λ bytes. page_count page bytes ≤ limit)
        (made_part_bytes (map layout_part parts.now)) }
    ensures { IfOk result (λ list. list.items ≡ map just
        (map (page_count page) (made_part_bytes (map layout_part parts.now)))) }
{
    let mut list = Vec::with_capacity(alloc, parts.len())?;
    for part in parts {
        if let Part::Make(pieces) = part {
            let need = page_count(page, pieces.bytes()) as u32;
            list.push(Request { want: need, need })?;
        }
    }
    Ok(list)
}

/// The last of these requests wishes for more pages, as an append does.
fn wish(requests: &mut Vec<Request>, last: u32, limit: u32)
    requires last { last ≤ limit }
    requires limit { limit ≤ 16384 }
    ensures { requests.new.items ≡ with_wish last limit requests.old.items }
{
    let count = requests.len();
    if count == 0 {
        return;
    }
    let need = requests[count - 1].need;
    requests[count - 1] = Request {
        want: ask(need, last, limit),
        need,
    };
}
