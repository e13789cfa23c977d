//! The layout of a change: what it asks for, and the tree and the spare pages that it leaves.

ghost use Rattle.std.specs.Prelude.{◌≡◌, IfOk, map};
ghost use Rattle.geometry_model.specs.Numbers.{fan_out};
ghost use Rattle.tree_model.specs.Tree.{page_count};
ghost use Rattle.layout_model.specs.Plan.{extent_pages, extent, past};
ghost use Rattle.layout_model.specs.Layout.{plan_of, requests, wanted, segments_on, laid_parts};
ghost use Rattle.layout_model.specs.Layout.{as_run, laid_entries, left_over, spare_behind};
ghost use Rattle.layout_model.specs.Layout.{spare_after, laid_levels, granted, laid};
ghost use Rattle.plain_plan.specs.Store.{numbers_of};
ghost use Rattle.plain_layout.specs.Answers.{answered};

use crate::answer::Answer;
use crate::granting::{all_runs, node_pages};
use crate::grants::Grants;
use crate::growing::{count_made, nodes_of_levels, spliced};
use crate::laid_tree::Laid;
use crate::new_level::NewLevel;
use crate::runs::Runs;
use crate::spaces::Spaces;
use crate::tree::Tree;
use layout_model::{Change, Extent, Fit, Part, Request};
use plain_plan::{
    Fail, Plan, Store, add, as_page, ask_of, cons, join, last_entry, made_part_bytes, mul, one,
    page_count, planned, space_pages,
};
use std::alloc::Global;
use tree_model::Pair;

/// The pairs that a node page has room for.
pub fn fan_out(store: &Store) -> u64
    ensures { result ≡ fan_out (numbers_of store.now) }
{
    store.page.saturating_sub(8) / 12
}

/// The pages of a run, 0 where there is none.
pub fn extent_pages(run: Option<Extent>) -> u64
    ensures { result ≡ extent_pages run }
{
    match run {
        None => 0,
        Some(run) => run.pages as u64,
    }
}

/// A run of pages, and none where it has no page.
fn extent(page: u64, pages: u64) -> Result<Option<Extent>, Fail>
    ensures { IfOk result (λ run. run ≡ extent page pages) }
{
    if pages == 0 {
        return Ok(None);
    }
    Ok(Some(Extent {
        page: as_page(page)?,
        pages: as_page(pages)?,
    }))
}

/// The run without its first pages.
fn past(pages: u64, run: Option<Extent>) -> Result<Option<Extent>, Fail>
    ensures { IfOk result (λ left. left ≡ past pages run) }
{
    match run {
        None => Ok(None),
        Some(run) => extent(
            add(run.page as u64, pages)?,
            (run.pages as u64).saturating_sub(pages),
        ),
    }
}

/// The plan of a change of a tree, which has this spare behind its last segment.
pub fn plan_of(
    alloc: Global,
    store: &Store,
    tree: &Tree,
    spare: Option<Extent>,
    change: Change,
) -> Result<Plan, Fail>
    ensures { IfOk result (λ plan. plan ≡ plan_of (numbers_of store.now) tree.now spare change) }
{
    let entries = tree.entries(alloc)?;
    planned(
        alloc,
        store,
        tree.threshold(),
        &entries,
        extent_pages(spare),
        change,
    )
}

fn request(want: u64, need: u64) -> Result<Request, Fail>
    ensures { IfOk result (λ request. request ≡ record { want = want; need = need }) }
{
    Ok(Request {
        want: as_page(want)?,
        need: as_page(need)?,
    })
}

/// Requests for parts of these numbers of pages.
fn requests(
    alloc: Global,
    appends: bool,
    last: u64,
    limit: u64,
    needs: &[u64],
) -> Result<Vec<Request>, Fail>
    ensures { IfOk result (λ list. list.items ≡ requests appends last limit needs.now) }
{
    match needs {
        [] => Ok(Vec::new(alloc)),
        [need] => {
            let wish = ask_of(*need, last, limit)?;
            one(alloc, request(if appends { wish } else { *need }, *need)?)
        }
        [need, others @ ..] => cons(
            request(*need, *need)?,
            requests(alloc, appends, last, limit, others)?,
        ),
    }
}

/// The pages of so many bytes each.
fn pages_of(alloc: Global, size: u64, bytes: &[u64]) -> Result<Vec<u64>, Fail>
    ensures { IfOk result (λ pages. pages.items ≡ map (page_count size) bytes.now) }
{
    match bytes {
        [] => Ok(Vec::new(alloc)),
        [part, others @ ..] => cons(page_count(size, *part)?, pages_of(alloc, size, others)?),
    }
}

/// What a plan asks for.
fn wanted(
    alloc: Global,
    store: &Store,
    tree: &Tree,
    change: Change,
    plan: &Plan,
) -> Result<Vec<Request>, Fail>
    ensures { IfOk result (λ list. list.items
        ≡ wanted (numbers_of store.now) tree.now change plan.now) }
{
    match plan.fit() {
        Fit::Fresh => {
            let entries = tree.entries(alloc)?;
            let last = page_count(store.page, last_entry(&entries).bytes)?;
            let made = made_part_bytes(alloc, plan.parts())?;
            let needs = pages_of(alloc, store.page, &made)?;
            requests(alloc, change.appends, last, space_pages(store)?, &needs)
        }
        _ => Ok(Vec::new(alloc)),
    }
}

/// Segments of so many bytes on these runs.
fn segments_on(alloc: Global, size: u64, bytes: u64, runs: &[Extent]) -> Result<Vec<Pair>, Fail>
    ensures { IfOk result (λ pairs. pairs.items ≡ segments_on size bytes runs.now) }
{
    match runs {
        [] => Ok(Vec::new(alloc)),
        [run, others @ ..] => {
            let room = mul(run.pages as u64, size)?;
            let pair = Pair {
                bytes: bytes.min(room),
                page: run.page,
            };
            cons(
                pair,
                segments_on(alloc, size, bytes.saturating_sub(room), others)?,
            )
        }
    }
}

/// The entries of the parts: a kept one as it is, a made one on its runs.
fn laid_parts(alloc: Global, size: u64, parts: &[Part], runs: &[Runs]) -> Result<Vec<Pair>, Fail>
    ensures { IfOk result (λ pairs. pairs.items ≡ laid_parts size parts.now runs.now) }
{
    match parts {
        [] => Ok(Vec::new(alloc)),
        [Part::Keep(pair), others @ ..] => cons(*pair, laid_parts(alloc, size, others, runs)?),
        [Part::Make(bytes), others @ ..] => match runs {
            [] => laid_parts(alloc, size, others, runs),
            [own, more @ ..] => join(
                segments_on(alloc, size, *bytes, own.as_slice())?,
                &laid_parts(alloc, size, others, more)?,
            ),
        },
    }
}

/// The spare as the one run of a part.
fn as_run(alloc: Global, spare: Option<Extent>) -> Result<Vec<Runs>, Fail>
    ensures { IfOk result (λ runs. runs.items ≡ as_run spare) }
{
    match spare {
        None => Ok(Vec::new(alloc)),
        Some(run) => one(alloc, Runs::from_vec(one(alloc, run)?)),
    }
}

/// The entries that a plan brings.
fn laid_entries(
    alloc: Global,
    store: &Store,
    spare: Option<Extent>,
    plan: &Plan,
    runs: &[Runs],
) -> Result<Vec<Pair>, Fail>
    ensures { IfOk result (λ pairs. pairs.items
        ≡ laid_entries (numbers_of store.now) spare plan.now runs.now) }
{
    match plan.fit() {
        Fit::Follow => laid_parts(alloc, store.page, plan.parts(), &as_run(alloc, spare)?),
        _ => laid_parts(alloc, store.page, plan.parts(), runs),
    }
}

/// The pages of the only run beyond what was needed.
fn left_over(need: u64, runs: &[Extent]) -> Result<Option<Extent>, Fail>
    ensures { IfOk result (λ left. left ≡ left_over need runs.now) }
{
    match runs {
        [] => Ok(None),
        [run] => past(need, Some(*run)),
        [_, _, ..] => Ok(None),
    }
}

/// The pages of the last part's run beyond what that part needed.
#[tactic(auto, using(crate::proofs::Steps::spare_none))]
fn spare_behind(size: u64, bytes: &[u64], runs: &[Runs]) -> Result<Option<Extent>, Fail>
    ensures { IfOk result (λ left. left ≡ spare_behind size bytes.now runs.now) }
{
    match bytes {
        [] => Ok(None),
        [part] => match runs {
            [] => Ok(None),
            [own] => left_over(page_count(size, *part)?, own.as_slice()),
            [_, _, ..] => Ok(None),
        },
        [_, others @ ..] => match runs {
            [] => Ok(None),
            [_, more @ ..] => spare_behind(size, others, more),
        },
    }
}

/// The spare after a change.
fn spare_after(
    alloc: Global,
    store: &Store,
    spare: Option<Extent>,
    change: Change,
    plan: &Plan,
    runs: &[Runs],
) -> Result<Option<Extent>, Fail>
    ensures { IfOk result (λ left. left
        ≡ spare_after (numbers_of store.now) spare change plan.now runs.now) }
{
    let size = store.page;
    match plan.fit() {
        Fit::Extend => past(page_count(size, change.added)?, spare),
        Fit::Follow => {
            let laid = laid_parts(alloc, size, plan.parts(), &as_run(alloc, spare)?)?;
            past(page_count(size, last_entry(&laid).bytes)?, spare)
        }
        Fit::Fresh => {
            if change.appends {
                spare_behind(size, &made_part_bytes(alloc, plan.parts())?, runs)
            } else {
                Ok(None)
            }
        }
    }
}

/// The new levels, their made nodes on these pages.
fn laid_levels(
    alloc: Global,
    store: &Store,
    tree: &Tree,
    spare: Option<Extent>,
    plan: &Plan,
    runs: &[Runs],
    pages: &[u32],
) -> Result<Vec<NewLevel>, Fail>
    ensures { IfOk result (λ levels. levels.items
        ≡ laid_levels (numbers_of store.now) tree.now spare plan.now runs.now pages.now) }
{
    let fresh = laid_entries(alloc, store, spare, plan, runs)?;
    spliced(
        alloc,
        fan_out(store),
        tree.levels(),
        plan.from(),
        plan.count(),
        &fresh,
        pages,
    )
}

/// The pages that are granted for a change out of these free ones.
#[tactic(auto, unfolding(layout_model::specs::Layout::granted))]
pub fn granted(
    alloc: Global,
    store: &Store,
    start: u64,
    tree: &Tree,
    spare: Option<Extent>,
    change: Change,
    free: &Spaces,
) -> Result<Answer<Grants>, Fail>
    ensures { IfOk result (λ answer. answered (λ grants. grants) answer
        ≡ granted (numbers_of store.now) start tree.now spare change free.now) }
{
    let plan = plan_of(alloc, store, tree, spare, change)?;
    let requests = wanted(alloc, store, tree, change, &plan)?;
    match all_runs(alloc, store, start, tree.threshold(), &requests, free)? {
        Answer::Refused { pages } => Ok(Answer::Refused { pages }),
        Answer::Got { value: runs, left } => {
            let levels = laid_levels(alloc, store, tree, spare, &plan, &runs, &[])?;
            match node_pages(alloc, store, start, count_made(&levels)?, &left)? {
                Answer::Refused { pages } => Ok(Answer::Refused { pages }),
                Answer::Got { value: pages, left } => Ok(Answer::Got {
                    value: Grants::new(runs, pages),
                    left,
                }),
            }
        }
    }
}

/// The tree and the spare that a change leaves on these pages.
#[tactic(auto, unfolding(layout_model::specs::Layout::laid))]
pub fn laid(
    alloc: Global,
    store: &Store,
    tree: &Tree,
    spare: Option<Extent>,
    change: Change,
    grants: &Grants,
) -> Result<Laid, Fail>
    ensures { IfOk result (λ after. after
        ≡ laid (numbers_of store.now) tree.now spare change grants.now) }
{
    let plan = plan_of(alloc, store, tree, spare, change)?;
    let runs = grants.runs();
    let levels = laid_levels(alloc, store, tree, spare, &plan, runs, grants.pages())?;
    let after = Tree::new(nodes_of_levels(alloc, &levels)?, tree.threshold());
    let left = spare_after(alloc, store, spare, change, &plan, runs)?;
    Ok(Laid::new(after, left))
}
