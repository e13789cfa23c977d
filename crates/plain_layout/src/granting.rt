//! Grants over the free pages of all spaces.

ghost use Rattle.std.specs.Prelude.{◌≡◌, IfOk, false};
ghost use Rattle.std.specs.List.{range_with_len};
ghost use Rattle.geometry_model.specs.Pages.{data_page};
ghost use Rattle.block_model.specs.Block.{with_run};
ghost use Rattle.layout_model.specs.Grants.{around, spot_in, without, run_of, and_then, only};
ghost use Rattle.layout_model.specs.Grants.{halved, part_runs, all_runs, node_pages};
ghost use Rattle.plain_plan.specs.Store.{numbers_of};
ghost use Rattle.plain_layout.specs.Answers.{answered, behind, spot_of, spot_found};

use crate::answer::Answer;
use crate::pages::Pages;
use crate::placing::place;
use crate::runs::Runs;
use crate::spaces::Spaces;
use crate::spot::Spot;
use layout_model::{Extent, Request};
use plain_plan::{Fail, Store, add, as_page, cons, front, join, mul, one, rest, space_pages};
use std::alloc::Global;

/// So many numbers, from the first on.
#[tactic(auto, using(crate::proofs::Steps::numbers_more))]
fn numbers(alloc: Global, first: u64, count: u64) -> Result<Vec<u64>, Fail>
    ensures { IfOk result (λ list. list.items ≡ range_with_len first count) }
{
    if count == 0 {
        return Ok(Vec::new(alloc));
    }
    let others = numbers(alloc, add(first, 1)?, count - 1)?;
    cons(first, others)
}

/// The numbers of the spaces, from `start` on and around.
fn around(alloc: Global, start: u64, count: u64) -> Result<Vec<u64>, Fail>
    ensures { IfOk result (λ list. list.items ≡ around start count) }
{
    let behind = numbers(alloc, start, count.saturating_sub(start))?;
    join(behind, &numbers(alloc, 0, start)?)
}

/// The data page at a place of a space.
pub fn data_page(store: &Store, space: u64, at: u64) -> Result<u64, Fail>
    ensures { IfOk result (λ page. page ≡ data_page (numbers_of store.now) space at) }
{
    let size = add(1, space_pages(store)?)?;
    let directory = add(add(1, store.catalog)?, mul(space, size)?)?;
    add(add(directory, 1)?, at)
}

/// The first of these spaces that has a place for n pages.
fn spot_in(alloc: Global, spaces: &Spaces, n: u64, order: &[u64]) -> Result<Option<Spot>, Fail>
    ensures { IfOk result (λ spot. spot_found spot ≡ spot_in spaces.now n order.now) }
{
    match order {
        [] => Ok(None),
        [space, others @ ..] => match place(alloc, spaces.at(*space), n)? {
            Some(at) => Ok(Some(Spot { space: *space, at })),
            None => spot_in(alloc, spaces, n, others),
        },
    }
}

/// The pages without n of them.
fn without_run(alloc: Global, pages: &[bool], first: u64, n: u64) -> Result<Pages, Fail>
    ensures { IfOk result (λ left. left ≡ with_run pages.now first n false) }
{
    let taken = vec![in alloc; false; n as usize]?;
    let behind = join(taken, rest(add(first, n)?, pages))?;
    let before = Vec::from_slice(alloc, front(first, pages))?;
    Ok(Pages::from_vec(join(before, &behind)?))
}

/// The spaces without the n pages at a spot.
fn without(alloc: Global, spaces: &Spaces, spot: Spot, n: u64) -> Result<Spaces, Fail>
    ensures { IfOk result (λ left. left ≡ without spaces.now (spot_of spot) n) }
{
    let pages = without_run(alloc, spaces.at(spot.space), spot.at, n)?;
    spaces.with(alloc, spot.space, pages)
}

/// A run of n pages: the spaces are tried in turn, space `start` first and around, and the first
/// with room gives it.
pub fn run_of(
    alloc: Global,
    store: &Store,
    start: u64,
    pages: u64,
    spaces: &Spaces,
) -> Result<Answer<Extent>, Fail>
    ensures { IfOk result (λ answer. answered (λ run. run) answer
        ≡ run_of (numbers_of store.now) start pages spaces.now) }
{
    let order = around(alloc, start, spaces.len())?;
    match spot_in(alloc, spaces, pages, &order)? {
        None => Ok(Answer::Refused { pages }),
        Some(spot) => Ok(Answer::Got {
            value: Extent {
                page: as_page(data_page(store, spot.space, spot.at)?)?,
                pages: as_page(pages)?,
            },
            left: without(alloc, spaces, spot, pages)?,
        }),
    }
}

/// The same as a row of one run.
fn one_run(
    alloc: Global,
    store: &Store,
    start: u64,
    pages: u64,
    spaces: &Spaces,
) -> Result<Answer<Vec<Extent>>, Fail>
    ensures { IfOk result (λ answer. answered (λ runs. runs.items) answer
        ≡ and_then (run_of (numbers_of store.now) start pages spaces.now) only) }
{
    match run_of(alloc, store, start, pages, spaces)? {
        Answer::Refused { pages } => Ok(Answer::Refused { pages }),
        Answer::Got { value: run, left } => Ok(Answer::Got {
            value: one(alloc, run)?,
            left,
        }),
    }
}

/// The runs of a part of so many pages, halved where it must be.
#[tactic(auto, using(crate::proofs::Steps::halved_more))]
pub fn halved(
    alloc: Global,
    steps: u64,
    store: &Store,
    start: u64,
    threshold: u64,
    pages: u64,
    spaces: &Spaces,
) -> Result<Answer<Vec<Extent>>, Fail>
    ensures { IfOk result (λ answer. answered (λ runs. runs.items) answer
        ≡ halved steps (numbers_of store.now) start threshold pages spaces.now) }
{
    if steps == 0 {
        return Ok(Answer::Refused { pages });
    }
    match one_run(alloc, store, start, pages, spaces)? {
        Answer::Got { value, left } => return Ok(Answer::Got { value, left }),
        Answer::Refused { .. } => {}
    }
    if pages < mul(2, threshold)? {
        return Ok(Answer::Refused { pages });
    }
    let larger = add(pages, 1)? / 2;
    match halved(alloc, steps - 1, store, start, threshold, larger, spaces)? {
        Answer::Refused { pages } => Ok(Answer::Refused { pages }),
        Answer::Got { value: first, left } => {
            let second = halved(alloc, steps - 1, store, start, threshold, pages / 2, &left)?;
            both(first, second)
        }
    }
}

/// The runs of the first half with those of the other, where that one has some.
fn both(first: Vec<Extent>, second: Answer<Vec<Extent>>) -> Result<Answer<Vec<Extent>>, Fail>
    ensures { IfOk result (λ answer. answered (λ runs. runs.items) answer
        ≡ and_then (answered (λ runs. runs.items) second) (behind first.items)) }
{
    match second {
        Answer::Refused { pages } => Ok(Answer::Refused { pages }),
        Answer::Got { value: more, left } => Ok(Answer::Got {
            value: join(first, &more)?,
            left,
        }),
    }
}

/// The runs of one part: the wish as one run, or else the need, halved where it must be.
pub fn part_runs(
    alloc: Global,
    store: &Store,
    start: u64,
    threshold: u64,
    request: Request,
    spaces: &Spaces,
) -> Result<Answer<Vec<Extent>>, Fail>
    ensures { IfOk result (λ answer. answered (λ runs. runs.items) answer
        ≡ part_runs (numbers_of store.now) start threshold request spaces.now) }
{
    let need = request.need as u64;
    match one_run(alloc, store, start, request.want as u64, spaces)? {
        Answer::Got { value, left } => Ok(Answer::Got { value, left }),
        Answer::Refused { .. } => halved(alloc, need, store, start, threshold, need, spaces),
    }
}

/// The runs of all parts, from left to right.
pub fn all_runs(
    alloc: Global,
    store: &Store,
    start: u64,
    threshold: u64,
    requests: &[Request],
    spaces: &Spaces,
) -> Result<Answer<Vec<Runs>>, Fail>
    ensures { IfOk result (λ answer. answered (λ runs. runs.items) answer
        ≡ all_runs (numbers_of store.now) start threshold requests.now spaces.now) }
{
    let [request, others @ ..] = requests else {
        return Ok(Answer::Got {
            value: Vec::new(alloc),
            left: spaces.copy(alloc)?,
        });
    };
    match part_runs(alloc, store, start, threshold, *request, spaces)? {
        Answer::Refused { pages } => Ok(Answer::Refused { pages }),
        Answer::Got { value: runs, left } => {
            match all_runs(alloc, store, start, threshold, others, &left)? {
                Answer::Refused { pages } => Ok(Answer::Refused { pages }),
                Answer::Got { value: more, left } => Ok(Answer::Got {
                    value: cons(Runs::from_vec(runs), more)?,
                    left,
                }),
            }
        }
    }
}

/// Single pages, so many of them.
#[tactic(auto, using(crate::proofs::Steps::node_pages_more))]
pub fn node_pages(
    alloc: Global,
    store: &Store,
    start: u64,
    count: u64,
    spaces: &Spaces,
) -> Result<Answer<Vec<u32>>, Fail>
    ensures { IfOk result (λ answer. answered (λ pages. pages.items) answer
        ≡ node_pages (numbers_of store.now) start count spaces.now) }
{
    if count == 0 {
        return Ok(Answer::Got {
            value: Vec::new(alloc),
            left: spaces.copy(alloc)?,
        });
    }
    match run_of(alloc, store, start, 1, spaces)? {
        Answer::Refused { pages } => Ok(Answer::Refused { pages }),
        Answer::Got { value: run, left } => {
            match node_pages(alloc, store, start, count - 1, &left)? {
                Answer::Refused { pages } => Ok(Answer::Refused { pages }),
                Answer::Got { value: more, left } => Ok(Answer::Got {
                    value: cons(run.page, more)?,
                    left,
                }),
            }
        }
    }
}
