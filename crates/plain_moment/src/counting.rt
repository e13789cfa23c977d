//! The free and the locked pages of a store, and how many there are.

ghost use Rattle.std.specs.Prelude.{◌≡◌, IfOk, map};
ghost use Rattle.std.specs.List.{range_with_len};
ghost use Rattle.moment_model.specs.Moment.{tests_in, free_of, locked_of, count_pages};
ghost use Rattle.plain_plan.specs.Store.{numbers_of};
ghost use Rattle.plain_moment.specs.Testing.{is_in};

use crate::slot::ObjectSlot;
use crate::using::{all_committed_runs, all_working_runs, is_unused};
use layout_model::Extent;
use plain_layout::{Pages, Spaces, data_page};
use plain_plan::{Fail, Store, add, cons, space_pages};
use std::alloc::Global;

/// Whether a page is free, or else whether it is locked.
fn is_in(page: u64, locked: bool, committed: &[Extent], working: &[Extent]) -> bool
    ensures { result ≡ is_in locked committed.now working.now page }
{
    if locked {
        !is_unused(page, committed) && is_unused(page, working)
    } else {
        is_unused(page, committed) && is_unused(page, working)
    }
}

/// A test of each page of a space.
fn tests_in(
    alloc: Global,
    store: &Store,
    space: u64,
    locked: bool,
    committed: &[Extent],
    working: &[Extent],
) -> Result<Pages, Fail>
    ensures { IfOk result (λ pages. pages
        ≡ tests_in (numbers_of store.now) space (is_in locked committed.now working.now)) }
{
    let count = space_pages(store)?;
    let mut tests = Vec::new(alloc);
    'pages: for at in 0..count {
        let page = data_page(store, space, at)?;
        match tests.push(is_in(page, locked, committed, working)) {
            Ok(()) => {}
            Err(_) => return Err(Fail::Memory),
        }
    }
    Ok(Pages::from_vec(tests))
}

/// A test of each page of so many spaces, from one on.
#[tactic(auto, using(crate::proofs::Steps::map_range_more))]
fn all_tests(
    alloc: Global,
    store: &Store,
    first: u64,
    count: u64,
    locked: bool,
    committed: &[Extent],
    working: &[Extent],
) -> Result<Vec<Pages>, Fail>
    ensures { IfOk result (λ rows. rows.items
        ≡ map (λ s. tests_in (numbers_of store.now) s (is_in locked committed.now working.now))
        (range_with_len first count)) }
{
    if count == 0 {
        return Ok(Vec::new(alloc));
    }
    let pages = tests_in(alloc, store, first, locked, committed, working)?;
    let others = all_tests(
        alloc,
        store,
        add(first, 1)?,
        count - 1,
        locked,
        committed,
        working,
    )?;
    cons(pages, others)
}

/// The free pages of all spaces.
pub fn free_of(alloc: Global, store: &Store, moment: &[ObjectSlot]) -> Result<Spaces, Fail>
    ensures { IfOk result (λ free. free ≡ free_of (numbers_of store.now) moment.now) }
{
    let committed = all_committed_runs(alloc, store, moment)?;
    let working = all_working_runs(alloc, store, moment)?;
    let rows = all_tests(alloc, store, 0, store.spaces, false, &committed, &working)?;
    Ok(Spaces::from_vec(rows))
}

/// The locked pages of all spaces.
pub fn locked_of(alloc: Global, store: &Store, moment: &[ObjectSlot]) -> Result<Spaces, Fail>
    ensures { IfOk result (λ locked. locked ≡ locked_of (numbers_of store.now) moment.now) }
{
    let committed = all_committed_runs(alloc, store, moment)?;
    let working = all_working_runs(alloc, store, moment)?;
    let rows = all_tests(alloc, store, 0, store.spaces, true, &committed, &working)?;
    Ok(Spaces::from_vec(rows))
}

/// How many pages are in these sets.
pub fn count_pages(spaces: &Spaces) -> Result<u64, Fail>
    ensures { IfOk result (λ count. count ≡ count_pages spaces.now) }
{
    count_rows(spaces.as_slice())
}

#[tactic(auto, using(crate::proofs::Uses::pages_more))]
fn count_rows(rows: &[Pages]) -> Result<u64, Fail>
    ensures { IfOk result (λ count. count ≡ count_pages rows.now) }
{
    match rows {
        [] => Ok(0),
        [row, others @ ..] => {
            let own = block_model::count_pages(row.as_slice()) as u64;
            add(own, count_rows(others)?)
        }
    }
}
