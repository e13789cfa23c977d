//! The place of a grant: the lowest of the smallest blocks that hold the pages, found by halving a
//! list of blocks.

ghost use Rattle.std.specs.Prelude.{◌≡◌, IfOk};
ghost use Rattle.block_model.specs.Place.{halves, unmerged, first_true, found_at, place_from};
ghost use Rattle.block_model.specs.Place.{place};

use plain_plan::{Fail, add, cons, mul, one};
use std::alloc::Global;

/// The blocks of the next order.
fn halves(alloc: Global, blocks: &[bool]) -> Result<Vec<bool>, Fail>
    ensures { IfOk result (λ larger. larger.items ≡ halves blocks.now) }
{
    match blocks {
        [] | [_] => Ok(Vec::new(alloc)),
        [a, b, others @ ..] => cons(*a && *b, halves(alloc, others)?),
    }
}

/// The blocks whose buddy isn't free.
fn unmerged(alloc: Global, blocks: &[bool]) -> Result<Vec<bool>, Fail>
    ensures { IfOk result (λ alone. alone.items ≡ unmerged blocks.now) }
{
    match blocks {
        [] => Ok(Vec::new(alloc)),
        [a] => one(alloc, *a),
        [a, b, others @ ..] => cons(*a && !*b, cons(*b && !*a, unmerged(alloc, others)?)?),
    }
}

/// The place of the first test that is true.
fn first_true(tests: &[bool]) -> Result<Option<u64>, Fail>
    ensures { IfOk result (λ place. place ≡ first_true tests.now) }
{
    match tests {
        [] => Ok(None),
        [true, ..] => Ok(Some(0)),
        [false, others @ ..] => match first_true(others)? {
            None => Ok(None),
            Some(place) => Ok(Some(add(place, 1)?)),
        },
    }
}

/// The lowest maximal block of an order, where its pages hold n.
fn found_at(alloc: Global, blocks: &[bool], size: u64, n: u64) -> Result<Option<u64>, Fail>
    ensures { IfOk result (λ block. block ≡ found_at blocks.now size n) }
{
    if n <= size {
        first_true(&unmerged(alloc, blocks)?)
    } else {
        Ok(None)
    }
}

/// The place among the blocks of the next orders. Where no block is left there is none in any
/// order.
#[tactic(auto, using(crate::proofs::Steps::place_from_steps))]
fn place_from(
    alloc: Global,
    levels: u64,
    blocks: &[bool],
    size: u64,
    n: u64,
) -> Result<Option<u64>, Fail>
    ensures { IfOk result (λ at. at ≡ place_from levels blocks.now size n) }
{
    if levels == 0 {
        return Ok(None);
    }
    if blocks.is_empty() {
        return Ok(None);
    }
    match found_at(alloc, blocks, size, n)? {
        Some(block) => Ok(Some(mul(block, size)?)),
        None => {
            let larger = halves(alloc, blocks)?;
            place_from(alloc, levels - 1, &larger, mul(2, size)?, n)
        }
    }
}

/// The first of n pages that a grant takes, where there is room.
#[tactic(auto, unfolding(block_model::specs::Place::place))]
pub fn place(alloc: Global, free: &[bool], n: u64) -> Result<Option<u64>, Fail>
    ensures { IfOk result (λ at. at ≡ place free.now n) }
{
    place_from(alloc, free.len() as u64, free, 1, n)
}
