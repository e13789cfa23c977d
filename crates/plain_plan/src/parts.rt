//! The parts that an edit leaves of an object's segments.

ghost use Rattle.std.specs.Prelude.{◌≡◌, IfOk, map};
ghost use Rattle.layout_model.specs.declared.part.Part.TheVariants.{Keep, Make};
ghost use Rattle.layout_model.specs.Parts.{count_ended, count_begun, one_before, one_after};
ghost use Rattle.layout_model.specs.Parts.{left_of, head_of, without_pages, right_of, pieces};
ghost use Rattle.layout_model.specs.Parts.{parts_of};

use crate::lists::{front, join, one, rest};
use crate::numbers::{Fail, add, as_page, div, mul, page_count, rem};
use layout_model::Part;
use std::alloc::Global;
use tree_model::Pair;

/// How many entries end at byte `at` or before it.
pub fn count_ended(at: u64, entries: &[Pair]) -> Result<u64, Fail>
    ensures { IfOk result (λ count. count ≡ count_ended at entries.now) }
{
    match entries {
        [] => Ok(0),
        [p, after @ ..] => {
            if p.bytes <= at {
                add(count_ended(at - p.bytes, after)?, 1)
            } else {
                Ok(0)
            }
        }
    }
}

/// How many entries begin before byte `at`.
pub fn count_begun(at: u64, entries: &[Pair]) -> Result<u64, Fail>
    ensures { IfOk result (λ count. count ≡ count_begun at entries.now) }
{
    match entries {
        [] => Ok(0),
        [p, after @ ..] => {
            if at == 0 {
                Ok(0)
            } else {
                add(count_begun(at.saturating_sub(p.bytes), after)?, 1)
            }
        }
    }
}

/// The last entry that ends at `at` or before it.
pub fn one_before(at: u64, entries: &[Pair]) -> Result<&[Pair], Fail>
    ensures { IfOk result (λ pairs. pairs.now ≡ one_before at entries.now) }
{
    let count = count_ended(at, entries)?;
    Ok(rest(count.saturating_sub(1), front(count, entries)))
}

/// The first entry that begins at `at` or after it.
pub fn one_after(at: u64, entries: &[Pair]) -> Result<&[Pair], Fail>
    ensures { IfOk result (λ pairs. pairs.now ≡ one_after at entries.now) }
{
    let count = count_begun(at, entries)?;
    Ok(front(1, rest(count, entries)))
}

/// What is kept left of `at` of the entry that it lies inside.
pub fn left_of(alloc: Global, at: u64, entries: &[Pair]) -> Result<Vec<Pair>, Fail>
    ensures { IfOk result (λ pairs. pairs.items ≡ left_of at entries.now) }
{
    match entries {
        [] => Ok(Vec::new(alloc)),
        [p, after @ ..] => {
            if p.bytes <= at {
                left_of(alloc, at - p.bytes, after)
            } else if at == 0 {
                Ok(Vec::new(alloc))
            } else {
                one(
                    alloc,
                    Pair {
                        bytes: at,
                        page: p.page,
                    },
                )
            }
        }
    }
}

/// How many bytes are taken up to the next border of a page.
pub fn head_of(size: u64, at: u64, entries: &[Pair]) -> Result<u64, Fail>
    ensures { IfOk result (λ bytes. bytes ≡ head_of size at entries.now) }
{
    match entries {
        [] => Ok(0),
        [p, after @ ..] => {
            if p.bytes <= at {
                head_of(size, at - p.bytes, after)
            } else {
                let border = mul(page_count(size, at)?, size)?;
                Ok(border.min(p.bytes).saturating_sub(at))
            }
        }
    }
}

/// An entry without its first pages.
pub fn without_pages(alloc: Global, size: u64, pages: u64, p: Pair) -> Result<Vec<Pair>, Fail>
    ensures { IfOk result (λ pairs. pairs.items ≡ without_pages size pages p) }
{
    let cut = mul(pages, size)?;
    if cut < p.bytes {
        let page = as_page(add(p.page as u64, pages)?)?;
        one(
            alloc,
            Pair {
                bytes: p.bytes - cut,
                page,
            },
        )
    } else {
        Ok(Vec::new(alloc))
    }
}

/// What is kept right of `at` of the entry that it lies inside.
pub fn right_of(alloc: Global, size: u64, at: u64, entries: &[Pair]) -> Result<Vec<Pair>, Fail>
    ensures { IfOk result (λ pairs. pairs.items ≡ right_of size at entries.now) }
{
    match entries {
        [] => Ok(Vec::new(alloc)),
        [p, after @ ..] => {
            if p.bytes <= at {
                right_of(alloc, size, at - p.bytes, after)
            } else if at == 0 {
                Ok(Vec::new(alloc))
            } else {
                without_pages(alloc, size, page_count(size, at)?, *p)
            }
        }
    }
}

/// So many bytes in pieces.
pub fn pieces(alloc: Global, most: u64, bytes: u64) -> Result<Vec<u64>, Fail>
    ensures { IfOk result (λ list. list.items ≡ pieces most bytes) }
{
    let whole = div(bytes, most)?;
    let last = rem(bytes, most)?;
    let full = vec![in alloc; most; whole as usize]?;
    if last == 0 {
        join(full, &[])
    } else {
        join(full, &[last])
    }
}

fn kept(alloc: Global, pairs: &[Pair]) -> Result<Vec<Part>, Fail>
    ensures { IfOk result (λ parts. parts.items ≡ map Keep pairs.now) }
{
    Ok(pairs.iter().map(|p| Part::Keep(*p)).collect(alloc)?)
}

fn made(alloc: Global, list: &[u64]) -> Result<Vec<Part>, Fail>
    ensures { IfOk result (λ parts. parts.items ≡ map Make list.now) }
{
    Ok(list.iter().map(|bytes| Part::Make(*bytes)).collect(alloc)?)
}

/// The parts of an edit, where a segment has at most `most` bytes.
pub fn parts_of(
    alloc: Global,
    size: u64,
    most: u64,
    entries: &[Pair],
    at: u64,
    removed: u64,
    added: u64,
) -> Result<Vec<Part>, Fail>
    ensures { IfOk result (λ parts. parts.items ≡ parts_of size most entries.now at removed added) }
{
    let end = add(at, removed)?;
    let before = Vec::from_slice(alloc, one_before(at, entries)?)?;
    let left = join(before, &left_of(alloc, at, entries)?)?;
    let new = pieces(alloc, most, add(added, head_of(size, end, entries)?)?)?;
    let right = join(
        right_of(alloc, size, end, entries)?,
        one_after(end, entries)?,
    )?;
    let tail = join(made(alloc, &new)?, &kept(alloc, &right)?)?;
    join(kept(alloc, &left)?, &tail)
}
