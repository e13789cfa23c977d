//! The tree of masks: built, mended after a change of a run, and searched.
//!
//! Part x has the halves 2x and 2x + 1; the whole space is part 1, and page p of a space of `2^k`
//! pages is part `2^k + p`. A mask has bit i where a maximal block of order i lies in the part.

ghost use Rattle.std.specs.Prelude.{◌≡◌, ℕ, ◌+◌, ◌*◌, ◌-◌, ◌/◌, ◌^◌, ◌<◌, ◌≤◌, ◌⊎◌, List, Bool};
ghost use Rattle.std.specs.Prelude.{length, slice_index, if◌then◌else◌, IfOk};
ghost use Rattle.std.specs.Int.{bit_at};
ghost use Rattle.block_model.specs.Block.{has_page};
ghost use Rattle.buddy_map.specs.Tree.{joined_mask, mask_of, AreMasks, IsMended, IsLeftmost};

use std::alloc::{AllocError, Global};

/// The masks of a space of `2^whole` pages.
pub fn build(alloc: Global, pages: &[bool], whole: u8) -> Result<Vec<u16>, AllocError>
    requires small { whole ≤ 14 }
    requires pages { length pages.now ≡ 2 ^ whole }
    ensures { IfOk result (λ masks. AreMasks pages.now whole masks.items) }
{
    let size: u32 = 1 << whole;
    let mut masks = vec![in alloc; 0u16; 2 * size as usize]?;
    mend(&mut masks, pages, whole, 0, size);
    Ok(masks)
}

/// Mends the masks of the parts that have some of the `n` pages from `first` on: those of the pages
/// first, then of each order that of both halves' masks, up to the whole space.
pub fn mend(masks: &mut [u16], pages: &[bool], whole: u8, first: u32, n: u32)
    requires small { whole ≤ 14 }
    requires pages { length pages.now ≡ 2 ^ whole }
    requires some { 1 ≤ n }
    requires within { first + n ≤ length pages.now }
    requires beside { IsMended pages.now whole first n 0 masks.old }
    ensures { AreMasks pages.now whole masks.new }
{
    write_pages(masks, pages, first, n);
    let mut low = pages.len() + first as usize;
    let mut high = low + n as usize - 1;
    for order in 0..whole {
        low /= 2;
        high /= 2;
        mend_row(masks, low, high, 1 << order);
    }
}

/// Writes the masks of single pages.
fn write_pages(masks: &mut [u16], pages: &[bool], first: u32, n: u32)
    requires within { first + n ≤ length pages.now }
    requires small { length pages.now ≤ 2 ^ 14 }
    requires size { length masks.old ≡ 2 * length pages.now }
    ensures size { length masks.new ≡ length masks.old }
    ensures written { (page : ℕ) → first ≤ page → page < first + n
        → slice_index masks.new (length pages.now + page)
        ≡ (if has_page pages.now page then 1 else 0) }
    ensures beside { (x : ℕ)
        → (x < length pages.now + first) ⊎ (length pages.now + (first + n) ≤ x)
        → slice_index masks.new x ≡ slice_index masks.old x }
{
    for page in first as usize..(first + n) as usize {
        masks[pages.len() + page] = pages[page] as u16;
    }
}

/// Mends the masks of the parts from `low` to `high`, whose halves have `half` pages each.
fn mend_row(masks: &mut [u16], low: usize, high: usize, half: u16)
    requires half { half < 2 ^ 15 }
    requires some { low ≤ high }
    requires apart { high < 2 * low }
    requires within { 2 * high + 1 < length masks.old }
    ensures size { length masks.new ≡ length masks.old }
    ensures mended { (x : ℕ) → low ≤ x → x ≤ high → slice_index masks.new x
        ≡ joined_mask half (slice_index masks.old (2 * x)) (slice_index masks.old (2 * x + 1)) }
    ensures beside { (x : ℕ) → (x < low) ⊎ (high < x)
        → slice_index masks.new x ≡ slice_index masks.old x }
{
    for x in low..high + 1 {
        masks[x] = join(masks[2 * x], masks[2 * x + 1], half);
    }
}

/// The mask of two halves of `half` pages each.
fn join(left: u16, right: u16, half: u16) -> u16
    requires { half < 2 ^ 15 }
    ensures { result ≡ joined_mask half left right }
{
    if left == half && right == half {
        2 * half
    } else {
        left | right
    }
}

/// The number of the leftmost maximal block of an order that the whole space's mask has.
pub fn leftmost(masks: &[u16], whole: u8, order: u8) -> u32
    requires small { whole ≤ 14 }
    requires order { order ≤ whole }
    requires size { length masks.now ≡ 2 * 2 ^ whole }
    ensures few { result < 2 ^ (whole - order) }
    ensures leftmost { (free : List Bool) → AreMasks free whole masks.now
        → bit_at (slice_index masks.now 1) order ≡ 1 → IsLeftmost free order result }
{
    let mut part: usize = 1;
    for _depth in 0..whole - order {
        part = half_with(masks, 2 * part, order);
    }
    part as u32 - (1 << (whole - order))
}

/// The left half where its mask has an order, and else the right half.
fn half_with(masks: &[u16], left: usize, order: u8) -> usize
    requires order { order < 16 }
    requires within { left + 1 < length masks.now }
    ensures left { bit_at (slice_index masks.now left) order ≡ 1 → result ≡ left }
    ensures right { bit_at (slice_index masks.now left) order ≡ 0 → result ≡ left + 1 }
{
    if masks[left] >> order & 1 == 1 {
        left
    } else {
        left + 1
    }
}
