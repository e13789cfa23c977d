//! The checks of a segment: its size and place, each of its pages, and the segment before it.

ghost use Rattle.std.specs.Prelude.{◌≡◌, ◌≤◌, length, nat_le, IsTrue, true, false, MatchOption};
ghost use Rattle.std.specs.List.{range_with_len};
ghost use Rattle.std.specs.Result.{result_err};
ghost use Rattle.geometry_model.specs.Numbers.{pages};
ghost use Rattle.geometry_model.specs.Pages.{place};
ghost use Rattle.tree_model.specs.Tree.{page_count};
ghost use Rattle.span_store.specs.Held.{Held};
ghost use Rattle.image_model.specs.Checks.{check_segment, each, fits_after, is_in_space};
ghost use Rattle.image_model.specs.Checks.{is_segment, meet};
ghost use Rattle.image_check.specs.Owners.{IsMarked, is_number};
ghost use Rattle.image_check.specs.Verdicts.{Judged};

use crate::failure::CheckFail;
use crate::tree::Tree;
use crate::walk::Walk;
use page_port::Geometry;
use tree_model::Pair;

/// Checks the segments that the pairs of a node of level 1 name, from left to right.
pub fn check_segments(
    geometry: &Geometry,
    tree: Tree,
    pairs: &[Pair],
    walk: &mut Walk,
) -> Result<(), CheckFail>
    requires count { length walk.old.owners ≡ pages geometry.now }
    requires object { is_number tree.object }
    ensures count { length walk.new.owners ≡ pages geometry.now }
    ensures memory { result ≡ Err CheckFail.Memory → ⊥ }
    ensures fault { result ≡ Err CheckFail.Fault → ⊥ }
    ensures judged { (held : Held) → IsMarked geometry.now held walk.old →
        Judged (Unit {0}) geometry.now held tree.object walk.old walk.new (result_err result)
        (λ bytes. each (check_segment geometry.now bytes tree.object tree.threshold) pairs.now) }
{
    for pair in pairs {
        check_segment(geometry, tree, *pair, walk)?;
    }
    Ok(())
}

/// Checks one segment.
fn check_segment(
    geometry: &Geometry,
    tree: Tree,
    pair: Pair,
    walk: &mut Walk,
) -> Result<(), CheckFail>
    requires count { length walk.old.owners ≡ pages geometry.now }
    requires object { is_number tree.object }
    ensures count { length walk.new.owners ≡ pages geometry.now }
    ensures memory { result ≡ Err CheckFail.Memory → ⊥ }
    ensures fault { result ≡ Err CheckFail.Fault → ⊥ }
    ensures judged { (held : Held) → IsMarked geometry.now held walk.old →
        Judged (Unit {0}) geometry.now held tree.object walk.old walk.new (result_err result)
        (λ bytes. check_segment geometry.now bytes tree.object tree.threshold pair) }
{
    let Some(count) = segment_pages(geometry, pair) else {
        return Err(CheckFail::BadTree {
            object: tree.object,
        });
    };
    meet_pages(geometry, tree.object, pair.page, count, walk)?;
    let before = walk.before();
    if !fits_after(geometry, tree.threshold, before, pair) {
        return Err(CheckFail::BadTree {
            object: tree.object,
        });
    }
    walk.set_before(Some(pair));
    Ok(())
}

/// How many pages a segment has. None where it is larger than a space, or its pages aren't data
/// pages of one space.
fn segment_pages(geometry: &Geometry, pair: Pair) -> Option<u32>
    ensures { MatchOption result (is_segment geometry.now pair ≡ false)
        (λ count. (is_segment geometry.now pair ≡ true)
        × (count ≡ page_count geometry.now.page pair.bytes)) }
{
    let space = u64::from(geometry.space_pages());
    if pair.bytes > space * u64::from(geometry.page()) {
        return None;
    }
    let Some((_space, at)) = geometry.place(pair.page) else {
        return None;
    };
    let count = page_count(geometry, pair.bytes);
    if u64::from(at) + count <= space {
        Some(count as u32)
    } else {
        None
    }
}

/// The pages that so many bytes fill, the last one maybe in part.
fn page_count(geometry: &Geometry, bytes: u64) -> u64
    ensures exact { result ≡ page_count geometry.now.page bytes }
    ensures most { result ≤ bytes }
{
    bytes.div_ceil(u64::from(geometry.page()))
}

/// Meets each page of a run of data pages of one space, the lowest first.
fn meet_pages(
    geometry: &Geometry,
    object: u16,
    first: u32,
    count: u32,
    walk: &mut Walk,
) -> Result<(), CheckFail>
    requires count { length walk.old.owners ≡ pages geometry.now }
    requires object { is_number object }
    requires space { IsTrue (is_in_space geometry.now (place geometry.now first) count) }
    ensures count { length walk.new.owners ≡ pages geometry.now }
    ensures memory { result ≡ Err CheckFail.Memory → ⊥ }
    ensures fault { result ≡ Err CheckFail.Fault → ⊥ }
    ensures judged { (held : Held) → IsMarked geometry.now held walk.old →
        Judged (Unit {0}) geometry.now held object walk.old walk.new (result_err result)
        (λ bytes. each (meet geometry.now bytes) (range_with_len first count)) }
{
    // Who asks for the page size learns that all numbers are in range.
    let _size = geometry.page();
    for page in first..first + count {
        walk.meet(page, object)?;
    }
    Ok(())
}

/// Of a segment and the one before it, has one at least as many pages as the threshold?
fn fits_after(geometry: &Geometry, threshold: u16, before: Option<Pair>, pair: Pair) -> bool
    ensures { result ≡ fits_after geometry.now threshold before pair }
{
    let Some(before) = before else {
        return true;
    };
    is_large(geometry, threshold, before) || is_large(geometry, threshold, pair)
}

/// Has a segment as many pages as the threshold, or more?
fn is_large(geometry: &Geometry, threshold: u16, pair: Pair) -> bool
    ensures { result ≡ nat_le threshold (page_count geometry.now.page pair.bytes) }
{
    u64::from(threshold) <= page_count(geometry, pair.bytes)
}
