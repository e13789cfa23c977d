//! Used spans that go to the owners of their pages, in one rising pass.

ghost use Rattle.std.specs.Prelude.{◌≡◌, ℕ, ◌+◌, ◌^◌, ◌<◌, ◌≤◌, [], ◌∷◌, ◌++◌, length, OnOk};
ghost use Rattle.std.specs.Prelude.{vec_capacity, vec_len};
ghost use Rattle.span_store.specs.Held.{spans_of};
ghost use Rattle.image_check.specs.Owners.{owner_at};
ghost use Rattle.image_check.specs.Shares.{ShareNoPage, AreShared, AreTaken, AsksShare, page_total};

use crate::owner::Owner;
use crate::walk::Walk;
use page_port::Span;
use span_store::Holdings;
use std::alloc::AllocError;

/// Takes all spans out of the holdings, the last first, so that the first is on top of the stack.
/// It takes no memory, and moves no record.
pub fn take_all<S: Span>(held: &mut Holdings<S>, stack: &mut Vec<S>)
    requires empty { stack.old.items ≡ [] }
    requires room { vec_len stack.old + length held.old.spans ≤ vec_capacity stack.old }
    ensures taken { AreTaken held.old held.new (spans_of S.start S.contents stack.new.items) }
    ensures room { vec_capacity stack.new ≡ vec_capacity stack.old }
{
    while let Some(span) = held.take_any() {
        stack.push_reserved(span);
    }
}

/// Gives the pages of the spans to their owners, a span for each run of pages of one owner, from
/// the top of the stack on.
///
/// # Errors
/// There was no memory: each page is still in a span of the stack, or its owner has it.
pub fn share_out<S: Span>(
    stack: &mut Vec<S>,
    walk: &Walk,
    objects: &mut [Holdings<S>],
) -> Result<(), AllocError>
    requires asks { AsksShare walk.now (spans_of S.start S.contents stack.old.items) objects.old }
    ensures shared { AreShared walk.now (spans_of S.start S.contents stack.old.items)
        (spans_of S.start S.contents stack.new.items) objects.old objects.new }
    ensures apart { ShareNoPage (spans_of S.start S.contents stack.new.items) }
    ensures all { OnOk result (stack.new.items ≡ []) }
{
    while let Some(span) = stack.pop() {
        give_front(span, stack, walk, objects)?;
    }
    Ok(())
}

/// Gives the first pages of a span, those of one owner, to it. The rest goes back to the stack.
fn give_front<S: Span>(
    mut span: S,
    stack: &mut Vec<S>,
    walk: &Walk,
    objects: &mut [Holdings<S>],
) -> Result<(), AllocError>
    requires room { vec_len stack.old < vec_capacity stack.old }
    requires asks { AsksShare walk.now (spans_of S.start S.contents (stack.old.items ++ span ∷ []))
        objects.old }
    ensures shared { AreShared walk.now
        (spans_of S.start S.contents (stack.old.items ++ span ∷ []))
        (spans_of S.start S.contents stack.new.items) objects.old objects.new }
    ensures asks { AsksShare walk.now (spans_of S.start S.contents stack.new.items) objects.new }
    ensures fewer { OnOk result (page_total S.contents stack.new.items
        < page_total S.contents (stack.old.items ++ span ∷ [])) }
{
    let first = span.first();
    let pages = span.pages();
    let Owner::Object(object) = walk.owner(first) else {
        unreachable!()
    };
    let owner = &mut objects[object as usize];
    if owner.reserve(1).is_err() {
        stack.push_reserved(span);
        return Err(AllocError);
    }
    let count = run_of_owner(walk, first, pages);
    if count < pages {
        let front = span.cut(count);
        stack.push_reserved(span);
        owner.add(front);
    } else {
        owner.add(span);
    }
    Ok(())
}

/// How many of the `pages` pages from `first` on have the owner of the first, up to the first page
/// that has another.
fn run_of_owner(walk: &Walk, first: u32, pages: u32) -> u32
    requires some { 1 ≤ pages }
    requires fits { first + pages < 2 ^ 32 }
    requires inside { first + pages ≤ length walk.now.owners }
    ensures some { 1 ≤ result }
    ensures most { result ≤ pages }
    ensures same { (q : ℕ) → first ≤ q → q < first + result
        → owner_at walk.now q ≡ owner_at walk.now first }
{
    let owner = walk.owner(first);
    for count in 1..pages {
        if walk.owner(first + count) != owner {
            return count;
        }
    }
    pages
}
