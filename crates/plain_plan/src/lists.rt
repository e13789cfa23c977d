//! Lists: a first item, an end, and parts of a slice.

ghost use Rattle.std.specs.Prelude.{◌≡◌, [], ◌∷◌, ◌++◌, IfOk, take, drop};

use crate::numbers::Fail;
use std::alloc::Global;

/// The list with an item before it.
pub fn cons<T: Drop>(item: T, mut rest: Vec<T>) -> Result<Vec<T>, Fail>
    ensures { IfOk result (λ all. all.items ≡ item ∷ rest.items) }
{
    match rest.insert(0, item) {
        Ok(()) => Ok(rest),
        Err(_) => Err(Fail::Memory),
    }
}

/// One list after the other.
pub fn join<T: Copy>(mut front: Vec<T>, back: &[T]) -> Result<Vec<T>, Fail>
    ensures { IfOk result (λ all. all.items ≡ front.items ++ back.now) }
{
    front.extend_from_slice(back)?;
    Ok(front)
}

/// The list of one item.
pub fn one<T: Drop>(alloc: Global, item: T) -> Result<Vec<T>, Fail>
    ensures { IfOk result (λ all. all.items ≡ item ∷ []) }
{
    cons(item, Vec::new(alloc))
}

/// The first n items, or all where there are fewer.
pub fn front<T>(n: u64, items: &[T]) -> &[T]
    ensures { result.now ≡ take n items.now }
{
    if n < items.len() as u64 {
        &items[..n as usize]
    } else {
        items
    }
}

/// The items after the first n.
pub fn rest<T>(n: u64, items: &[T]) -> &[T]
    ensures { result.now ≡ drop n items.now }
{
    if n < items.len() as u64 {
        &items[n as usize..]
    } else {
        &items[items.len()..]
    }
}
