//! Spans of single pages in slots: a run of them taken out as one span, and a span put into them.
//!
//! Both cost the pages of the run and take no memory.

ghost use Rattle.std.specs.Prelude.{◌≡◌, ℕ, ◌+◌, ◌-◌, ◌<◌, ◌≤◌, length, slice_set, IsSome, Some};
ghost use Rattle.std.specs.Prelude.{None};
ghost use Rattle.page_port.specs.Pages.{run};
ghost use Rattle.space_directory.specs.Slots.{span_in, IsRow, IsEmptied, AreSpread, KeepsSlots};
ghost use Rattle.space_directory.specs.Slots.{pages_held};

use page_port::Span;

/// Takes the span out of a slot.
fn take_one<S>(slots: &mut [Option<S>], at: usize) -> S
    requires { IsSome (span_in slots.old at) }
    ensures held { span_in slots.old at ≡ Some result }
    ensures emptied { slots.new ≡ slice_set slots.old at None }
{
    slots[at].take().unwrap()
}

/// Takes the spans of the `n` slots from `at` on, joined into one.
pub fn take_run<S: Span>(slots: &mut [Option<S>], at: usize, n: usize) -> S
    requires some { 1 ≤ n }
    requires within { at + n ≤ length slots.old }
    requires row { (base : ℕ) × IsRow S.start S.contents base slots.old at n }
    ensures first { (base : ℕ) → IsRow S.start S.contents base slots.old at n →
        S.start result ≡ base + at }
    ensures count { length (S.contents result) ≡ n }
    ensures pages { S.contents result ≡ run at n (pages_held S.contents slots.old) }
    ensures emptied { IsEmptied slots.new at n }
    ensures others { KeepsSlots slots.old slots.new at n }
{
    let mut from = at + n - 1;
    let mut span = take_one(slots, from);
    while from > at {
        from -= 1;
        let mut page = take_one(slots, from);
        page.join(span);
        span = page;
    }
    span
}

/// Puts the pages of a span, cut apart, into the slots from `at` on. What stood in them is dropped.
pub fn put_run<S: Span>(slots: &mut [Option<S>], at: usize, span: S)
    requires { at + length (S.contents span) ≤ length slots.old }
    ensures filled { AreSpread S.start S.contents (S.start span) (S.contents span)
        slots.new at (length (S.contents span)) }
    ensures others { KeepsSlots slots.old slots.new at (length (S.contents span)) }
{
    let mut rest = span;
    let mut to = at;
    while rest.pages() > 1 {
        let page = rest.cut(1);
        slots[to] = Some(page);
        to += 1;
    }
    slots[to] = Some(rest);
}
