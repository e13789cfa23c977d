//! One span of a vector: put into its place, cut in two, or used from a page on.

ghost use Rattle.std.specs.Prelude.{◌≡◌, ◌+◌, ◌-◌, ◌^◌, ◌<◌, ◌≤◌, length, min, slice_index_or};
ghost use Rattle.std.specs.Prelude.{vec_len, vec_capacity};
ghost use Rattle.std.specs.List.{insert};
ghost use Rattle.span_store.specs.Held.{spans_of};
ghost use Rattle.span_store.specs.Order.{no_span, with_cut};

use page_port::Span;

/// Puts a span before the one at `index`. It takes no memory.
pub fn put<T: Drop>(spans: &mut Vec<T>, index: usize, span: T)
    requires within { index ≤ vec_len spans.old }
    requires room { vec_len spans.old < vec_capacity spans.old }
    ensures items { spans.new.items ≡ insert spans.old.items index span }
    ensures count { vec_len spans.new ≡ vec_len spans.old + 1 }
    ensures room { vec_capacity spans.new ≡ vec_capacity spans.old }
{
    let Ok(()) = spans.insert(index, span) else {
        unreachable!()
    };
}

/// Cuts the first `n` pages off a span and puts them before it. It takes no memory.
pub fn cut<S: Span>(spans: &mut Vec<S>, index: usize, n: u32)
    requires within { index < vec_len spans.old }
    requires some { 1 ≤ n }
    requires fewer { n < length (slice_index_or
        (spans_of S.start S.contents spans.old.items) index no_span).pages }
    requires room { vec_len spans.old < vec_capacity spans.old }
    ensures cut { spans_of S.start S.contents spans.new.items
        ≡ with_cut (spans_of S.start S.contents spans.old.items) index n }
    ensures count { vec_len spans.new ≡ vec_len spans.old + 1 }
    ensures room { vec_capacity spans.new ≡ vec_capacity spans.old }
{
    let front = spans[index].cut(n);
    put(spans, index, front);
}

/// How many pages a span has from `page` on, at most `most`.
pub fn pages_from<S: Span>(span: &S, page: u32, most: usize) -> usize
    requires from { S.start span.now ≤ page }
    requires to { page < S.start span.now + length (S.contents span.now) }
    ensures pages { result ≡ min (S.start span.now + length (S.contents span.now) - page) most }
    ensures fits { page + result < 2 ^ 32 }
{
    let end = span.first() + span.pages();
    ((end - page) as usize).min(most)
}
