//! A page that is owned, or none: asked for, given back, locked and unlocked.

ghost use Rattle.std.specs.Prelude.{◌≡◌, ◌<◌, ◌≤◌, ◌==◌, length, None, Some, IfSome, IfOk, IfErr};
ghost use Rattle.std.specs.Prelude.{Err, option_map, is_some, false};
ghost use Rattle.page_port.specs.Pages.{IsSized};
ghost use Rattle.superdirectory.specs.Grants.{IsRunIn};
ghost use Rattle.superdirectory.specs.Rest.{count};
ghost use Rattle.body_double.specs.Page.{BeginApart, UsesPage, UsesDropped, IsGrantedPage};
ghost use Rattle.body_double.specs.Page.{IsNotAsked, giving, locking, unlocking};

use object_body::EditFail;
use page_port::Span;
use space_directory::Segment;
use superdirectory::{Hints, Latches, grant, lock_run, release, unlock_run};

/// Asks for a page. One that is owned already is given back: the spaces that granted it lie.
///
/// # Errors
/// `NoSpace` of one page, and `Memory` where the page is owned already.
pub fn ask<S: Span, L: Latches<S = S>>(
    latches: &mut L,
    turn: &mut L::Turn,
    start: u16,
    committed: &Option<Segment<S>>,
    fresh: &Option<Segment<S>>,
) -> Result<Segment<S>, EditFail>
    requires start { start < count (L.rest latches.old) }
    requires none { (L.rest latches.old).entered ≡ None }
    requires fits { 1 ≤ (L.rest latches.old).frame.pages }
    ensures granted { IfOk result (λ g. IsGrantedPage S.tells start
        (record { space = g.space; first = S.start g.span; pages = S.contents g.span })
        (L.rest latches.old) (L.rest latches.new) (L.trace latches.old) (L.trace latches.new)) }
    ensures apart { IfOk result (λ g. BeginApart
        (option_map (λ g. record {
          space = g.space;
          first = S.start g.span;
          pages =
              S.contents g.span;
        }) committed.now)
        (Some (record { space = g.space; first = S.start g.span; pages = S.contents g.span }))) }
    ensures refused { IfErr result (λ fail. IsNotAsked start fail
        (L.rest latches.old) (L.rest latches.new) (L.trace latches.old) (L.trace latches.new)) }
    ensures owned { committed.now ≡ None → fresh.now ≡ None → result ≡ Err EditFail.Memory → ⊥ }
{
    let segment = match grant(latches, turn, start, 1) {
        Ok(segment) => segment,
        Err(refused) => return Err(EditFail::NoSpace(refused.pages)),
    };
    let first = segment.span.first();
    if is_at(committed, first) || is_at(fresh, first) {
        release(latches, turn, segment);
        return Err(EditFail::Memory);
    }
    Ok(segment)
}

/// Is there such a page, and does it have this number?
fn is_at<S: Span>(page: &Option<Segment<S>>, first: u32) -> bool
    ensures there { IfSome page.now (λ g. result ≡ (S.start g.span == first)) }
    ensures none { page.now ≡ None → result ≡ false }
{
    match page {
        Some(segment) => segment.span.first() == first,
        None => false,
    }
}

/// Gives the page back: it is free in its space, and not locked.
pub fn give_back<S: Span, L: Latches<S = S>>(
    latches: &mut L,
    turn: &mut L::Turn,
    page: Option<Segment<S>>,
)
    requires none { (L.rest latches.old).entered ≡ None }
    requires run { IfSome page (λ g. IsRunIn (L.rest latches.old).frame g.space (S.start g.span)
        (length (S.contents g.span))) }
    requires sized { IfSome page (λ g. IsSized S.tells (L.rest latches.old).frame.page
        (S.contents g.span)) }
    ensures { UsesPage giving
        (option_map (λ g. record {
          space = g.space;
          first = S.start g.span;
          pages =
              S.contents g.span;
        }) page)
        (L.rest latches.old) (L.rest latches.new) (L.trace latches.old) (L.trace latches.new) }
{
    if let Some(segment) = page {
        release(latches, turn, segment);
        return;
    }
}

/// Locks the page, where it isn't free.
pub fn lock<S: Span, L: Latches<S = S>>(
    latches: &mut L,
    turn: &mut L::Turn,
    page: &Option<Segment<S>>,
)
    requires none { (L.rest latches.old).entered ≡ None }
    requires run { IfSome page.now (λ g. IsRunIn (L.rest latches.old).frame g.space (S.start g.span)
        (length (S.contents g.span))) }
    ensures { UsesPage locking
        (option_map (λ g. record {
          space = g.space;
          first = S.start g.span;
          pages =
              S.contents g.span;
        }) page.now)
        (L.rest latches.old) (L.rest latches.new) (L.trace latches.old) (L.trace latches.new) }
{
    if let Some(segment) = page {
        let first = segment.span.first();
        let pages = segment.span.pages();
        lock_run(latches, turn, segment.space, first, pages);
        return;
    }
}

/// Unlocks the page.
pub fn unlock<S: Span, L: Latches<S = S>>(
    latches: &mut L,
    turn: &mut L::Turn,
    page: &Option<Segment<S>>,
)
    requires none { (L.rest latches.old).entered ≡ None }
    requires run { IfSome page.now (λ g. IsRunIn (L.rest latches.old).frame g.space (S.start g.span)
        (length (S.contents g.span))) }
    ensures { UsesPage unlocking
        (option_map (λ g. record {
          space = g.space;
          first = S.start g.span;
          pages =
              S.contents g.span;
        }) page.now)
        (L.rest latches.old) (L.rest latches.new) (L.trace latches.old) (L.trace latches.new) }
{
    if let Some(segment) = page {
        let first = segment.span.first();
        let pages = segment.span.pages();
        unlock_run(latches, turn, segment.space, first, pages);
        return;
    }
}

/// Drops the working page: a fresh one goes back, and else the committed one is locked, where it
/// wasn't dropped before.
pub fn drop_page<S: Span, L: Latches<S = S>>(
    latches: &mut L,
    turn: &mut L::Turn,
    fresh: &mut Option<Segment<S>>,
    committed: &Option<Segment<S>>,
    dropped: bool,
)
    requires none { (L.rest latches.old).entered ≡ None }
    requires run { IfSome committed.now
        (λ g. IsRunIn (L.rest latches.old).frame g.space (S.start g.span)
        (length (S.contents g.span))) }
    requires fresh_run { IfSome fresh.old
        (λ g. IsRunIn (L.rest latches.old).frame g.space (S.start g.span)
        (length (S.contents g.span))) }
    requires sized { IfSome fresh.old
        (λ g. IsSized S.tells (L.rest latches.old).frame.page (S.contents g.span)) }
    ensures taken { fresh.new ≡ None }
    ensures used { UsesDropped
        (option_map (λ g. record {
          space = g.space;
          first = S.start g.span;
          pages =
              S.contents g.span;
        }) fresh.old)
        (option_map (λ g. record {
          space = g.space;
          first = S.start g.span;
          pages =
              S.contents g.span;
        }) committed.now)
        dropped
        (L.rest latches.old) (L.rest latches.new) (L.trace latches.old) (L.trace latches.new) }
{
    if fresh.is_some() {
        give_back(latches, turn, fresh.take());
        return;
    }
    if dropped {
        return;
    }
    lock(latches, turn, committed);
}
