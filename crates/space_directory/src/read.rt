//! A space read off its directory page.

ghost use Rattle.std.specs.Prelude.{◌≡◌, ◌+◌, ◌/◌, ◌^◌, ◌≤◌, [], length, replicate, false, IfOk};
ghost use Rattle.std.specs.Prelude.{IfErr, None, vec_capacity};
ghost use Rattle.geometry_model.specs.Numbers.{space_pages};
ghost use Rattle.page_port.specs.Pages.{IsSized};
ghost use Rattle.space_directory.specs.SpaceView.{IsSpace};
ghost use Rattle.space_directory.specs.Opening.{IsRead, IsDirectory, AreUsedRuns, IsSpaceSize};

use crate::cut::cut_apart;
use crate::directory::read_map;
use crate::refused::{SpaceFail, SpaceRefused};
use crate::space::Space;
use page_port::{Geometry, Span};
use release_locks::Locks;
use std::alloc::{AllocError, Global};

/// A space, and the spans of its pages that aren't free, one a run, in the order of their numbers.
#[derive(Drop)]
pub struct ReadSpace<S: Span> {
    pub space: Space<S>,
    pub used: Vec<S>,
}

/// What a space needs memory for: one lock and one slot a page, and a list of runs.
#[derive(Drop)]
struct Room<S: Span> {
    locks: Locks,
    slots: Vec<Option<S>>,
    used: Vec<S>,
}

impl<S: Span> Space<S> {
    /// Reads space `s` of a store off its directory page. `span` is its data pages.
    ///
    /// # Errors
    /// `BadDirectory` comes exactly where the page isn't the directory page of any set of free
    /// pages of this space. A refusal hands the span back: all memory is taken before the first
    /// cut.
    pub fn read_page(
        alloc: Global,
        geometry: &Geometry,
        s: u16,
        page: &[u8],
        span: S,
    ) -> Result<ReadSpace<S>, SpaceRefused<S>>
        requires count { length (S.contents span) ≡ space_pages geometry.now }
        requires sized { IsSized S.tells geometry.now.page (S.contents span) }
        ensures read { IfOk result (λ r. IsRead page.now geometry.now.page s geometry.now.order
            (S.start span) (S.contents span) r.space) }
        ensures used { IfOk result (λ r. AreUsedRuns S.start S.contents (S.start span) r.space.free
            (S.contents span) r.used.items) }
        ensures space { IfOk result (λ r. IsSpace r.space) }

        // A refusal keeps nothing, and has its cause.
        ensures refused { IfErr result (λ e. e.span ≡ span) }
        ensures bad { IfErr result (λ e. e.why ≡ SpaceFail.BadDirectory
            → IsDirectory page.now geometry.now.page s geometry.now.order → ⊥) }
    {
        let size = geometry.page();
        let order = geometry.order() as u8;
        read_space(alloc, size, order, s, page, span)
    }
}

/// Reads space `number` of `2^order` pages of `size` bytes.
fn read_space<S: Span>(
    alloc: Global,
    size: u32,
    order: u8,
    number: u16,
    page: &[u8],
    span: S,
) -> Result<ReadSpace<S>, SpaceRefused<S>>
    requires numbers { IsSpaceSize order size }
    requires count { length (S.contents span) ≡ 2 ^ order }
    requires sized { IsSized S.tells size (S.contents span) }
    ensures read { IfOk result (λ r. IsRead page.now size number order
        (S.start span) (S.contents span) r.space) }
    ensures used { IfOk result (λ r. AreUsedRuns S.start S.contents (S.start span) r.space.free
        (S.contents span) r.used.items) }
    ensures space { IfOk result (λ r. IsSpace r.space) }

    // A refusal keeps nothing, and has its cause.
    ensures refused { IfErr result (λ e. e.span ≡ span) }
    ensures bad { IfErr result (λ e. e.why ≡ SpaceFail.BadDirectory
        → IsDirectory page.now size number order → ⊥) }
{
    let pages = span.pages();
    let map = match read_map(alloc, size, order, number, page) {
        Ok(map) => map,
        Err(why) => return Err(SpaceRefused { why, span }),
    };
    let Ok(room) = make_room(alloc, pages) else {
        let why = SpaceFail::Memory;
        return Err(SpaceRefused { why, span });
    };
    let Room {
        locks,
        slots: mut spans,
        mut used,
    } = room;
    let first = span.first();
    cut_apart(span, &map, &mut spans, &mut used);
    let space = Space {
        number,
        page: size,
        first,
        map,
        locks,
        spans,
        low: 0,
    };
    Ok(ReadSpace { space, used })
}

/// Takes the memory for a space of `pages` pages.
fn make_room<S: Span>(alloc: Global, pages: u32) -> Result<Room<S>, AllocError>
    ensures locks { IfOk result (λ room. room.locks ≡ replicate pages false) }
    ensures slots { IfOk result (λ room. room.slots.items ≡ replicate pages None) }
    ensures used { IfOk result (λ room. room.used.items ≡ []) }
    ensures capacity { IfOk result (λ room. pages ≤ vec_capacity room.used) }
{
    let locks = Locks::new(alloc, pages)?;
    let slots = empty_slots(alloc, pages)?;
    let used = Vec::with_capacity(alloc, pages as usize)?;
    Ok(Room { locks, slots, used })
}

/// That many empty slots.
fn empty_slots<S: Span>(alloc: Global, pages: u32) -> Result<Vec<Option<S>>, AllocError>
    ensures { IfOk result (λ slots. slots.items ≡ replicate pages None) }
{
    let mut slots = Vec::with_capacity(alloc, pages as usize)?;
    for _page in 0..pages {
        slots.push_reserved(None);
    }
    Ok(slots)
}
