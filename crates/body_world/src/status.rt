//! The counts of all pages.

ghost use Rattle.std.specs.Prelude.{◌≡◌, ◌+◌, ◌*◌, ◌<◌, ◌≤◌, List, Some, None, slice_get, length};
ghost use Rattle.moment_model.specs.Moment.{count_pages};
ghost use Rattle.space_directory.specs.SpaceView.{SpaceView};
ghost use Rattle.superdirectory.specs.Grants.{AreTold, KeepsFrame, free_sets};
ghost use Rattle.superdirectory.specs.Rest.{count};
ghost use Rattle.superdirectory.specs.Solo.{rest_of};
ghost use Rattle.body_world.specs.Keeping.{locked_sets};
ghost use Rattle.body_world.specs.Status.{IsCounted};

use page_port::Span;
use superdirectory::{Hints, Latches, Solo};

/// How many pages are free, release-locked, and neither.
#[derive(Clone, Copy, Debug)]
pub struct Counted {
    pub free: u32,
    pub locked: u32,
    pub held: u32,
}

/// The counts over all spaces, which are as before after it.
pub fn count_all<S: Span>(spaces: &mut Solo<S>) -> Counted
    requires none { (rest_of spaces.old).entered ≡ None }
    ensures told { (views : List SpaceView) → AreTold (rest_of spaces.old) views →
        length views ≡ count (rest_of spaces.old) →
        (result.free ≡ count_pages (free_sets views))
        × (result.locked ≡ count_pages (locked_sets views))
        × AreTold (rest_of spaces.new) views }
    ensures all { result.free + result.locked + result.held
        ≡ count (rest_of spaces.old) * spaces.old.pages }
    ensures frame { KeepsFrame (rest_of spaces.old) (rest_of spaces.new) }
{
    let mut sum = Counted {
        free: 0,
        locked: 0,
        held: 0,
    };
    for s in 0..spaces.spaces() {
        let one = count_one(spaces, s);
        sum.free += one.free;
        sum.locked += one.locked;
        sum.held += one.held;
    }
    sum
}

/// The counts of one space.
fn count_one<S: Span>(spaces: &mut Solo<S>, s: u16) -> Counted
    requires none { (rest_of spaces.old).entered ≡ None }
    requires number { s < count (rest_of spaces.old) }
    ensures told { (views : List SpaceView) (v : SpaceView) → AreTold (rest_of spaces.old) views →
        slice_get views s ≡ Some v → IsCounted v result.free result.locked
        × AreTold (rest_of spaces.new) views }
    ensures all { result.free + result.locked + result.held ≡ spaces.old.pages }
    ensures few { spaces.old.pages ≤ 16384 }
    ensures frame { KeepsFrame (rest_of spaces.old) (rest_of spaces.new) }
{
    let space = spaces.enter(&mut (), s);
    let counts = space.counts();
    let pages = space.pages();
    spaces.leave(s, space);
    Counted {
        free: counts.free,
        locked: counts.locked,
        held: pages - counts.free - counts.locked,
    }
}
