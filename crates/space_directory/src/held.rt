//! The locks of the pages of a run that aren't free.

ghost use Rattle.std.specs.Prelude.{◌≡◌, ◌+◌, ◌^◌, ◌<◌, ◌≤◌, length};
ghost use Rattle.space_directory.specs.SpaceView.{locked_with};

use buddy_map::BuddyMap;
use release_locks::Locks;

/// Locks those of the `n` pages from `at` on that aren't free.
pub fn lock_held(map: &BuddyMap, locks: &mut Locks, at: u32, n: u32)
    requires size { length locks.old ≡ length map.now }
    requires within { at + n ≤ length map.now }
    requires short { length map.now < 2 ^ 32 }
    ensures { locks.new ≡ locked_with map.now locks.old at n }
{
    for page in at..at + n {
        if !map.is_free(page) {
            locks.lock(page, 1);
        }
    }
}
