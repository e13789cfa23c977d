//! Runs of pages of a map that are alike: all free, or none of them.

ghost use Rattle.std.specs.Prelude.{◌≡◌, ℕ, ◌<◌, ◌≤◌, length, true, false};
ghost use Rattle.block_model.specs.Block.{has_page};
ghost use Rattle.space_directory.specs.Runs.{IsNextFree};

use buddy_map::BuddyMap;

/// The first free page from `from` on. It looks at the pages that it passes.
pub fn next_free(map: &BuddyMap, from: u32, pages: u32) -> Option<u32>
    requires size { length map.now ≡ pages }
    ensures { IsNextFree map.now from result }
{
    for at in from..pages {
        if map.is_free(at) {
            return Some(at);
        }
    }
    None
}

/// Where the pages that are alike, free or not, end: those from `at` on.
pub fn run_end(map: &BuddyMap, at: u32, pages: u32) -> u32
    requires size { length map.now ≡ pages }
    requires within { at < pages }
    ensures some { at < result }
    ensures within { result ≤ pages }
    ensures alike { (p : ℕ) → at ≤ p → p < result → has_page map.now p ≡ has_page map.now at }
    ensures other { result < pages → has_page map.now result ≡ has_page map.now at → ⊥ }
{
    let is_free = map.is_free(at);
    for end in at + 1..pages {
        if map.is_free(end) != is_free {
            return end;
        }
    }
    pages
}
