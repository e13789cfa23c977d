//! What is known of a space without entering it.

ghost use Rattle.std.specs.Prelude.{◌≡◌, ◌↔◌, ◌<◌, ◌≤◌, ◌^◌, length, IsTrue};
ghost use Rattle.block_model.specs.Place.{hint_of};

use buddy_map::BuddyMap;

/// The superdirectory entry of a space, an upper bound only: 0 says that no block is free, and
/// `j + 1` that no free block has an order above `j`.
#[derive(Clone, Copy, Debug, PartialEq, Eq)]
pub struct Hint(pub u8);

impl Hint {
    /// The exact hint of a space with these free pages.
    pub fn of(free: &BuddyMap) -> Hint
        requires { length free.now ≤ 2 ^ 14 }
        ensures { result.0 ≡ hint_of free.now }
    {
        match free.largest() {
            Some(order) => Hint(order + 1),
            None => Hint(0),
        }
    }

    /// Whether a block of this order may be free.
    pub fn admits(self, order: u8) -> bool
        ensures { IsTrue result ↔ (order < self.0) }
    {
        order < self.0
    }
}

/// No space has a block for that many pages.
#[derive(Clone, Copy, Debug, PartialEq, Eq)]
pub struct NoSpace {
    /// The number of pages that were asked for in one piece.
    pub pages: u32,
}
