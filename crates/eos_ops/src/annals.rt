//! What is written down of the ends of transactions.

ghost use Rattle.std.specs.Prelude.{◌≡◌, ℕ, ◌+◌, ◌<◌, ◌≤◌, ◌^◌, ◌↔◌, ◌∷◌, [], ◌++◌, List, Option};
ghost use Rattle.std.specs.Prelude.{Bool, true, is_some, IsTrue, IsSome, IfSome, OnOk, OnErr};
ghost use Rattle.std.specs.Prelude.{length};
ghost use Rattle.std.specs.Option.{option_map, option_map_or};
ghost use Rattle.eos_ops.specs.Ends.{last_stamp_of};

use crate::End;
use std::alloc::{AllocError, Global};

/// The ends of the transactions that held an object, in order, or their last stamp alone.
pub trait Annals: Drop {
    ghost use Rattle.eos_ops.specs.declared.end.End.{End};

    /// The ends, where they are told.
    ghost told: { Self → Option (List End) };

    /// The stamp of the last end, 0 where there was none.
    ghost last: { Self → ℕ };

    /// For how many more ends there is room.
    ghost spare: { Self → ℕ };

    /// Whether the ends are told, which is one answer for all values.
    ghost tells: { Bool };

    /// No ends.
    fn start(alloc: Global) -> Self
        ensures told { IfSome (told result) (λ ends. ends ≡ []) }
        ensures last { last result ≡ 0 };

    /// Whether the ends are told. No call changes it.
    fn keeps(&self) -> bool
        ensures told { IsTrue result ↔ IsSome (told self.now) }
        ensures value { result ≡ tells };

    /// Makes room for `n` more ends.
    ///
    /// `AllocError` says that there was no memory for it. The ends stay, and so does the room that there was. Annals
    /// that don't tell their ends take no memory.
    fn reserve(&mut self, n: usize) -> Result<(), AllocError>
        ensures ok { OnOk result (n ≤ spare self.new) }
        ensures err { OnErr result (tells ≡ true) }
        ensures spare { spare self.old ≤ spare self.new }
        ensures told { told self.new ≡ told self.old }
        ensures last { last self.new ≡ last self.old };

    /// Adds an end, in room that was made before. It takes no memory.
    fn append_end(&mut self, end: End)
        requires room { 1 ≤ spare self.old }
        requires above { last self.old < end.stamp }
        requires within { end.stamp ≤ 2 ^ 62 }
        ensures told { told self.new ≡ option_map (λ ends. ends ++ end ∷ []) (told self.old) }
        ensures last { last self.new ≡ end.stamp }
        ensures spare { spare self.old ≤ spare self.new + 1 };

    /// The stamp of the last end, 0 where there was none.
    fn last_stamp(&self) -> u64
        ensures value { result ≡ last self.now }
        ensures within { result ≤ 2 ^ 62 }

        // Where the ends are told it is the last one's, and there are no more ends than it says.
        ensures told { IfSome (told self.now)
            (λ ends. (result ≡ last_stamp_of ends) × (length ends ≤ result)) };

    /// How many ends there were, where they are told, else 0.
    fn ends(&self) -> u64
        ensures { result ≡ option_map_or length (told self.now) 0 };

    ghost tells_all: { (annals : Self) → is_some (told annals) ≡ tells };
}
