//! What a shelf knows of the objects on it.

ghost use Rattle.std.specs.Prelude.{◌≡◌, ◌≤◌, ◌^◌, ℕ, List, Option, length};
ghost use Rattle.std.specs.Option.{option_map_or};
ghost use Rattle.eos_ops.specs.declared.end.End.{End};
ghost use Rattle.eos_ops.specs.declared.plain.Plain.{Plain};

/// A value with a history: the ends of the transactions that held it.
pub trait Aged: Drop {
    /// The ends, in order, where they are told.
    ghost told: { Self → Option (List End) };

    /// No transaction has the value in hand: its two versions are equal, and it owns nothing
    /// besides.
    ghost rests: { Self → Type 0 };

    /// The numbers of the store that the value was made for, none for a value in memory.
    ghost frame: { Self → List ℕ };

    /// Where the ends and the contents are told, the ends lead from these contents to its committed
    /// ones.
    ghost legal: { Plain → Self → Type 0 };

    /// How many ends there were, where they are told, else 0.
    fn ends(&self) -> u64
        ensures value { result ≡ option_map_or length (told self.now) 0 }
        ensures within { result ≤ 2 ^ 62 };
}
