//! A law on the first moment of a store.

ghost use Rattle.std.specs.Prelude.{◌≡◌, ℕ, Bool, true, false, replicate};
ghost use Rattle.geometry_model.specs.Numbers.{Numbers};
ghost use Rattle.moment_model.specs.Moment.{Moment, absent_slot, is_free, is_locked, IsAllAbsent};
ghost use Rattle.moment_model.specs.Moment.{IsSound};
ghost use Rattle.change_laws.specs.Tail.{HaveTails};

use moment_model::Kind;

/// A store of absent objects is sound whatever is held, has no spare, and all its pages are free.
pub fn a_store_of_absent_objects_is_sound<K: Kind>()
    ensures fresh { (objects : ℕ) → IsAllAbsent (replicate objects absent_slot) }
    ensures sound { (n : Numbers) (held : ℕ → Bool) (moment : Moment) → IsAllAbsent moment →
        IsSound K.good n held moment }
    ensures tails { (n : Numbers) (moment : Moment) → IsAllAbsent moment → HaveTails n moment }
    ensures free { (n : Numbers) (moment : Moment) → IsAllAbsent moment → (page : ℕ) →
        is_free n page moment ≡ true }
    ensures locked { (n : Numbers) (moment : Moment) → IsAllAbsent moment → (page : ℕ) →
        is_locked n page moment ≡ false }
{}
