//! Laws on the ends of transactions.

ghost use Rattle.std.specs.Prelude.{◌≡◌, ℕ, Bool, true, List, nat_eq};
ghost use Rattle.geometry_model.specs.Numbers.{Numbers};
ghost use Rattle.history.specs.Event.{Event};
ghost use Rattle.history.specs.Holding.{holds, some_upto};
ghost use Rattle.moment_model.specs.Edit.{settled, undone};
ghost use Rattle.moment_model.specs.Moment.{Moment, object_slot, with_object_slot, IsSound};
ghost use Rattle.moment_model.specs.Run.{committed_by, aborted_by, all_aborted};
ghost use Rattle.moment_laws.specs.Change.{held_without};

use moment_model::Kind;

/// An object that is settled, or put back, and let go leaves the moment sound.
pub fn an_end_of_one_object_keeps_soundness<K: Kind>()
    ensures settled { (n : Numbers) (held : ℕ → Bool) (moment : Moment) (o : ℕ) →
        IsSound K.good n held moment →
        IsSound K.good n (held_without held (λ q. nat_eq q o))
        (with_object_slot moment o (settled (object_slot moment o))) }
    ensures undone { (n : Numbers) (held : ℕ → Bool) (moment : Moment) (o : ℕ) →
        IsSound K.good n held moment →
        IsSound K.good n (held_without held (λ q. nat_eq q o))
        (with_object_slot moment o (undone (object_slot moment o))) }
{}

/// A session that commits, or aborts, leaves the moment sound, and what it held is held no more.
pub fn an_end_keeps_soundness<K: Kind>()
    ensures committed { (n : Numbers) (held : ℕ → Bool) (session : ℕ) (past : List Event)
        (moment : Moment) → IsSound K.good n held moment →
        IsSound K.good n (held_without held (λ o. holds session o past))
        (committed_by session past moment) }
    ensures aborted { (n : Numbers) (held : ℕ → Bool) (session : ℕ) (past : List Event)
        (moment : Moment) → IsSound K.good n held moment →
        IsSound K.good n (held_without held (λ o. holds session o past))
        (aborted_by session past moment) }
{}

/// All sessions that abort what they hold leave the moment sound.
pub fn the_end_of_all_keeps_soundness<K: Kind>()
    ensures { (n : Numbers) (held : ℕ → Bool) (sessions : ℕ) (past : List Event)
        (moment : Moment) → IsSound K.good n held moment →
        IsSound K.good n (held_without held (λ o. some_upto sessions (λ s. holds s o past)))
        (all_aborted sessions past moment) }
{}

/// A line that only takes an object leaves the moment sound.
pub fn holding_more_keeps_soundness<K: Kind>()
    ensures { (n : Numbers) (held more : ℕ → Bool) (moment : Moment) →
        ((o : ℕ) → held o ≡ true → more o ≡ true) →
        IsSound K.good n held moment → IsSound K.good n more moment }
{}
