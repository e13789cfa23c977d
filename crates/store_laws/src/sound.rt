//! The moments of a run are sound.

ghost use Rattle.std.specs.Prelude.{◌≡◌, ℕ, false, List, length};
ghost use Rattle.geometry_model.specs.Numbers.{IsInRange, objects};
ghost use Rattle.history.specs.Event.{Event};
ghost use Rattle.machine.specs.Machine.{Machine, AtRest};
ghost use Rattle.machine.specs.Runs.{IsRun};
ghost use Rattle.moment_model.specs.Moment.{IsSound};
ghost use Rattle.moment_model.specs.Run.{all_aborted};
ghost use Rattle.soundness_laws.specs.Keeping.{KeepsSoundness};
ghost use Rattle.change_laws.specs.Tail.{HaveTails};
ghost use Rattle.soundness_laws.specs.InOrder.{is_held, AllInOrder};
ghost use Rattle.store_model.specs.Store.{Store, AreToldSteps};
ghost use Rattle.store_laws.specs.Runs.{AllAskThresholds, IsSoundRest};

use moment_model::Kind;

/// The lines of a run are in order, where none asks for a threshold of 0.
pub fn a_run_is_in_order()
    ensures { (m : Machine) (past : List Event) → AtRest m → IsRun m past → AllAskThresholds past →
        AllInOrder (length m.seats) past }
{}

/// Each moment of the steps from a sound rest is sound, with what the lines hold, and each spare
/// follows its object's last segment.
pub fn steps_keep_soundness<K: Kind>()
    ensures { (first last : Store) (past : List Event) → KeepsSoundness K.laid K.good →
        IsSoundRest K.good first →
        AllAskThresholds past → AreToldSteps K.laid first past last →
        IsSound K.good last.numbers (is_held (length first.machine.seats) past) last.moment
        × HaveTails last.numbers last.moment }
{}

/// And once all sessions have aborted what they hold it is sound with nothing held.
pub fn steps_end_sound<K: Kind>()
    ensures { (first last : Store) (past : List Event) → KeepsSoundness K.laid K.good →
        IsSoundRest K.good first →
        AllAskThresholds past → AreToldSteps K.laid first past last →
        IsSound K.good last.numbers (λ o. false)
        (all_aborted (length first.machine.seats) past last.moment) }
{}
