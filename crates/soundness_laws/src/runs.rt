//! Laws on the moments of a run.

ghost use Rattle.std.specs.Prelude.{◌≡◌, ℕ, false, List, length};
ghost use Rattle.geometry_model.specs.Numbers.{Numbers, IsInRange, objects};
ghost use Rattle.history.specs.Event.{Event};
ghost use Rattle.moment_model.specs.Edit.{edited_slot};
ghost use Rattle.moment_model.specs.Moment.{Moment, IsSound};
ghost use Rattle.moment_model.specs.Run.{moment_of, AllAgree, Run};
ghost use Rattle.moment_model.specs.Version.{IsGood};
ghost use Rattle.soundness_laws.specs.Keeping.{KeepsSoundness};
ghost use Rattle.change_laws.specs.Tail.{HaveTails};
ghost use Rattle.soundness_laws.specs.InOrder.{is_held, AllInOrder};

use moment_model::Kind;

/// Each moment of a run that begins sound, with nothing held, is sound, and what is held in it is
/// what the lines say; each spare follows its object's last segment.
pub fn a_run_keeps_soundness<K: Kind>()
    ensures { (n : Numbers) (sessions : ℕ) (first : Moment) (events : List Event) →
        KeepsSoundness K.laid K.good → IsInRange n → IsSound K.good n (λ o. false) first →
        HaveTails n first →
        AllInOrder sessions events → AllAgree K.laid n first events →
        IsSound K.good n (is_held sessions events) (moment_of K.laid n first events)
        × HaveTails n (moment_of K.laid n first events) }
{}

/// The last moment of a run is sound, with nothing held.
pub fn a_run_ends_sound<K: Kind>()
    ensures { (n : Numbers) (sessions : ℕ) (first last : Moment) (events : List Event) →
        KeepsSoundness K.laid K.good → IsInRange n → IsSound K.good n (λ o. false) first →
        HaveTails n first →
        AllInOrder sessions events → Run K.laid n sessions first events last →
        IsSound K.good n (λ o. false) last }
{}

/// The last moment of a run has a slot for each object.
pub fn a_run_keeps_a_slot_for_each_object<K: Kind>()
    ensures { (n : Numbers) (sessions : ℕ) (first last : Moment) (events : List Event) →
        Run K.laid n sessions first events last → length last ≡ objects n }
{}

/// So it is with trees: each moment of a run is sound, and each spare follows its object's last
/// segment.
pub fn a_run_of_trees_keeps_soundness()
    ensures { (n : Numbers) (sessions : ℕ) (first : Moment) (events : List Event) → IsInRange n →
        IsSound IsGood n (λ o. false) first → HaveTails n first →
        AllInOrder sessions events → AllAgree edited_slot n first events →
        IsSound IsGood n (is_held sessions events) (moment_of edited_slot n first events)
        × HaveTails n (moment_of edited_slot n first events) }
{}

/// And the last moment of a run of trees is sound, with nothing held.
pub fn a_run_of_trees_ends_sound()
    ensures { (n : Numbers) (sessions : ℕ) (first last : Moment) (events : List Event) →
        IsInRange n → IsSound IsGood n (λ o. false) first → HaveTails n first →
        AllInOrder sessions events → Run edited_slot n sessions first events last →
        IsSound IsGood n (λ o. false) last }
{}
