//! Moment and objects have one length.

ghost use Rattle.std.specs.Prelude.{List};
ghost use Rattle.history.specs.Event.{Event};
ghost use Rattle.soundness_laws.specs.Keeping.{KeepsSoundness};
ghost use Rattle.length_laws.specs.KeepsLength.{KeepsLength};
ghost use Rattle.store_model.specs.Store.{Store, AreToldSteps};
ghost use Rattle.store_laws.specs.Lengths.{HasLengths};
ghost use Rattle.store_laws.specs.Runs.{AllAskThresholds, IsSoundRest};

use moment_model::Kind;

/// Where each object is absent in the machine and in the moment, or has one length in both, it is
/// so after the steps too.
pub fn a_run_keeps_lengths<K: Kind>()
    ensures { (first last : Store) (past : List Event) → KeepsSoundness K.laid K.good →
        KeepsLength K.laid K.good → IsSoundRest K.good first →
        AllAskThresholds past → HasLengths first.machine first.moment →
        AreToldSteps K.laid first past last →
        HasLengths last.machine last.moment }
{}
