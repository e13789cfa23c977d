//! A run without faults and want of memory is a function of its commands.

ghost use Rattle.std.specs.Prelude.{◌≡◌, List, map};
ghost use Rattle.history.specs.Event.{Event};
ghost use Rattle.soundness_laws.specs.Keeping.{KeepsSoundness};
ghost use Rattle.length_laws.specs.KeepsLength.{KeepsLength};
ghost use Rattle.store_model.specs.Store.{Store, AreToldSteps};
ghost use Rattle.store_laws.specs.Lengths.{HasLengths};
ghost use Rattle.store_laws.specs.Runs.{AllAskThresholds, IsSoundRest, AllUndisturbed, asked};

use moment_model::Kind;

/// From one store, the same commands have the same replies and lead to the same store, where no
/// reply tells of a fault or of want of memory.
pub fn commands_determine_a_run<K: Kind>()
    ensures { (first last other : Store) (past rest : List Event) → KeepsSoundness K.laid K.good →
        KeepsLength K.laid K.good → IsSoundRest K.good first →
        AllAskThresholds past → HasLengths first.machine first.moment →
        AreToldSteps K.laid first past last → AreToldSteps K.laid first rest other →
        map asked past ≡ map asked rest → AllUndisturbed past → AllUndisturbed rest →
        (rest ≡ past) × (other ≡ last) }
{}
