//! From steps to a run.

ghost use Rattle.std.specs.Prelude.{◌≡◌, ℕ, ◌≤◌, ◌^◌, List, length};
ghost use Rattle.eos_ops.specs.declared.plain.Plain.{Plain};
ghost use Rattle.history.specs.Event.{Event};
ghost use Rattle.history.specs.Refusals.{AllCaused};
ghost use Rattle.history.specs.Serial.{Serial};
ghost use Rattle.history.specs.Transactions.{ends};
ghost use Rattle.machine.specs.Machine.{Machine, AtRest, database, fresh};
ghost use Rattle.moment_model.specs.Run.{Lays};
ghost use Rattle.store_model.specs.Store.{Store, AreToldSteps, AreOwedSteps};
ghost use Rattle.store_laws.specs.Runs.{IsToldRun};

/// Steps of a told store from one at rest are a run of the machine and of the moment.
pub fn told_steps_make_a_run()
    ensures { (laid : Lays) (first last : Store) (past : List Event) → AtRest first.machine →
        AreToldSteps laid first past last → IsToldRun laid first past last }
{}

/// So the ends of its transactions are serial. What is open in the end counts as aborted.
pub fn told_steps_are_serial()
    ensures { (laid : Lays) (first last : Store) (past : List Event) → AtRest first.machine →
        AreToldSteps laid first past last →
        Serial (database first.machine) (ends (length first.machine.seats) past)
        (database last.machine) }
{}

/// What a told store answers is owed.
pub fn told_steps_are_owed()
    ensures { (laid : Lays) (first last : Store) (past : List Event) →
        AreToldSteps laid first past last →
        AreOwedSteps first.machine past last.machine }
{}

/// Over every device, told or not, each reply of at most `2^62` steps over new objects has its
/// cause in those before it.
pub fn owed_steps_have_their_causes()
    ensures { (n : ℕ) (db : List Plain) (last : Machine) (past : List Event) →
        AreOwedSteps (fresh n db) past last →
        length past ≤ 2 ^ 62 → AllCaused n (length db) past }
{}
