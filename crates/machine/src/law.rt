//! The laws of the machine, each the contract of a function that does nothing.

ghost use Rattle.std.specs.Prelude.{◌≡◌, ℕ, ◌≤◌, ◌^◌, List, length};
ghost use Rattle.eos_ops.specs.declared.command.Command.{Command};
ghost use Rattle.eos_ops.specs.declared.plain.Plain.{Plain};
ghost use Rattle.eos_ops.specs.declared.reply.Reply.{Reply};
ghost use Rattle.history.specs.Event.{Event, Deed};
ghost use Rattle.history.specs.Refusals.{AllCaused};
ghost use Rattle.history.specs.Serial.{Serial};
ghost use Rattle.history.specs.Transactions.{ends};
ghost use Rattle.machine.specs.Machine.{Machine, AtRest, bare, database, fresh};
ghost use Rattle.machine.specs.Next.{next};
ghost use Rattle.machine.specs.Replies.{refused, Owes};
ghost use Rattle.machine.specs.Runs.{IsRun, IsOwedRun, MayRun, state_after};

/// Whatever the sessions ask, the ends of a run are serial, from any machine with nothing open.
/// What is open in the end counts as aborted.
pub fn every_run_is_serial()
    ensures { (m : Machine) (past : List Event) → AtRest m → IsRun m past →
        Serial (database m) (ends (length m.seats) past) (database (state_after m past)) }
{}

/// The same of any machine, whichever refusals it gives, that lets each deed come only where it
/// may: a begin where nothing is open, an act where its session can use the object and with that
/// object's reply.
pub fn every_machine_is_serial()
    ensures { (m : Machine) (past : List Event) → AtRest m → MayRun m past →
        Serial (database m) (ends (length m.seats) past) (database (state_after m past)) }
{}

/// In a run of at most `2^62` events over new objects, each reply has its cause in the events
/// before it.
pub fn every_reply_has_its_cause()
    ensures { (n : ℕ) (db : List Plain) (past : List Event) → IsRun (fresh n db) past →
        length past ≤ 2 ^ 62 →
        AllCaused n (length db) past }
{}

/// The same of any store over new objects, whatever its objects hold, whose replies are owed: the
/// first refusal by who is active and who holds what, or an answer of whatever contents.
pub fn every_owed_reply_has_its_cause()
    ensures { (n : ℕ) (db : List Plain) (past : List Event) → IsOwedRun (fresh n db) past →
        length past ≤ 2 ^ 62 →
        AllCaused n (length db) past }
{}

/// Contents don't decide what is owed: a machine owes what it owes with its contents forgotten.
pub fn contents_decide_nothing_owed()
    ensures refusal { (m : Machine) (s : ℕ) (c : Command) → refused (bare m) s c ≡ refused m s c }
    ensures owes { (m : Machine) (s : ℕ) (c : Command) (r : Reply) → Owes m s c r →
        Owes (bare m) s c r }
    ensures moves { (m : Machine) (s : ℕ) (d : Deed) →
        bare (next (bare m) s d) ≡ bare (next m s d) }
{}

/// A run of the machine is one of owed replies.
pub fn every_run_is_owed()
    ensures { (m : Machine) (past : List Event) → IsRun m past → IsOwedRun m past }
{}

/// New objects are at rest, and are the database that they were made of.
pub fn new_objects_are_at_rest()
    ensures rest { (n : ℕ) (db : List Plain) → AtRest (fresh n db) }
    ensures same { (n : ℕ) (db : List Plain) → database (fresh n db) ≡ db }
{}
