//! Laws of the definitions, each the contract of a function that does nothing.

ghost use Rattle.std.specs.Prelude.{◌≡◌, ℕ, ◌+◌, List, ◌++◌, IsTrue};
ghost use Rattle.eos_ops.specs.declared.plain.Plain.{Plain};
ghost use Rattle.history.specs.Event.{Event};
ghost use Rattle.history.specs.Holding.{holds};
ghost use Rattle.history.specs.Serial.{Serial};
ghost use Rattle.history.specs.Transactions.{Ended, is_open};

/// The ends and the first database leave no choice for the last one.
pub fn ends_determine_the_database()
    ensures { (db left right : List Plain) (ends : List Ended) → Serial db ends left →
        Serial db ends right → left ≡ right }
{}

/// Only a session with an open transaction holds anything.
pub fn open_transactions_hold()
    ensures { (s o : ℕ) (past : List Event) → IsTrue (holds s o past) → IsTrue (is_open s past) }
{}
