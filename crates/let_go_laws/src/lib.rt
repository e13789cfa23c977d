//! Laws on the pages that a change lets go: they lie in the runs of the entries and nodes that it
//! replaces and of the old spare, and of them those that the committed version uses are locked, and
//! the others free.
//!
//! Each law is a function with no argument and no code, whose clause is the law; the lemmas that
//! crates above cite stand in `proofs/LetGoLemmas.antt`.
#![tactic(auto)]

mod letting_go;

pub use letting_go::{
    a_change_gives_and_locks, a_change_lets_runs_go, dropped_pages_are_free_or_locked,
};
