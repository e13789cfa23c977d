//! Laws on soundness: an edit on granted pages keeps a sound moment sound, and so does each answered
//! line of a run, from a first moment to the last.
//!
//! Each law is a function with no argument and no code, whose clause is the law; the lemmas that
//! crates above cite stand in `proofs/`: `EditLemmas` on one edit, `RunLemmas` on a run.
#![tactic(auto)]

mod edits;
mod runs;

pub use edits::{an_edit_keeps_soundness, free_pages_after_a_laid_change};
pub use runs::{
    a_run_ends_sound, a_run_keeps_a_slot_for_each_object, a_run_keeps_soundness,
    a_run_of_trees_ends_sound, a_run_of_trees_keeps_soundness,
};
