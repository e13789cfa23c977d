//! Laws on the steps of a store: that they make a run, serial and with its causes; that each moment
//! of it is sound; that moment and objects have one length; and that a run without faults and want
//! of memory is a function of its commands.
//!
//! Each law is a function with no argument and no code, whose clause is the law. The lemmas that
//! crates above cite stand in `proofs/`; worked steps stand in `proofs/Worked.antt`.
#![tactic(auto)]

mod answers;
mod lengths;
mod sound;
mod steps;

pub use answers::commands_determine_a_run;
pub use lengths::a_run_keeps_lengths;
pub use sound::{a_run_is_in_order, steps_end_sound, steps_keep_soundness};
pub use steps::{
    owed_steps_have_their_causes, told_steps_are_owed, told_steps_are_serial, told_steps_make_a_run,
};
