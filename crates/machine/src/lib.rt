//! The machine that all stores of objects are: slots with two versions, sessions, and the law that
//! each of its runs is one serial history.
//!
//! There is no code that runs here. A layer that has sessions shows the machine as its model, and
//! its step is one step of the machine; so what is proved of every list of events holds of the
//! layer.
#![tactic(auto)]

mod law;

pub use law::{
    contents_decide_nothing_owed, every_machine_is_serial, every_owed_reply_has_its_cause,
    every_reply_has_its_cause, every_run_is_owed, every_run_is_serial, new_objects_are_at_rest,
};
