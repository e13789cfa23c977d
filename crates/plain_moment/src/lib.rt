//! A store between two commands by a plain program: its slots, its free and locked pages, and what
//! a command makes of them.
//!
//! The functions are slow and short, and their contracts are the definitions of `moment_model`.
//! They are no part of the product: they serve tests, and whoever wants to try the definitions out.
//! Where a number passes its type they give up by `Fail::Big`.
#![tactic(auto)]

mod answering;
mod command;
mod counting;
mod counts;
mod editing;
mod effect;
mod ending;
mod holding;
mod moment;
mod plain_store;
mod slot;
mod using;
mod version;

pub use answering::answer_to;
pub use command::edit_of;
pub use counting::{count_pages, free_of, locked_of};
pub use counts::{Counts, counts_of};
pub use editing::{edited_slot, effect_on};
pub use effect::Effect;
pub use ending::{ended_by, let_go, settled, undone};
pub use moment::fresh;
pub use plain_store::PlainStore;
pub use slot::ObjectSlot;
pub use using::{all_committed_runs, all_working_runs};
pub use version::{copy_version, tree_bytes, version_runs};
