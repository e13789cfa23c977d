//! All sessions as one value that runs a command at a time, over stored objects: any body that keeps
//! two versions on the pages of a store.
//!
//! A world is a shelf with all objects, for each session its place for a transaction, the spaces of
//! the store, and a port. An object is on the shelf, or with the one transaction that took it. So a
//! world is a store: the machine of its objects and sessions, and the moment of its pages, with a
//! slot for each object in both. `World::step` is one step of that store.
//!
//! A command costs time in what it does to its object, and at an end in what was held. No call goes
//! over all sessions or objects but the first and the last, and over all spaces but `status`.
#![tactic(auto)]

mod answer;
mod command;
mod ending;
mod serve;
mod sessions;
mod start;
mod status;

pub use sessions::World;
pub use start::Unmade;
