//! All sessions as one value that runs a command at a time, over plain objects in memory.
//!
//! A world is a shelf with all objects, and for each session its place for a transaction. An object
//! is on the shelf, or with the one transaction that took it. So a world is the machine: a slot for
//! each object, with a committed and a working version, and a seat for each session.
//! `PlainWorld::step` is one step of the machine, with just the reply that is due, or want of
//! memory, and every run of a world is one serial history, by the law of the machine.
//!
//! A command costs time in what it does to its object: a look at one slot, an edit of one working
//! version, and at an end a move for each object that was held. No call goes over all sessions or
//! objects but the first and the last.
#![tactic(auto)]

mod answer;
mod ending;
mod plain_world;
mod serve;
mod start;

pub use plain_world::PlainWorld;
