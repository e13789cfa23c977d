//! Transactions over stored objects, whatever their bodies are.
//!
//! A transaction takes the objects that its commands are on, one after the other, and holds each
//! until its end. An edit changes the working version of an object alone. A commit makes the
//! working versions the committed ones, an abort undoes them. The end has a stamp above all that
//! its objects and its session have seen, and the annals of each object write it down, with the
//! acts on that object where they keep acts.
#![tactic(auto)]

mod edit;
mod end;
mod hold;
mod length;
mod note;
mod read;
mod reply;
mod txn;

pub use txn::Txn;
