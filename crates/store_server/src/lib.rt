//! All sessions over the stored objects of one store as what serves a script: each line that is one
//! of the language is a step of the store.
#![tactic(auto)]

mod server;

pub use server::StoreServer;
