//! A stored object whose two versions lie in memory: a body that asks for no page.
#![tactic(auto)]

mod copy;
mod plain_body;

pub use plain_body::PlainBody;
