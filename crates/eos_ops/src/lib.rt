//! The words that all layers share: commands and replies, edits of one byte string, and ends of
//! transactions.
//!
//! A command asks something of an object, which is absent or a string of bytes. `specs/` says what
//! the plain object answers and what becomes of it; each layer above, whatever it keeps in place of
//! one string, answers by that same definition.
#![tactic(auto)]

mod act;
mod acts;
mod annals;
mod apply;
mod blank;
mod bytes;
mod command;
mod edit;
mod end;
mod kept;
mod limits;
mod made;
mod outcome;
mod payload;
mod plain;
mod reply;
#[cfg(test)]
mod tests;

pub use act::Act;
pub use acts::Acts;
pub use annals::Annals;
pub use apply::apply_plain;
pub use blank::Blank;
pub use bytes::Bytes;
pub use command::Command;
pub use edit::Edit;
pub use end::End;
pub use kept::Kept;
pub use limits::{LAST_STAMP, MAX_HELD, MAX_TRANSFER, SESSIONS};
pub use made::made_byte;
pub use outcome::Outcome;
pub use payload::Payload;
pub use plain::Plain;
pub use reply::Reply;
