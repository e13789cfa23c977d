//! Transactions over objects in two versions.
//!
//! A transaction takes the objects that its commands are on, one after the other, and holds each
//! until its end. An edit changes the working version of an object alone. A commit makes the
//! working versions the committed ones, an abort forgets them. The end has a stamp above all that
//! its objects and its session have seen, and the annals of each object write it down, with the
//! acts on that object where they keep acts.
#![tactic(auto)]

mod act;
mod annals_room;
mod end;
mod fails;
mod first_edit;
mod held;
mod hold;
mod noting;
mod plain_object;
mod reply;
#[cfg(test)]
mod test_session;
#[cfg(test)]
mod tests;
mod txn;

pub use annals_room::make_room;
pub use fails::{BeginFail, HoldFail, TxnFail};
pub use held::{Held, place_of};
pub use noting::{command_of, with_room};
pub use plain_object::PlainObject;
pub use reply::{is_own, reply_of_fail, reply_of_length, reply_of_outcome, reply_of_read};
pub use txn::Txn;
