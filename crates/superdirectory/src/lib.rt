//! Grants over many spaces: each space's hint is looked at once, and a space is entered only where
//! its hint shows room.
//!
//! The calls are generic in how the spaces are reached. `Solo` holds them for one thread, with
//! exact hints.
#![tactic(auto)]

mod giving;
mod granting;
mod hint;
mod latches;
mod parts;
mod solo;
#[cfg(test)]
mod tests;
mod try_space;

pub use giving::{give_all, lock_run, release, unlock_run};
pub use granting::grant;
pub use hint::{Hint, NoSpace};
pub use latches::{Hints, Latches};
pub use parts::grant_parts;
pub use solo::Solo;
