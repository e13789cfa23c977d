//! The parts that an edit makes are put on pages: their pages are asked for, part after part.
#![tactic(auto)]

mod asking;
mod granted;
mod law;
#[cfg(test)]
mod tests;

pub use asking::ask_parts;
pub use granted::{AskFail, Granted};
pub use law::a_need_alone_is_halved;
