//! The text of scripts: lines read as commands, and replies written as lines.
//!
//! The grammar and the replies' text are those of `script_model`. A line is read exactly where the
//! grammar has it, and the reply of a line goes out in one call of the sink where it is short.
#![tactic(auto)]

mod arguments;
mod draft;
mod laws;
mod line;
mod made;
mod number;
mod read_command;
mod read_payload;
mod reply;
mod verb;
mod words;

pub use draft::Draft;
pub use eos_ops::made_byte;
pub use laws::a_text_is_one_line;
pub use line::{LineFail, read_line};
pub use made::payload;
pub use reply::{write_no_line, write_reply, write_reply_with};
pub use script_model::Line;

#[cfg(test)]
mod tests;
