//! A script run from its bytes to the bytes of its replies, over whatever serves the commands.
//!
//! `read_script` takes the whole input, `run_script` cuts it into lines, reads each line, has it served and
//! writes the reply before the next line is read. What a served command means is left to the
//! `Server`.
#![tactic(auto)]

mod failure;
mod lines;
mod read;
mod run;
mod server;
mod words;

pub use failure::{Failure, exit_status, word_of};
pub use read::read_script;
pub use run::run_script;
pub use server::{GaveUp, Server};
pub use words::read_words;
