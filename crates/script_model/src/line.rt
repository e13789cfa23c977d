//! A line of a script.

use eos_ops::Command;

/// A command and the session that gives it, from 1 to 64.
#[derive(Debug, Drop)]
pub struct Line {
    /// Whose command it is.
    pub session: u32,
    /// What it asks for.
    pub command: Command,
}
