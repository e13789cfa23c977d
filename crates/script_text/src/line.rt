//! One line of a script.
ghost use Rattle.std.specs.Prelude.{◌≡◌, ℕ, IfOk, IfErr};
ghost use Rattle.script_model.specs.Grammar.{IsLine, IsNoLine};
ghost use Rattle.script_text.specs.Failing.{Explains};

use crate::read_command::read_command;
use crate::words::Words;
use eos_ops::SESSIONS;
use script_model::Line;
use std::alloc::{AllocError, Global};

/// Why a line wasn't read.
#[derive(Clone, Copy, Debug)]
pub enum LineFail {
    /// It is in no form of the grammar.
    Bad,
    /// It is in a form, and there was no memory for its payload.
    Memory {
        /// The session of the line.
        session: u32,
    },
}

/// Reads one line, without its line feed. It asks for memory only for a payload of given bytes.
pub fn read_line(alloc: Global, bytes: &[u8]) -> Result<Line, LineFail>
    ensures line { IfOk result (IsLine bytes.now) }
    ensures fail { IfErr result (Explains bytes.now) }
{
    let mut words = Words::new(bytes);
    let Some(session) = words.next_number() else {
        return Err(LineFail::Bad);
    };
    if session < 1 {
        return Err(LineFail::Bad);
    }
    if session > u64::from(SESSIONS) {
        return Err(LineFail::Bad);
    }
    let session = session as u32;
    match read_command(alloc, &mut words) {
        Ok(Some(command)) => Ok(Line { session, command }),
        Ok(None) => Err(LineFail::Bad),
        Err(_) => Err(LineFail::Memory { session }),
    }
}
