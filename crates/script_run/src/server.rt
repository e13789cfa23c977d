//! What serves the commands of a script.

ghost use Rattle.std.specs.Prelude.{◌≡◌, ℕ, ◌<◌, ◌≤◌, Bool, IfOk, OnOk, OnErr, IsTrue};
ghost use Rattle.eos_ops.specs.declared.command.Command.{Command};
ghost use Rattle.eos_ops.specs.declared.limits.TheConstants.{SESSIONS};
ghost use Rattle.eos_ops.specs.declared.reply.Reply.{Reply};
ghost use Rattle.script_model.specs.Grammar.{CommandFits};
ghost use Rattle.script_text.specs.Failing.{BringsBytes};

use eos_ops::{Command, Reply};

/// A server had no memory and can't go on. It is to be dropped.
#[derive(Clone, Copy, Debug)]
pub struct GaveUp;

/// Serves commands, one after the other. In contracts its state is `Self`.
pub trait Server: Drop {
    // A command was served: the state before, the session, the command, its reply, and the state
    // after.
    ghost step: { Self → ℕ → Command → Reply → Self → Type 0 };

    // What holds before each command.
    ghost ready: { Self → Type 0 };

    // May it give up? Where this is false each command gets a reply.
    ghost stops: { Bool };

    // The end: the state before and after.
    ghost ended: { Self → Self → Type 0 };

    /// Serves a command of session 1 to 64, whose numbers are in the ranges of the grammar.
    fn serve(&mut self, session: u32, command: Command) -> Result<Reply, GaveUp>
        requires from_one { 0 < session }
        requires upto { session ≤ SESSIONS }
        requires fits { CommandFits command }
        requires ready { ready self.old }
        ensures step { IfOk result (λ reply. step self.old session command reply self.new) }
        ensures ready { OnOk result (ready self.new) }
        ensures stops { OnErr result (IsTrue stops) };

    /// Answers a command of session 1 to 64 that couldn't be read for want of memory for the bytes
    /// it brings.
    fn unread(&mut self, session: u32) -> Result<Reply, GaveUp>
        requires from_one { 0 < session }
        requires upto { session ≤ SESSIONS }
        requires ready { ready self.old }
        ensures step { IfOk result (λ reply.
            (command : Command) → BringsBytes command →
            step self.old session command reply self.new) }
        ensures ready { OnOk result (ready self.new) }
        ensures stops { OnErr result (IsTrue stops) };

    /// Lets go what is open. It comes after the last command, also where a reply couldn't be
    /// written.
    fn finish(&mut self)
        ensures { ended self.old self.new };
}
