//! Runs the lines of a script.

ghost use Rattle.std.specs.Prelude.{◌≡◌, ◌⊎◌, [], OnOk, OnErr, IfOk, IfErr, IsTrue, MatchOption};
ghost use Rattle.fault_count.specs.Counts.{HasCause};
ghost use Rattle.edge_io.specs.Moved.{Appends, AppendsPart};
ghost use Rattle.eos_ops.specs.declared.command.Command.{Command};
ghost use Rattle.script_model.specs.Grammar.{IsLine, IsNoLine};
ghost use Rattle.script_model.specs.Transcript.{script_lines};
ghost use Rattle.script_run.specs.Served.{Served, Broken, Stopped, RunsLine, CutsLine, answer_line};

use crate::failure::Failure;
use crate::lines::cut_line;
use crate::server::{GaveUp, Server};
use edge_io::{Sink, SinkFail};
use eos_ops::Reply;
use script_model::Line;
use script_text::{Draft, LineFail, read_line, write_no_line, write_reply_with};
use std::alloc::Global;

/// The session and the reply of a line, none where the text is no line.
fn answer<W: Server>(
    alloc: Global,
    server: &mut W,
    text: &[u8],
) -> Result<Option<(u32, Reply)>, GaveUp>
    requires { W.ready server.old }
    ensures told { IfOk result (λ found. MatchOption found
        (IsNoLine text.now × (server.new ≡ server.old))
        (λ told. (command : Command)
        × (IsLine text.now (record { session = told.0; command = command })
        × W.step server.old told.0 command told.1 server.new))) }
    ensures ready { OnOk result (W.ready server.new) }
    ensures stops { OnErr result (IsTrue W.stops) }
{
    match read_line(alloc, text) {
        Ok(Line { session, command }) => match server.serve(session, command) {
            Ok(reply) => Ok(Some((session, reply))),
            Err(GaveUp) => Err(GaveUp),
        },
        Err(LineFail::Bad) => Ok(None),
        Err(LineFail::Memory { session }) => match server.unread(session) {
            Ok(reply) => Ok(Some((session, reply))),
            Err(GaveUp) => Err(GaveUp),
        },
    }
}

/// Writes the reply to a line, or `?` where there is none.
fn write_answer<O: Sink>(
    draft: &mut Draft,
    told: &Option<(u32, Reply)>,
    output: &mut O,
) -> Result<(), SinkFail>
    ensures all { OnOk result
        (Appends (answer_line told.now) (O.written output.old) (O.written output.new)) }
    ensures part { OnErr result
        (AppendsPart (answer_line told.now) (O.written output.old) (O.written output.new)) }
    ensures cause { HasCause (O.faults output.old) (O.faults output.new)
        (result ≡ Err SinkFail.Fault) }
{
    match told {
        Some((session, reply)) => write_reply_with(draft, *session, reply, output),
        None => write_no_line(output),
    }
}

/// Runs a line, and writes its reply.
fn run_line<W: Server, O: Sink>(
    alloc: Global,
    server: &mut W,
    draft: &mut Draft,
    text: &[u8],
    output: &mut O,
) -> Result<(), Failure>
    requires { W.ready server.old }
    ensures ran { OnOk result (RunsLine W.step text.now server.old server.new
        (O.written output.old) (O.written output.new)) }
    ensures ready { OnOk result (W.ready server.new) }
    ensures broken { IfErr result (λ failure. CutsLine W.step text.now server.old server.new
        (O.written output.old) (O.written output.new)
        ⊎ ((failure ≡ Failure.Memory)
        × (IsTrue W.stops × (O.written output.new ≡ O.written output.old)))) }
    ensures cause { HasCause (O.faults output.old) (O.faults output.new)
        (result ≡ Err Failure.Output) }
    ensures others { IfErr result
        (λ failure. (failure ≡ Failure.Output) ⊎ (failure ≡ Failure.Memory)) }
{
    let Ok(told) = answer(alloc, server, text) else {
        return Err(Failure::Memory);
    };
    match write_answer(draft, &told, output) {
        Ok(()) => Ok(()),
        Err(SinkFail::Fault) => Err(Failure::Output),
        Err(SinkFail::Memory) => Err(Failure::Memory),
    }
}

/// Runs the lines one after the other; a line's reply goes out before the next one is looked at.
fn run_lines<W: Server, O: Sink>(
    alloc: Global,
    server: &mut W,
    script: &[u8],
    output: &mut O,
) -> Result<(), Failure>
    requires { W.ready server.old }
    ensures ran { OnOk result (Served W.step server.old (script_lines script.now) []
        (O.written output.old) (O.written output.new) server.new) }
    ensures broken { IfErr result (λ failure. Broken W.step server.old (script_lines script.now)
        (O.written output.old) (O.written output.new) server.new
        ⊎ ((failure ≡ Failure.Memory)
        × (IsTrue W.stops × Stopped W.step server.old (script_lines script.now)
        (O.written output.old) (O.written output.new)))) }
    ensures cause { HasCause (O.faults output.old) (O.faults output.new)
        (result ≡ Err Failure.Output) }
    ensures others { IfErr result
        (λ failure. (failure ≡ Failure.Output) ⊎ (failure ≡ Failure.Memory)) }
{
    let mut draft = Draft::new();
    let mut rest = script;
    'lines: while !rest.is_empty() {
        let (text, after) = cut_line(rest);
        run_line(alloc, server, &mut draft, text, output)?;
        rest = after;
    }
    Ok(())
}

/// Runs the lines one after the other; a line's reply goes out before the next one is looked at.
/// Then, also where a reply couldn't be written, the server lets go what is open.
///
/// | Failure | Comes |
/// |---|---|
/// | `Output` | only where a call of the sink failed; of the reply to a line that was run a front was written |
/// | `Memory` | the same for want of memory in the sink; or where the server gave up at a line, and then all replies before were written |
pub fn run_script<W: Server, O: Sink>(
    alloc: Global,
    server: &mut W,
    script: &[u8],
    output: &mut O,
) -> Result<(), Failure>
    requires { W.ready server.old }
    ensures ran { OnOk result ((last : W) × (Served W.step server.old (script_lines script.now) []
        (O.written output.old) (O.written output.new) last × W.ended last server.new)) }
    ensures broken { IfErr result (λ failure.
        ((last : W) × (Broken W.step server.old (script_lines script.now)
        (O.written output.old) (O.written output.new) last × W.ended last server.new))
        ⊎ ((failure ≡ Failure.Memory)
        × (IsTrue W.stops × Stopped W.step server.old (script_lines script.now)
        (O.written output.old) (O.written output.new)))) }
    ensures cause { HasCause (O.faults output.old) (O.faults output.new)
        (result ≡ Err Failure.Output) }
    ensures others { IfErr result
        (λ failure. (failure ≡ Failure.Output) ⊎ (failure ≡ Failure.Memory)) }
{
    let ran = run_lines(alloc, server, script, output);
    server.finish();
    ran
}
