//! Made lines run as a script is. What a served command means is left to the `Server`.

ghost use Rattle.std.specs.Prelude.{◌≡◌, IfOk, OnErr, IsTrue};
ghost use Rattle.work_gen.specs.Trial.{HasRunMade};

use crate::generator::Gen;
use crate::summary::Summary;
use script_model::Line;
use script_run::{GaveUp, Server};

/// Runs so many lines of the generator, one after the other. Then the server lets go what is open.
/// The summary counts no objects yet. Where the server gave up at a line it is to be dropped.
pub fn trial<W: Server>(server: &mut W, work: &mut Gen, lines: u64) -> Result<Summary, GaveUp>
    requires { W.ready server.old }
    ensures ran { IfOk result (λ summary. (last : W)
        × (HasRunMade W.step server.old work.old lines summary last × W.ended last server.new)) }
    ensures stops { OnErr result (IsTrue W.stops) }
{
    let summary = run_made(server, work, lines)?;
    server.finish();
    Ok(summary)
}

/// Runs the lines, and leaves open what is open.
fn run_made<W: Server>(server: &mut W, work: &mut Gen, lines: u64) -> Result<Summary, GaveUp>
    requires { W.ready server.old }
    ensures ran { IfOk result (λ summary.
        HasRunMade W.step server.old work.old lines summary server.new) }
    ensures stops { OnErr result (IsTrue W.stops) }
{
    let mut summary = Summary::new();
    'lines: for index in 0..lines {
        let Line { session, command } = work.next_line();
        let reply = server.serve(session, command)?;
        summary.count_reply(&reply);
    }
    Ok(summary)
}
