//! The top call.

ghost use Rattle.std.specs.Prelude.{◌≡◌, ◌↔◌, map, replicate, string_bytes, OnOk, false};
ghost use Rattle.fault_count.specs.Counts.{HasCause};
ghost use Rattle.eos_ops.specs.declared.plain.Plain.TheVariants.{Absent};
ghost use Rattle.script_run.specs.Headline.{Done, CutShort};
ghost use Rattle.script_run.specs.Ends.{TellsLong, LeavesCut};
ghost use Rattle.script_run.specs.Status.{IsStatus, status_of};
ghost use Rattle.eos_cli.specs.Words.{is_script};
ghost use Rattle.eos_cli.specs.Headline.{HasSerialRun};

use crate::server::PlainServer;
use crate::words::is_script;
use edge_io::{Sink, Source};
use script_run::{Failure, exit_status, read_script, run_script};
use std::alloc::Global;

/// How many objects there are, numbered from 0.
pub const OBJECTS: u32 = 32;

/// Serves the words, and says why it ended early where it did.
fn run_words<I: Source, O: Sink>(
    alloc: Global,
    words: &[String],
    input: &mut I,
    output: &mut O,
) -> Result<(), Failure>
    ensures usage { (result ≡ Err Failure.Usage)
        ↔ (is_script (map string_bytes words.now) ≡ false) }
    ensures input { HasCause (I.faults input.old) (I.faults input.new)
        (result ≡ Err Failure.Input) }
    ensures output { HasCause (O.faults output.old) (O.faults output.new)
        (result ≡ Err Failure.Output) }
    ensures long { TellsLong (λ failure. result ≡ Err failure) (I.left input.old) }
    ensures cut { LeavesCut (λ failure. result ≡ Err failure)
        (CutShort (HasSerialRun (replicate OBJECTS Absent)) (I.left input.old) (I.left input.new)
        (O.written output.old) (O.written output.new)) ⊥
        (I.left input.old) (I.left input.new) (O.written output.old) (O.written output.new) }
    ensures done { OnOk result (Done (HasSerialRun (replicate OBJECTS Absent))
        (I.left input.old) (I.left input.new) (O.written output.old) (O.written output.new)) }
{
    if !is_script(words) {
        return Err(Failure::Usage);
    }
    let script = read_script(alloc, input)?;
    let Ok(mut server) = PlainServer::new(alloc, OBJECTS) else {
        return Err(Failure::Memory);
    };
    run_script(alloc, &mut server, &script, output)
}

/// Serves `script IMAGE`: reads the whole input, runs its lines in order, and writes the reply to
/// each before the next is run. Objects are in memory and absent at first; what is open at the end
/// is aborted.
///
/// The answer is the status that the program ends with:
///
/// | Status | Comes |
/// |---|---|
/// | 0 | all was done |
/// | 2 | exactly where the words are in no form |
/// | 3 | only where a call of the source failed |
/// | 4 | only where a call of the sink failed |
/// | 7 | where the input or a line of it is too long, and then none but 2, 3 and 8 comes |
/// | 8 | for want of memory, and never after the last reply |
pub fn run_alone<I: Source, O: Sink>(
    alloc: Global,
    words: &[String],
    input: &mut I,
    output: &mut O,
) -> u8
    ensures known { IsStatus result }
    ensures usage { (result ≡ 2) ↔ (is_script (map string_bytes words.now) ≡ false) }
    ensures input { HasCause (I.faults input.old) (I.faults input.new) (result ≡ 3) }
    ensures output { HasCause (O.faults output.old) (O.faults output.new) (result ≡ 4) }
    ensures long { TellsLong (λ failure. result ≡ status_of failure) (I.left input.old) }

    // After a failure before the first line nothing was written, and after one of the words
    // nothing was read. After a failure of the sink the output has the answers to the lines that
    // were run, of the last one a front alone. Where memory was wanting it is so too, or nothing
    // was written.
    ensures cut { LeavesCut (λ failure. result ≡ status_of failure)
        (CutShort (HasSerialRun (replicate OBJECTS Absent)) (I.left input.old) (I.left input.new)
        (O.written output.old) (O.written output.new)) ⊥
        (I.left input.old) (I.left input.new) (O.written output.old) (O.written output.new) }

    // The committed transactions are those of one serial history, and each reply has its cause.
    ensures done { result ≡ 0 → Done (HasSerialRun (replicate OBJECTS Absent))
        (I.left input.old) (I.left input.new) (O.written output.old) (O.written output.new) }
{
    exit_status(run_words(alloc, words, input, output))
}
