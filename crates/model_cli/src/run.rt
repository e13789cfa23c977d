//! The whole run.

ghost use Rattle.std.specs.Prelude.{◌≡◌, ◌↔◌, map, replicate, string_bytes, OnOk};
ghost use Rattle.fault_count.specs.Counts.{HasCause};
ghost use Rattle.eos_ops.specs.declared.plain.Plain.TheVariants.{Absent};
ghost use Rattle.geometry_model.specs.Numbers.{Numbers, objects};
ghost use Rattle.moment_model.specs.Moment.{absent_slot};
ghost use Rattle.script_run.specs.Ends.{TellsLong, LeavesCut};
ghost use Rattle.script_run.specs.Headline.{Done, CutShort, GivenUp};
ghost use Rattle.model_cli.specs.Headline.{HasStoreRun};
ghost use Rattle.model_cli.specs.Words.{AreStore};

use crate::server::ModelServer;
use crate::words::store_of;
use edge_io::{Sink, Source};
use script_run::{Failure, read_script, run_script};
use std::alloc::Global;

/// Serves the words, which are the numbers of a store: reads the whole input, and runs its lines in
/// order over a fresh store of these numbers. Each reply is written before the next line is run.
///
/// | Failure | Comes |
/// |---|---|
/// | `Usage` | exactly where the words are no numbers of a store |
/// | `Input` | only where a call of the source failed |
/// | `Output` | only where a call of the sink failed, and never for an input that is too long |
/// | `Long` | only where the input or a line of it is too long |
/// | `Memory` | for want of memory, or where a number of the plain store passed its type; never after the last reply |
pub fn run_model<I: Source, O: Sink>(
    alloc: Global,
    words: &[String],
    input: &mut I,
    output: &mut O,
) -> Result<(), Failure>
    ensures usage { (result ≡ Err Failure.Usage)
        ↔ ((n : Numbers) → AreStore (map string_bytes words.now) n → ⊥) }
    ensures input { HasCause (I.faults input.old) (I.faults input.new)
        (result ≡ Err Failure.Input) }
    ensures output { HasCause (O.faults output.old) (O.faults output.new)
        (result ≡ Err Failure.Output) }
    ensures long { TellsLong (λ failure. result ≡ Err failure) (I.left input.old) }

    // After a failure before the first line nothing was written, and after one of the words
    // nothing was read. After a failure of the sink the output has the answers to the lines that
    // were run, of the last one a front alone. Where memory was wanting it is so too, or nothing
    // was written, or the store gave up at a line, with the answers to the lines before it.
    ensures cut { LeavesCut (λ failure. result ≡ Err failure)
        ((n : Numbers) × (AreStore (map string_bytes words.now) n
        × CutShort (HasStoreRun n (replicate (objects n) Absent)
        (replicate (objects n) absent_slot))
        (I.left input.old) (I.left input.new) (O.written output.old) (O.written output.new)))
        ((n : Numbers) × (AreStore (map string_bytes words.now) n
        × GivenUp (HasStoreRun n (replicate (objects n) Absent)
        (replicate (objects n) absent_slot))
        (I.left input.old) (I.left input.new) (O.written output.old) (O.written output.new)))
        (I.left input.old) (I.left input.new) (O.written output.old) (O.written output.new) }

    // The replies are those of one run of a fresh store of the numbers that the words are.
    ensures done { OnOk result ((n : Numbers) × (AreStore (map string_bytes words.now) n
        × Done (HasStoreRun n (replicate (objects n) Absent) (replicate (objects n) absent_slot))
        (I.left input.old) (I.left input.new) (O.written output.old) (O.written output.new))) }
{
    let Some(numbers) = store_of(words) else {
        return Err(Failure::Usage);
    };
    let script = read_script(alloc, input)?;
    let Ok(mut server) = ModelServer::new(alloc, numbers) else {
        return Err(Failure::Memory);
    };
    run_script(alloc, &mut server, &script, output)
}
