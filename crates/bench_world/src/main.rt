//! The work that a benchmark times: a script over a world of stored objects, which lie in memory.
//!
//! `bench/lines.py` runs it, and takes the time beside that of the program over plain objects.
#![tactic(auto)]

use edge_io::{Sink, Source, StdSink, StdSource};
use script_run::{Failure, exit_status, read_script, run_script, word_of};
use std::alloc::Global;
use std::process::ExitCode;
use store_server::StoreServer;
use world_rows::plain_world;

fn main(rt: HostRuntime) -> ExitCode {
    let run = run_input(
        rt.alloc(),
        &mut StdSource::new(rt.stdin()),
        &mut StdSink::new(rt.stdout()),
    );
    let status = exit_status(run);
    if let Some(word) = word_of(status) {
        // Nothing is left to do where standard error fails too.
        let _ = eprintln!(rt; "bench_world: {word}");
    }
    ExitCode::from(status)
}

/// Runs the lines of the input over a new world, and writes the replies.
fn run_input<I: Source, O: Sink>(
    alloc: Global,
    input: &mut I,
    output: &mut O,
) -> Result<(), Failure> {
    let script = read_script(alloc, input)?;
    let Some(world) = plain_world(alloc) else {
        return Err(Failure::Memory);
    };
    run_script(alloc, &mut StoreServer::new(world), &script, output)
}
