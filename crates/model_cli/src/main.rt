//! The plain program: the numbers of a store as words, a script on standard input, and the replies
//! of a fresh store of these numbers on standard output.
#![tactic(auto)]

mod run;
mod server;
mod words;

use edge_io::{StdSink, StdSource};
use run::run_model;
use script_run::{exit_status, read_words};
use std::process::ExitCode;

fn main(rt: HostRuntime) -> ExitCode {
    let done = match read_words(&rt) {
        Ok(words) => run_model(
            rt.alloc(),
            &words,
            &mut StdSource::new(rt.stdin()),
            &mut StdSink::new(rt.stdout()),
        ),
        Err(failure) => Err(failure),
    };
    ExitCode::from(exit_status(done))
}

#[cfg(test)]
mod tests;
