//! The program: words, a script on standard input, and its replies on standard output.
//!
//! `run_alone` is the whole of it, over any source and sink; its contract says what every run of the
//! program means. What is left to `main` is the outside.
#![tactic(auto)]

mod run;
mod server;
mod words;

use edge_io::{StdSink, StdSource};
use run::run_alone;
use script_run::{read_words, word_of};
use std::process::ExitCode;

fn main(rt: HostRuntime) -> ExitCode {
    let status = match read_words(&rt) {
        Ok(words) => run_alone(
            rt.alloc(),
            &words,
            &mut StdSource::new(rt.stdin()),
            &mut StdSink::new(rt.stdout()),
        ),
        Err(failure) => failure.status(),
    };
    if let Some(word) = word_of(status) {
        // Nothing is left to do where standard error fails too.
        let _ = eprintln!(rt; "eos: {word}");
    }
    ExitCode::from(status)
}

#[cfg(test)]
mod tests;
