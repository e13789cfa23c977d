//! The work that a benchmark times: an entry of a tree in a file is exchanged for another, again
//! and again.
//!
//! `bench/calls.py` runs it and takes the time. Without words it prints how it is called.
#![tactic(auto)]

mod rounds;
mod store;

use page_port::Geometry;
use rounds::exchange_rounds;
use std::env;
use std::process::ExitCode;
use store::{Failure, make_store};

fn main(rt: HostRuntime) -> ExitCode {
    let Some((geometry, entries, rounds)) = read_work(&rt) else {
        let _ = println!(rt; "usage: bench_splice PAGE ENTRIES ROUNDS");
        return ExitCode::SUCCESS;
    };
    match run(&rt, &geometry, entries, rounds) {
        Ok(()) => ExitCode::SUCCESS,
        Err(_) => ExitCode::FAILURE,
    }
}

/// The store, the entries and the rounds that the words after the program's name ask for.
fn read_work(rt: &HostRuntime) -> Option<(Geometry, u32, u32)> {
    let Ok(mut words) = env::args(rt) else {
        return None;
    };
    let _program = words.next()?;
    let page = words.next()?;
    let entries = words.next()?;
    let rounds = words.next()?;
    let geometry = match page.as_str() {
        "256" => Geometry::new(256, 10, 1, 1, 2)?,
        "4096" => Geometry::new(4096, 14, 1, 1, 2)?,
        _ => return None,
    };
    match (
        entries.as_str().parse::<u32>(),
        rounds.as_str().parse::<u32>(),
    ) {
        (Ok(entries), Ok(rounds)) => Some((geometry, entries, rounds)),
        _ => None,
    }
}

/// Does the work, on a new store in a file of this folder.
fn run(rt: &HostRuntime, geometry: &Geometry, entries: u32, rounds: u32) -> Result<(), Failure> {
    let mut store = make_store(rt, geometry)?;
    exchange_rounds(rt.alloc(), &mut store, entries, rounds)
}
