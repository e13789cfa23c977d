//! The work that a benchmark times: plans of an edit, from the four segments around it.
//!
//! `bench/calls.py` runs it and takes the time. Without words it prints how it is called.
#![tactic(auto)]

mod plans;

use plans::plan_rounds;
use std::env;
use std::process::ExitCode;

fn main(rt: HostRuntime) -> ExitCode {
    let Some((place, rounds)) = read_work(&rt) else {
        let _ = println!(rt; "usage: bench_plan PLACE ROUNDS");
        return ExitCode::SUCCESS;
    };
    match plan_rounds(rt.alloc(), place, rounds) {
        Ok(()) => ExitCode::SUCCESS,
        Err(_) => ExitCode::FAILURE,
    }
}

/// The place and the rounds that the words after the program's name ask for.
fn read_work(rt: &HostRuntime) -> Option<(u64, u32)> {
    let Ok(mut words) = env::args(rt) else {
        return None;
    };
    let _program = words.next()?;
    let place = words.next()?;
    let rounds = words.next()?;
    match (
        place.as_str().parse::<u64>(),
        rounds.as_str().parse::<u32>(),
    ) {
        (Ok(place), Ok(rounds)) => Some((place, rounds)),
        _ => None,
    }
}
