//! The work that a benchmark times: edits of an object in a file, at random places, each of them
//! settled.
//!
//! `bench/objects.py` runs it and takes the time. Without words it prints how it is called.
#![tactic(auto)]

mod edits;
mod store;

use edits::{edit_rounds, fill};
use page_port::Geometry;
use std::env;
use std::process::ExitCode;
use store::make_store;

fn main(rt: HostRuntime) -> ExitCode {
    let Some((bytes, edit, rounds)) = read_work(&rt) else {
        let _ = println!(rt; "usage: bench_object BYTES EDIT ROUNDS");
        return ExitCode::SUCCESS;
    };
    match run(&rt, bytes, edit, rounds) {
        Some(()) => ExitCode::SUCCESS,
        None => ExitCode::FAILURE,
    }
}

/// The bytes of the object, the bytes of an edit and the rounds that the words after the program's
/// name ask for.
fn read_work(rt: &HostRuntime) -> Option<(u64, u64, u32)> {
    let Ok(mut words) = env::args(rt) else {
        return None;
    };
    let _program = words.next()?;
    let bytes = words.next()?;
    let edit = words.next()?;
    let rounds = words.next()?;
    match (
        bytes.as_str().parse::<u64>(),
        edit.as_str().parse::<u64>(),
        rounds.as_str().parse::<u32>(),
    ) {
        (Ok(bytes), Ok(edit), Ok(rounds)) => Some((bytes, edit, rounds)),
        _ => None,
    }
}

/// Does the work, on a new store in a file of this folder: 128 spaces of 4,096 pages.
fn run(rt: &HostRuntime, bytes: u64, edit: u64, rounds: u32) -> Option<()> {
    let geometry = Geometry::new(4096, 12, 128, 1, 8)?;
    let mut store = make_store(rt, &geometry)?;
    fill(rt.alloc(), &mut store, bytes)?;
    // From here on the time is taken.
    let _ = println!(rt; "filled");
    edit_rounds(rt.alloc(), &mut store, edit, rounds)
}
