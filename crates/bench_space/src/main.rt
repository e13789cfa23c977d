//! The work that a benchmark times: grants and gives on a space of the largest size, or writes of
//! pages to a file.
//!
//! `bench/calls.py` runs it and takes the time. Without words it prints how it is called.
#![tactic(auto)]

mod grants;
mod store;
mod words;
mod writes;

use grants::grant_rounds;
use std::env;
use std::process::ExitCode;
use store::{Failure, make_store, quarter_used};
use words::{Kind, Work, work_of};
use writes::write_rounds;

fn main(rt: HostRuntime) -> ExitCode {
    let Some(work) = read_work(&rt) else {
        let _ = println!(rt; "usage: bench_space grants|writes PAGES ROUNDS");
        return ExitCode::SUCCESS;
    };
    match run(&rt, work) {
        Ok(()) => ExitCode::SUCCESS,
        Err(_) => ExitCode::FAILURE,
    }
}

/// The work that the words after the program's name ask for.
fn read_work(rt: &HostRuntime) -> Option<Work> {
    let Ok(mut words) = env::args(rt) else {
        return None;
    };
    let _program = words.next()?;
    let kind = words.next()?;
    let pages = words.next()?;
    let rounds = words.next()?;
    work_of(kind.as_str(), pages.as_str(), rounds.as_str())
}

/// Does the work, on a new store in a file of this folder.
fn run(rt: &HostRuntime, work: Work) -> Result<(), Failure> {
    let mut store = make_store(rt)?;
    match work.kind {
        Kind::Grants => {
            let mut space = quarter_used(rt.alloc(), store)?;
            grant_rounds(&mut space, work.pages, work.rounds);
        }
        Kind::Writes => write_rounds(rt.alloc(), &mut store, work.pages, work.rounds)?,
    }
    Ok(())
}
