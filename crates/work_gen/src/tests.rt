//! The lines of one start value worked by hand, and a run's summary as text.
ghost use Rattle.std.specs.Prelude.{false};

use crate::{Gen, trial};
use eos_ops::{Command, Reply};
use script_run::{GaveUp, Server};
use script_text::read_line;
use std::test::Fail;

/// Answers as an empty store answers before anything is created.
#[derive(Drop)]
struct EmptyStore;

impl Server for EmptyStore {
    ghost step = { λ _ _ _ _ _. Unit {0} };

    ghost ready = { λ _. Unit {0} };

    ghost stops = { false };

    ghost ended = { λ _ _. Unit {0} };

    fn serve(&mut self, _session: u32, command: Command) -> Result<Reply, GaveUp> {
        Ok(match command {
            Command::Begin => Reply::Ok,
            _ => Reply::Missing,
        })
    }

    fn unread(&mut self, _session: u32) -> Result<Reply, GaveUp> {
        Ok(Reply::Memory)
    }

    fn finish(&mut self) {}
}

#[test]
fn a_start_value_makes_these_lines(rt: HostRuntime) -> Result<(), Fail> {
    let lines = [
        "1 begin",
        "1 insert 3 3312 r217.50774",
        "3 begin",
        "1 read 13 3104 712",
        "2 begin",
        "2 commit",
        "4 begin",
        "3 length 13",
        "4 delete 15 418 508",
        "3 commit",
        "3 begin",
        "1 replace 2 3425 r1899.64437",
        "3 destroy 3",
        "2 begin",
        "4 create 13",
        "2 length 13",
        "1 append 0 r1397.38804",
    ];
    let mut work = Gen::new(1);
    for text in lines {
        let line = read_line(rt.alloc(), text.as_bytes());
        let read = format!(in rt.alloc(); "{line:?}")?;
        let made = format!(in rt.alloc(); "Ok({:?})", work.next_line())?;
        assert_eq!(rt; made, read, "{text}");
    }
    Ok(())
}

#[test]
fn two_lines_over_an_empty_store_are_summed_up(rt: HostRuntime) -> Result<(), Fail> {
    let Ok(summary) = trial(&mut EmptyStore, &mut Gen::new(1), 2) else {
        panic!(rt; "the server gave up");
    };
    let text = summary.text(rt.alloc())?;
    let wanted = b"lines 2\nok 1\nlength 0\nbytes 0\nrange 0\nexists 0\nmissing 1\nbusy 0\nfull 0\n\
        noobject 0\nnospace 0\nfault 0\nmemory 0\nidle 0\nactive 0\ntoolong 0\nworn 0\nstatus 0\n\
        present 0\ntotal 0\n";
    assert!(rt; text.as_slice() == wanted.as_slice());
    Ok(())
}
