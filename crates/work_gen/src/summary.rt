//! What is told of a run of made lines. How the lines are run is left to `run`.

ghost use Rattle.std.specs.Prelude.{◌≡◌, ◌+◌, ◌<◌, ◌^◌, [], IfSome, IfOk};
ghost use Rattle.work_gen.specs.Summary as summary;

use crate::text::{push_counts, push_line};
use eos_ops::Reply;
use std::alloc::{AllocError, Global};
use std::marker::Model;

/// How many counts of replies there are.
pub(crate) const COUNTS: usize = 17;

/// How many lines were run, how often each reply came, how many objects are present and how many
/// bytes they have in all.
#[derive(Clone, Debug, Drop)]
pub struct Summary {
    lines: u64,
    counts: [u64; COUNTS],
    present: u64,
    total: u64,
}

impl Model for Summary {
    ghost use Rattle.std.specs.Prelude.{◌≡◌, ◌≤◌, length};
    ghost use Rattle.std.specs.List.{AllByRecursion};
    ghost use Rattle.work_gen.specs.Summary.{Summary};

    ghost Value = { Summary };

    ghost view = { λ s. record {
      lines = s.lines;
      counts = s.counts;
      present = s.present;
      total = s.total;
    } };

    ghost invariant = { λ s. AllByRecursion (λ n. n ≤ s.lines) s.counts };
}

impl Summary {
    /// The summary before the first line.
    pub fn new() -> Summary
        ensures { result ≡ summary.summary_of [] [] }
    {
        Summary {
            lines: 0,
            counts: [0; COUNTS],
            present: 0,
            total: 0,
        }
    }

    /// Counts a line by its reply.
    pub fn count_reply(&mut self, reply: &Reply)
        requires { self.old.lines + 1 < 2 ^ 64 }
        ensures { self.new ≡ summary.with_reply reply.now self.old }
    {
        self.lines += 1;
        if let Some(place) = place_of(reply) {
            self.counts[place] += 1;
        }
    }

    /// Counts a present object of so many bytes.
    pub fn count_object(&mut self, length: u64)
        requires present { self.old.present + 1 < 2 ^ 64 }
        requires total { self.old.total + length < 2 ^ 64 }
        ensures { self.new ≡ summary.counting_object length self.old }
    {
        self.present += 1;
        self.total += length;
    }

    /// The summary as text: a line for each of its numbers, in their order.
    pub fn text(&self, alloc: Global) -> Result<Vec<u8>, AllocError>
        ensures { IfOk result (λ text. text.items ≡ summary.summary_text self.now) }
    {
        let mut text = Vec::new(alloc);
        push_line(&mut text, "lines", self.lines)?;
        push_counts(&mut text, &self.counts)?;
        push_line(&mut text, "present", self.present)?;
        push_line(&mut text, "total", self.total)?;
        Ok(text)
    }
}

/// Which of the counts a reply goes into.
fn place_of(reply: &Reply) -> Option<usize>
    ensures place { result ≡ summary.place_of reply.now }
    ensures within { IfSome result (λ place. place < 17) }
{
    match reply {
        Reply::Ok => Some(0),
        Reply::Length(_) => Some(1),
        Reply::Bytes(_) => Some(2),
        Reply::Range(_) => Some(3),
        Reply::Exists => Some(4),
        Reply::Missing => Some(5),
        Reply::Busy => Some(6),
        Reply::Full => Some(7),
        Reply::NoObject => Some(8),
        Reply::NoSpace(_) => Some(9),
        Reply::Fault => Some(10),
        Reply::Memory => Some(11),
        Reply::Idle => Some(12),
        Reply::Active => Some(13),
        Reply::TooLong => Some(14),
        Reply::Worn => Some(15),
        Reply::Status { .. } => Some(16),
        Reply::Again => None,
    }
}
