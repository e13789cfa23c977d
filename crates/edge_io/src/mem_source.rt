//! A source over memory, whose calls of chosen numbers fail.
ghost use Rattle.std.specs.Prelude.{◌≡◌, ◌<◌, ◌≤◌, Some, [], length, take, drop, min, is_err};
ghost use Rattle.std.specs.Prelude.{IsErr, IfOk, OnErr};
ghost use Rattle.fault_count.specs.Counts.{HasCause};
ghost use Rattle.edge_io.specs.Moved.{ReadMoves};
ghost use Rattle.edge_io.specs.Doubles.{IsCall};

use crate::source::{Fault, Source};
use fault_count::counted;
use std::marker::Model;

/// Gives the bytes that it was made from, a piece at a time.
#[derive(Drop)]
pub struct MemSource {
    bytes: Vec<u8>,
    at: usize,
    piece: usize,
    fail: Vec<u64>,
    calls: u64,
    faults: u64,
}

impl Model for MemSource {
    ghost use Rattle.std.specs.Prelude.{◌<◌, ◌≤◌, drop, length};
    ghost use Rattle.edge_io.specs.Doubles.{Supply};

    ghost Value = { Supply };

    ghost view = { λ s. record {
      left = drop s.at s.bytes.items;
      piece = s.piece;
      failing = s.fail.items;
      calls = s.calls;
      faults = s.faults;
    } };

    ghost invariant = { λ s. (s.at ≤ length s.bytes.items) × (0 < s.piece) };
}

impl MemSource {
    /// Gives `bytes`, at most `piece` of them per call. The calls whose numbers, from 1, are in
    /// `fail` fail.
    pub fn new(bytes: Vec<u8>, piece: usize, fail: Vec<u64>) -> MemSource
        requires { 0 < piece }
        ensures { result ≡ record {
          left = bytes.items;
          piece = piece;
          failing = fail.items;
          calls = 0;
          faults = 0;
        } }
    {
        MemSource {
            bytes,
            at: 0,
            piece,
            fail,
            calls: 0,
            faults: 0,
        }
    }
}

impl Source for MemSource {
    ghost left = { λ s. Some s.left };

    ghost faults = { λ s. s.faults };

    fn read(&mut self, out: &mut [u8]) -> Result<usize, Fault>
        requires { 0 < length out.old }
        ensures within { IfOk result (λ n. n ≤ length out.old) }
        ensures moves { IfOk result (λ n.
            ReadMoves n out.new (Some self.old.left) (Some self.new.left)) }
        ensures stays { OnErr result (self.new.left ≡ self.old.left) }
        ensures cause { HasCause self.old.faults self.new.faults (IsErr result) }

        // What this source does besides: how much it gives, and which calls fail.
        ensures count { IfOk result (λ n.
            n ≡ min (min (length out.old) self.old.piece) (length self.old.left)) }
        ensures call { IsCall (is_err result) self.old.failing self.new.failing self.old.calls
            self.new.calls }
        ensures piece { self.new.piece ≡ self.old.piece }
    {
        self.calls = counted(self.calls, 1);
        if self.fail.contains(&self.calls) {
            self.faults = counted(self.faults, 1);
            return Err(Fault);
        }
        let (_, rest) = self.bytes.split_at(self.at);
        let count = out.len().min(self.piece).min(rest.len());
        let (front, _) = rest.split_at(count);
        out[..count].copy_from_slice(front);
        self.at += count;
        Ok(count)
    }
}
