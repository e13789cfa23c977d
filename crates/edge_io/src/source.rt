//! What bytes are read from.
ghost use Rattle.std.specs.Prelude.{◌≡◌, ℕ, ◌<◌, ◌≤◌, length, Option, List, IfOk, OnErr, IsErr};
ghost use Rattle.fault_count.specs.Counts.{HasCause};
ghost use Rattle.edge_io.specs.Moved.{ReadMoves};

/// A source's call failed.
#[derive(Clone, Copy, Debug)]
pub struct Fault;

/// What bytes are read from, in order.
pub trait Source {
    // The bytes left, where they are told.
    ghost left: { Self → Option (List ℕ) };

    // How many calls have failed, up to the last value of a u64.
    ghost faults: { Self → ℕ };

    /// Moves the next bytes into the front of `out` and says how many. 0 is the end of the input.
    fn read(&mut self, out: &mut [u8]) -> Result<usize, Fault>
        requires { 0 < length out.old }
        ensures within { IfOk result (λ n. n ≤ length out.old) }
        ensures moves { IfOk result (λ n. ReadMoves n out.new (left self.old) (left self.new)) }
        ensures stays { OnErr result (left self.new ≡ left self.old) }
        ensures cause { HasCause (faults self.old) (faults self.new) (IsErr result) };
}
