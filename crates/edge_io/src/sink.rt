//! What bytes are written to.
ghost use Rattle.std.specs.Prelude.{◌≡◌, ℕ, ◌<◌, ◌≤◌, length, take, Option, List, IfOk, OnErr};
ghost use Rattle.fault_count.specs.Counts.{HasCause};
ghost use Rattle.edge_io.specs.Moved.{Appends};

/// Why a sink took nothing.
#[derive(Clone, Copy, Debug)]
pub enum SinkFail {
    /// Its call failed, and its count of faults rose.
    Fault,
    /// There was no memory for the bytes.
    Memory,
}

/// What bytes are written to, in order.
pub trait Sink {
    // The bytes that it took, where they are told.
    ghost written: { Self → Option (List ℕ) };

    // How many calls have failed, up to the last value of a u64.
    ghost faults: { Self → ℕ };

    /// Appends the first of `bytes`, and says how many: one at least.
    fn write(&mut self, bytes: &[u8]) -> Result<usize, SinkFail>
        requires { 0 < length bytes.now }
        ensures some { IfOk result (λ n. 0 < n) }
        ensures within { IfOk result (λ n. n ≤ length bytes.now) }
        ensures appends { IfOk result (λ n.
            Appends (take n bytes.now) (written self.old) (written self.new)) }
        ensures stays { OnErr result (written self.new ≡ written self.old) }
        ensures cause { HasCause (faults self.old) (faults self.new)
            (result ≡ Err SinkFail.Fault) };
}
