//! A change of one object, with its bytes at hand, and what becomes of it.

ghost use Rattle.std.specs.Prelude.{◌≡◌};
ghost use Rattle.eos_ops.specs.Edits.{outcome_in};

use crate::{Bytes, Outcome, Plain};

/// The change that a command makes to its object. `at` and `len` count bytes from 0.
#[derive(Debug, Drop)]
pub enum Edit {
    /// Makes an absent object, with no bytes. The plain object doesn't look at the threshold.
    Create { threshold: Option<u32> },
    /// Makes a present object absent.
    Destroy,
    /// Puts the bytes at the end.
    Append(Bytes),
    /// Puts the bytes before the one at `at`, or at the end where `at` is the length.
    Insert { at: u64, bytes: Bytes },
    /// Takes out the `len` bytes from `at` on.
    Delete { at: u64, len: u64 },
    /// Exchanges the bytes from `at` on for as many others.
    Replace { at: u64, bytes: Bytes },
}

impl Edit {
    /// What becomes of the edit on this object: `Done` where it can be made. It looks only, and
    /// takes no memory.
    pub fn outcome(&self, object: &Plain) -> Outcome
        ensures { result ≡ outcome_in self.now object.now }
    {
        match object {
            Plain::Absent => self.outcome_absent(),
            Plain::Present(bytes) => self.outcome_within(bytes),
        }
    }

    /// What becomes of it on an absent object.
    fn outcome_absent(&self) -> Outcome
        ensures { result ≡ outcome_in self.now Plain.Absent }
    {
        match self {
            Edit::Create { .. } => Outcome::Done,
            _ => Outcome::Missing,
        }
    }

    /// What becomes of it on an object of these bytes.
    fn outcome_within(&self, bytes: &Bytes) -> Outcome
        ensures { result ≡ outcome_in self.now (Plain.Present bytes.now) }
    {
        let fits = match self {
            Edit::Create { .. } => return Outcome::Exists,
            Edit::Destroy | Edit::Append(_) => true,
            Edit::Insert { at, .. } => *at <= bytes.len(),
            Edit::Delete { at, len } => bytes.has_range(*at, *len),
            Edit::Replace { at, bytes: others } => bytes.has_range(*at, others.len()),
        };
        if fits {
            Outcome::Done
        } else {
            Outcome::Range(bytes.len())
        }
    }
}
