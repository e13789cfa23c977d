//! Annals that keep all ends, with their acts.

ghost use Rattle.std.specs.Prelude.{◌≡◌, Some, true, refl};
ghost use Rattle.eos_ops.specs.Ends.{last_stamp_of};

use crate::{Annals, End};
use std::alloc::{AllocError, Global};
use std::marker::Model;

/// Annals that tell their ends. In contracts it is the ends, and for how many more there is room.
#[derive(Debug, Drop)]
pub struct Kept {
    list: Vec<End>,
}

impl Model for Kept {
    ghost use Rattle.std.specs.Prelude.{◌-◌, ◌≤◌, ◌^◌, length, vec_len, vec_capacity};
    ghost use Rattle.eos_ops.specs.Ends.{KeptEnds, last_stamp_of, AreAges};

    ghost Value = { KeptEnds };

    ghost view = { λ k. record {
      ends = k.list.items;
      spare =
          vec_capacity k.list - vec_len k.list;
    } };

    ghost invariant = { λ k. AreAges k.list.items };
}

impl Kept {
    /// All ends, in order, where they lie.
    pub fn as_slice(&self) -> &[End]
        ensures { result.now ≡ self.now.ends }
    {
        &self.list
    }
}

impl Annals for Kept {
    ghost told = { λ k. Some k.ends };

    ghost last = { λ k. last_stamp_of k.ends };

    ghost spare = { λ k. k.spare };

    ghost tells = { true };

    ghost tells_all = { λ _. refl };

    fn start(alloc: Global) -> Kept {
        Kept {
            list: Vec::new(alloc),
        }
    }

    fn keeps(&self) -> bool {
        true
    }

    fn reserve(&mut self, n: usize) -> Result<(), AllocError> {
        self.list.reserve(n)
    }

    fn append_end(&mut self, end: End) {
        self.list.push_reserved(end);
    }

    fn last_stamp(&self) -> u64 {
        match self.list.last() {
            Some(end) => end.stamp,
            None => 0,
        }
    }

    fn ends(&self) -> u64 {
        self.list.len() as u64
    }
}
