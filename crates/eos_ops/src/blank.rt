//! Annals that keep the last stamp alone.

ghost use Rattle.std.specs.Prelude.{◌≡◌, ℕ, ◌+◌, ◌<◌, ◌≤◌, ◌^◌, IsOk, None, false, refl};

use crate::{Annals, End};
use std::alloc::{AllocError, Global};
use std::marker::Model;

/// Annals that tell no ends. In contracts it is the last stamp.
#[derive(Clone, Copy, Debug)]
pub struct Blank {
    last: u64,
}

impl Model for Blank {
    ghost Value = { ℕ };

    ghost view = { λ b. b.last };

    ghost invariant = { λ b. b.last ≤ 2 ^ 62 };

    ghost inverse = { λ n. record { last = n } };
}

impl Blank {
    /// Annals with this last stamp.
    pub fn at(stamp: u64) -> Blank
        requires { stamp ≤ 2 ^ 62 }
        ensures { result ≡ stamp }
    {
        Blank { last: stamp }
    }
}

impl Annals for Blank {
    ghost told = { λ _. None };

    ghost last = { λ b. b };

    // It always has room for more ends than can be asked for.
    ghost spare = { λ _. 2 ^ 64 };

    ghost tells = { false };

    ghost tells_all = { λ _. refl };

    fn start(_alloc: Global) -> Blank {
        Blank::at(0)
    }

    fn keeps(&self) -> bool {
        false
    }

    fn reserve(&mut self, _n: usize) -> Result<(), AllocError>
        ensures always { IsOk result }

        // What the trait promises after Ok: a `usize` is always within the room that there is.
        ensures room { _n ≤ 2 ^ 64 }
        ensures same { self.new ≡ self.old }
    {
        Ok(())
    }

    fn append_end(&mut self, end: End) {
        self.last = end.stamp;
    }

    fn last_stamp(&self) -> u64 {
        self.last
    }

    fn ends(&self) -> u64 {
        0
    }
}
