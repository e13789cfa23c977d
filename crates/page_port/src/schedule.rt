//! Which calls of a port over memory are made to fail.
ghost use Rattle.std.specs.Prelude.{◌≡◌};
ghost use Rattle.fault_count.specs.Counts.{counted};
ghost use Rattle.page_port.specs.Memory.{Calls, next_fails};

use std::marker::Model;

/// The calls of one kind that a port made, and the numbers of those that fail.
#[derive(Drop)]
pub struct Schedule {
    failing: Vec<u64>,
    made: u64,
}

impl Model for Schedule {
    ghost use Rattle.page_port.specs.Memory.{Calls};

    ghost Value = { Calls };

    ghost view = { λ s. record { made = s.made; failing = s.failing.items } };
}

impl Schedule {
    pub fn new(failing: Vec<u64>) -> Schedule
        ensures { result ≡ record { made = 0; failing = failing.items } }
    {
        Schedule { failing, made: 0 }
    }

    /// Counts one call more. Does it fail?
    pub fn next(&mut self) -> bool
        ensures fails { result ≡ next_fails self.old }
        ensures counted { self.new ≡ record self.old { made = counted self.old.made 1 } }
    {
        self.made = self.made.saturating_add(1);
        self.failing.contains(&self.made)
    }
}
