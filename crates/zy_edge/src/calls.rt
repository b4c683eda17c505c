ghost use Rattle.std.specs.Prelude.{◌≡◌};
ghost use Rattle.zy_edge.specs.Faults.{IsCounted};
ghost use Rattle.zy_edge.specs.Memory.{next_is_listed, counted};

use crate::faults::raised;
use std::marker::Model;

/// The calls of an object in memory: which are to fail, how many were made, and how many have failed.
#[derive(Debug, Drop)]
pub struct Calls {
    failing: Vec<u64>,
    made: u64,
    faults: u64,
}

impl Model for Calls {
    ghost use Rattle.zy_edge.specs.Memory.{CallCount};

    ghost Value = { CallCount };

    ghost view = { λ c. record { failing = c.failing.items; made = c.made; faults = c.faults } };
}

impl Calls {
    pub fn new(failing: Vec<u64>) -> Calls
        ensures { result ≡ record { failing = failing.items; made = 0; faults = 0 } }
    {
        Calls {
            failing,
            made: 0,
            faults: 0,
        }
    }

    /// Whether the next call is to fail. Calls are numbered from 1, and the number stays at 2^64 - 1.
    pub fn next_is_listed(&self) -> bool
        ensures { result ≡ next_is_listed self.now }
    {
        self.failing.contains(&raised(self.made))
    }

    /// Counts a call.
    pub fn count(&mut self, failed: bool)
        ensures after { self.new ≡ counted failed self.old }
        ensures faults { IsCounted failed self.old.faults self.new.faults }
    {
        self.made = raised(self.made);
        if failed {
            self.faults = raised(self.faults);
        }
    }
}
