ghost use Rattle.std.specs.Prelude.{◌≡◌, ◌↔◌, ◌+◌, ◌-◌, ◌^◌, ◌≤◌, min, IfOk, IsTrue};
ghost use Rattle.edge.specs.Memory.{Calls, FailsNext, fresh, counted};

use crate::{Failed, Memory};
use std::alloc::Global;
use std::marker::Model;

/// The calls and faults of an object over memory, and the numbers of the calls that are to fail.
#[derive(Drop)]
pub struct CallCounter {
    had: u64,
    failing: Vec<u64>,
    faults: u64,
}

impl Model for CallCounter {
    ghost Value = { Calls };

    ghost view = { λ c. record { had = c.had; failing = c.failing.items; faults = c.faults } };
}

impl CallCounter {
    /// Before the first call.
    pub fn new(alloc: Global, failing: &[u64]) -> Result<CallCounter, Memory>
        ensures { IfOk result (λ calls. calls ≡ fresh failing.now) }
    {
        let failing = failing.to_vec(alloc).map_err(|_| Memory)?;
        Ok(CallCounter {
            had: 0,
            failing,
            faults: 0,
        })
    }

    /// Counts a call, and answers whether it fails by its number.
    pub fn fails_next(&mut self) -> bool
        ensures fails { IsTrue result ↔ FailsNext self.old }
        ensures counted { self.new ≡ counted self.old }
    {
        self.had = self.had.saturating_add(1);
        self.failing.contains(&self.had)
    }

    /// Counts a fault of the call that was counted last.
    pub fn fault(&mut self) -> Failed
        ensures faults { self.new ≡ record self.old { faults = min (self.old.faults + 1) (2 ^ 64 - 1) } }
        ensures later { self.old.faults ≤ self.new.faults }
    {
        self.faults = self.faults.saturating_add(1);
        Failed
    }
}
