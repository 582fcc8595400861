//! Which calls of a fake fail.

ghost use Rattle.std.specs.Prelude.{◌≡◌, ◌∷◌, ◌++◌, [], IfOk, IsTrue, ◌==◌};
ghost use Rattle.std.specs.List.{list_any};
ghost use Rattle.irt_io.specs.Fault.{IsLater, HasRisen};
ghost use Rattle.irt_io.specs.Fake.{Script, next_fails, after_call};

use irt_base::memory::NoMemory;
use std::alloc::Global;
use std::marker::Model;

/// Counts calls from 0, and which of them fail. Its counts stand still at their last value.
#[derive(Drop)]
pub struct CallScript {
    fails: Vec<u32>,
    calls: u64,
    faults: u64,
}

impl Model for CallScript {
    ghost use Rattle.irt_io.specs.Fake.{Script};

    ghost Value = { Script };

    ghost view = { λ s. record { fails = s.fails.items; calls = s.calls; faults = s.faults } };
}

impl CallScript {
    /// The calls of these numbers fail, and no others.
    pub fn new(alloc: Global, fails: &[u32]) -> Result<CallScript, NoMemory>
        ensures { IfOk result (λ s. s ≡ record { fails = fails.now; calls = 0; faults = 0 }) }
    {
        Ok(CallScript {
            fails: Vec::from_slice(alloc, fails)?,
            calls: 0,
            faults: 0,
        })
    }

    /// Counts a call, and says whether it fails.
    pub fn call(&mut self) -> bool
        ensures answer { result ≡ next_fails self.old }
        ensures after { self.new ≡ after_call self.old }
        ensures later { IsLater self.old.faults self.new.faults }
        ensures cause { IsTrue result → HasRisen self.old.faults self.new.faults }
    {
        let fails = is_listed(self.fails.as_slice(), self.calls);
        self.calls = self.calls.saturating_add(1);
        if fails {
            self.faults = self.faults.saturating_add(1);
        }
        fails
    }
}

/// Whether a call's number stands in the list.
fn is_listed(fails: &[u32], call: u64) -> bool
    ensures { result ≡ list_any (λ n. n == call) fails.now }
{
    fails.iter().any(|n| u64::from(*n) == call)
}
