//! Whole runs.

ghost use Rattle.std.specs.Prelude.{◌≡◌, ◌<◌, ◌^◌, length, IfOk};
ghost use Rattle.swap_core.specs.Runs.{start, run, sights_of};

use crate::slots::Core;
use crate::steps::{Seen, Step};
use irt_base::memory::NoMemory;
use std::alloc::Global;

/// Makes all steps from the first state, with rows of so many words, and gives the last state and what each
/// step saw.
pub fn run_steps(alloc: Global, words: u16, steps: &[Step]) -> Result<(Core, Vec<Seen>), NoMemory>
    requires { length steps.now < 2 ^ 60 }
    ensures core { IfOk result (λ made. made.0 ≡ (run (start words) steps.now).slots) }
    ensures seen { IfOk result (λ made. made.1.items ≡ sights_of (start words) steps.now) }
{
    let mut core = Core::new(alloc, words)?;
    let mut seen = Vec::with_capacity(alloc, steps.len())?;
    for step in steps {
        seen.push(core.step(*step))?;
    }
    Ok((core, seen))
}
