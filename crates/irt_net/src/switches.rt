//! The switches of a network.

ghost use Rattle.std.specs.Prelude.{◌≡◌, All, IfOk, map};
ghost use Rattle.irt_base.specs.Valid.{IsBundle};
ghost use Rattle.irt_switch.specs.State.{new_switch};

use irt_base::blocks::Bundle;
use irt_base::memory::NoMemory;
use irt_switch::Switch;
use std::alloc::Global;

/// A switch for each device's blocks, before the first cycle.
///
/// # Errors
/// `NoMemory` where memory runs out.
pub fn new_switches(alloc: Global, bundles: &[Bundle]) -> Result<Vec<Switch>, NoMemory>
    requires { All IsBundle bundles.now }
    ensures { IfOk result (λ switches. switches.items ≡ map new_switch bundles.now) }
{
    let mut switches = Vec::with_capacity(alloc, bundles.len())?;
    for bundle in bundles {
        switches.push(Switch::new(alloc, bundle)?)?;
    }
    Ok(switches)
}
