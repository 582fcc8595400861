//! The steps of walks.

ghost use Rattle.std.specs.Prelude.{◌≡◌, find, IfOk};
ghost use Rattle.irt_base.specs.declared.plants.Plant.{Plant};
ghost use Rattle.irt_route.specs.Walks.{far_of};
ghost use Rattle.link_index.specs.Index.{IsIndexOf, peer_in};
ghost use Rattle.parcel_rules.specs.Steps.{steps_from, leaves_from};

use irt_base::list::Items;
use irt_base::memory::NoMemory;
use irt_base::numbers::{DevId, PortNo};
use link_index::index::LinkIndex;
use std::alloc::Global;

/// The steps of a walk from a device: the devices that it leaves, each with the port by which it does.
pub fn steps(
    alloc: Global,
    index: &LinkIndex,
    source: DevId,
    walk: &[PortNo],
) -> Result<Items<(DevId, PortNo)>, NoMemory>
    ensures { IfOk result (λ steps. (plant : Plant) → IsIndexOf plant index.now →
        steps ≡ steps_from plant source walk.now) }
{
    let mut steps = Items::with_capacity(alloc, walk.len())?;
    let mut at = source;
    for port in walk {
        steps.push((at, *port))?;
        at = far_device(index, at, *port);
    }
    Ok(steps)
}

/// The device at the other end of a port, or the device itself where the port has no link.
fn far_device(index: &LinkIndex, at: DevId, port: PortNo) -> DevId
    ensures { result ≡ far_of at (peer_in index.now at.0 port.0) }
{
    match index.peer(at, port) {
        None => at,
        Some(far) => far.0,
    }
}

/// The step by which a walk leaves a device, where it does.
pub fn step_at(steps: &[(DevId, PortNo)], device: DevId) -> Option<(DevId, PortNo)>
    ensures { result ≡ find (leaves_from device) steps.now }
{
    for step in steps {
        if step.0.0 == device.0 {
            return Some(*step);
        }
    }
    None
}
