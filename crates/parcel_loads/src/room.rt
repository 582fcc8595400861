//! How many rows of the journal parcels may still get.

ghost use Rattle.std.specs.Prelude.{◌≡◌, ◌+◌, ◌*◌, ◌≤◌, length};
ghost use Rattle.parcel_rules.specs.Room.{links_left};

use irt_base::numbers::{DevId, PortNo};

/// The links that a walk still takes from a device on: none from its end, and none where it does not come.
pub fn links_left(steps: &[(DevId, PortNo)], device: DevId) -> usize
    ensures value { result ≡ links_left device steps.now }
    ensures small { result ≤ length steps.now }
{
    for (place, step) in steps.iter().enumerate() {
        if step.0.0 == device.0 {
            return steps.len() - place;
        }
    }
    0
}
