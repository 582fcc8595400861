//! Who starts an entry's frame.

ghost use Rattle.std.specs.Prelude.{◌↔◌, IsTrue};
ghost use Rattle.plan_rules.specs.Way.{IsAbsolute};
ghost use Rattle.way_rules.specs.Fits.{IsOwnStart};

use irt_base::blocks::Entry;
use irt_base::numbers::DevId;
use irt_base::plants::{Mode, Plant};
use irt_window::ports::leaves;

/// Whether a device forwards at its own FrameSendOffset.
pub(crate) fn is_absolute(plant: &Plant, device: DevId) -> bool
    ensures { IsTrue result ↔ IsAbsolute plant.now device.0 }
{
    match plant.devices.get(usize::from(device.0)) {
        None => false,
        Some(found) => found.mode == Mode::Absolute,
    }
}

/// Whether the device starts the frame by a FrameSendOffset.
pub(crate) fn is_own_start(plant: &Plant, device: DevId, entry: Entry) -> bool
    ensures { IsTrue result ↔ IsOwnStart plant.now device.0 entry }
{
    entry.rx_port == 0 || (is_absolute(plant, device) && leaves(entry))
}
