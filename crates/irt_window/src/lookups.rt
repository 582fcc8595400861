//! Look-ups of ways by device and frame.

ghost use Rattle.std.specs.Prelude.{◌≡◌, ◌≤◌, ◌<◌, ◌^◌, List, IfSome};
ghost use Rattle.irt_base.specs.declared.blocks.Bundle.{Bundle};
ghost use Rattle.irt_base.specs.declared.plants.Plant.{Plant};
ghost use Rattle.plan_rules.specs.Plan.{setup_of};
ghost use Rattle.irt_window.specs.Trees.{AreWindows};
ghost use Rattle.irt_window.specs.Windows.{IsEntryFound, IsWindowAnswer, IsSourceAnswer};

use crate::ports::leaves;
use crate::search::entry_index;
use crate::windows::{Window, Windows, window_of};
use irt_base::blocks::Entry;
use irt_base::list::Items;
use irt_base::numbers::{DevId, FrameId, PortNo};
use plan_rules::way::Way;

impl Windows {
    /// The ways, by device and place in its block.
    pub fn ways(&self) -> &[Items<Way>]
        ensures { result.now ≡ self.now.ways }
    {
        self.ways.as_slice()
    }

    /// When a device sends a frame. `None` comes exactly where it has no entry of the frame that leaves by a port.
    pub fn at(&self, device: DevId, frame: FrameId) -> Option<Window>
        ensures { (plant : Plant) (bundles : List Bundle) → AreWindows plant bundles self.now →
            IsWindowAnswer (setup_of plant bundles) device.0 frame.0 result }
    {
        match self.find(device, frame) {
            None => None,
            Some((entry, way)) => {
                if leaves(entry) {
                    Some(window_of(way))
                } else {
                    None
                }
            }
        }
    }

    /// Who sends a frame to a device, and by which port. `None` comes exactly at the provider and where the device
    /// has no entry of the frame.
    pub fn parent(&self, device: DevId, frame: FrameId) -> Option<(DevId, PortNo)>
        ensures { (plant : Plant) (bundles : List Bundle) → AreWindows plant bundles self.now →
            IsSourceAnswer (setup_of plant bundles) device.0 frame.0 result }
    {
        match self.find(device, frame) {
            None => None,
            Some((entry, way)) => {
                if entry.rx_port == 0 {
                    None
                } else {
                    Some((way.parent, way.port))
                }
            }
        }
    }

    /// The entry of a frame at a device, and its way.
    fn find(&self, device: DevId, frame: FrameId) -> Option<(Entry, Way)>
        ensures found { (plant : Plant) (bundles : List Bundle) → AreWindows plant bundles self.now →
            IsEntryFound (setup_of plant bundles) device.0 frame.0 result }
        ensures ordered { IfSome result (λ x. x.1.lo ≤ x.1.hi) }
        ensures small { IfSome result (λ x. x.1.hi < 2 ^ 39) }
    {
        let device = usize::from(device.0);
        if device >= self.entries.len() {
            return None;
        }
        let entries = self.entries.as_slice()[device].as_slice();
        let ways = self.ways.as_slice()[device].as_slice();
        match entry_index(entries, frame) {
            None => None,
            Some(place) => Some((entries[place], ways[place])),
        }
    }
}
