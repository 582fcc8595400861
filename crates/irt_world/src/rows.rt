//! Rows and worlds.

ghost use Rattle.std.specs.Prelude.{◌≡◌, ℕ, ◌↔◌, List, Some, IsTrue};
ghost use Rattle.irt_base.specs.Wiring.{link_number};
ghost use Rattle.irt_base.specs.declared.blocks.Bundle.{Bundle};
ghost use Rattle.irt_base.specs.declared.plants.Plant.{Plant};
ghost use Rattle.plan_rules.specs.World.{IsInStep, IsUncut};
ghost use Rattle.irt_world.specs.Rows.{error_in, is_cut_in, world_row};

use irt_base::list::Items;
use irt_base::numbers::DevId;
use irt_base::plants::Plant;

/// What the outside does in one send cycle.
#[derive(Drop)]
pub struct Row {
    /// By device: how far its cycle begins after the true one, in ns.
    pub errors: Items<i64>,
    /// By forwarding: how long the device takes to send the frame on, in ns.
    pub bridges: Items<u32>,
    /// The numbers of the links that are cut, ascending.
    pub cuts: Items<u16>,
}

/// A row for each send cycle, from 0.
#[derive(Drop)]
pub struct World {
    pub rows: Items<Row>,
}

impl Row {
    /// The clock error of a device, in ns, 0 past the end.
    pub fn error(&self, device: DevId) -> i64
        ensures { result ≡ error_in self.now device.0 }
    {
        match self.errors.get(usize::from(device.0)) {
            None => 0,
            Some(error) => *error,
        }
    }

    /// Whether a device's clock is off by at most the plant's window.
    pub fn is_in_step(&self, plant: &Plant, device: DevId) -> bool
        ensures { (bundles : List Bundle) →
            (IsTrue result ↔ IsInStep plant.now (world_row plant.now bundles self.now) device.0) }
    {
        let window = i64::from(plant.window);
        let error = self.error(device);
        -window <= error && error <= window
    }

    /// Whether a link, by its number, is cut.
    pub fn is_cut(&self, link: u16) -> bool
        ensures { result ≡ is_cut_in self.now link }
    {
        self.cuts.iter().any(|n| *n == link)
    }

    /// Whether a link, by its number, is not cut.
    pub fn is_uncut(&self, link: u16) -> bool
        ensures { (plant : Plant) (bundles : List Bundle) (device port : ℕ) → link_number plant device port ≡ Some link →
            (IsTrue result ↔ IsUncut plant (world_row plant bundles self.now) device port) }
    {
        !self.is_cut(link)
    }
}
