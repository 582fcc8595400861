//! Rules of an entry at a port.

ghost use Rattle.std.specs.Prelude.{◌≡◌, ℕ, ◌≤◌, ◌↔◌, List, None, IsTrue};
ghost use Rattle.irt_base.specs.declared.blocks.Bundle.{Bundle};
ghost use Rattle.irt_base.specs.declared.plants.Plant.{Plant};
ghost use Rattle.plan_rules.specs.Way.{entry_at};
ghost use Rattle.plan_rules.specs.Plan.{IsPlan, setup_of};
ghost use Rattle.way_rules.specs.Placed.{IsPlaced};

use irt_base::blocks::{Bundle, Entry};
use irt_base::numbers::{DevId, PortNo};
use irt_base::plants::Plant;
use plan_rules::way::Way;

/// A rule of a device, a port and a frame, tested at an entry.
pub(crate) trait EntryRule {
    /// The ports at which the rule is tried are below this number. A rule that names no port has 1: port 0
    /// stands for all.
    ghost PORTS: { ℕ };

    const PORTS: u8;

    /// What the rule says at a device, port and frame.
    ghost Holds: { Plant → List Bundle → ℕ → ℕ → ℕ → Type 0 };

    /// The rule's tables are of this plant.
    ghost IsFor: { Self → Plant → Type 0 };

    /// Whether the rule holds at an entry of a device.
    fn holds(
        &self,
        plant: &Plant,
        bundles: &[Bundle],
        device: DevId,
        port: PortNo,
        entry: Entry,
        way: Way,
    ) -> bool
        requires tables { IsFor self.now plant.now }
        requires placed { IsPlaced plant.now bundles.now device.0 entry way }
        ensures { IsTrue result ↔ Holds plant.now bundles.now device.0 port.0 entry.frame.0 };

    /// It holds at all ports where it does at those below `PORTS`.
    fn holds_later()
        ensures { (plant : Plant) (bundles : List Bundle) → IsPlan plant bundles → (device port frame : ℕ) → PORTS ≤ port →
            Holds plant bundles device 0 frame → Holds plant bundles device port frame };

    /// There is such a port.
    ghost some_port: { 1 ≤ PORTS };

    /// It holds where there is no entry.
    ghost absent: { (plant : Plant) (bundles : List Bundle) (device port frame : ℕ) →
        entry_at (setup_of plant bundles) device frame ≡ None → Holds plant bundles device port frame };
}
