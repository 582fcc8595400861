//! The reduction ratio of a demand.

ghost use Rattle.std.specs.Prelude.{◌≤◌, ◌*◌};
ghost use Rattle.irt_base.specs.Cycle.{cycle_time};
ghost use Rattle.fit_rules.specs.Shape.{IsRatioFor};

use irt_base::cycles::cycle_length;
use irt_base::plants::{Demand, Plant};

/// The greatest reduction ratio that keeps a demand's update time.
pub fn ratio_of(plant: &Plant, demand: &Demand) -> u16
    requires { cycle_time plant.now.factor ≤ demand.now.update }
    ensures { IsRatioFor plant.now demand.now result }
{
    let cycle = cycle_length(plant.factor);
    if 16 * cycle <= demand.update {
        16
    } else if 8 * cycle <= demand.update {
        8
    } else if 4 * cycle <= demand.update {
        4
    } else if 2 * cycle <= demand.update {
        2
    } else {
        1
    }
}
