//! Demands by FrameID.

ghost use Rattle.std.specs.Prelude.{◌≡◌, ◌↔◌, IfOk, IsTrue};
ghost use Rattle.plant_rules.specs.Meets.{MeetsRules};
ghost use Rattle.plan_rules.specs.Tree.{Consumes};
ghost use Rattle.irt_window.specs.Demands.{AreNumbers};

use irt_base::limits::MAX_FRAME;
use irt_base::list::Items;
use irt_base::memory::NoMemory;
use irt_base::numbers::DevId;
use irt_base::plants::{Demand, Plant};
use std::alloc::Global;

/// By FrameID: the number of the demand that has it.
pub fn demand_numbers(alloc: Global, plant: &Plant) -> Result<Items<Option<u16>>, NoMemory>
    requires { MeetsRules plant.now }
    ensures { IfOk result (λ numbers. AreNumbers plant.now numbers) }
{
    let mut numbers = Items::from_vec(vec![in alloc; None; MAX_FRAME as usize + 1]?);
    let mut number = plant.demands.len();
    while number > 0 {
        number -= 1;
        let frame = plant.demands.as_slice()[number].frame;
        numbers.set(usize::from(frame.0), Some(number as u16));
    }
    Ok(numbers)
}

/// Whether the device is one of the demand's consumers.
pub fn consumes(demand: &Demand, device: DevId) -> bool
    ensures { IsTrue result ↔ Consumes demand.now device.0 }
{
    for consumer in demand.consumers.as_slice() {
        if consumer.0 == device.0 {
            return true;
        }
    }
    false
}
