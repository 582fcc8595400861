//! The plan of the runs.

ghost use Rattle.std.specs.Prelude.{◌≡◌, IfOk, length};
ghost use Rattle.plant_rules.specs.Meets.{MeetsRules};

use block_values::{are_bundles, plain_bundle};
use irt_base::blocks::Bundle;
use irt_base::memory::NoMemory;
use irt_base::plants::Plant;
use irt_topo::read::read_plant;
use plan_check::accepted::Accepted;
use plan_check::check::{Verdict, check};
use std::alloc::Global;
use std::test::Fail;

/// Two devices without links or frames, and an application on each.
const PLANT: &str = "factor = 32
window = 1000
red_max = 250000
orange = 0
clocks = \"world\"
device = [
  { name = \"a\", mode = \"absolute\", bmin = 1000, bmax = 3000, ports = [[100, 200]] },
  { name = \"b\", mode = \"absolute\", bmin = 1000, bmax = 3000, ports = [[100, 200]] },
]
app = [{ device = \"a\", kind = \"copy\" }, { device = \"b\", kind = \"copy\" }]
";

/// The plan of that plant.
pub fn plan_of_two(alloc: Global) -> Result<Accepted, Fail>
    ensures { IfOk result (λ a. length a.plant.apps ≡ 2) }
{
    let plant = read_plant(alloc, PLANT.as_bytes())?;
    let bundles = bundles_of(alloc, &plant)?;
    if plant.apps.len() != 2
        || bundles.len() != plant.devices.len()
        || !are_bundles(bundles.as_slice())
    {
        return Err(Fail::from("no plan"));
    }
    match check(alloc, &plant, bundles.as_slice())? {
        Verdict::Accept(accepted) => Ok(accepted),
        Verdict::Reject(_) => Err(Fail::from("rejected")),
    }
}

/// Plain blocks of each device.
fn bundles_of(alloc: Global, plant: &Plant) -> Result<Vec<Bundle>, NoMemory>
    requires { MeetsRules plant.now }
{
    let mut bundles = Vec::new(alloc);
    for device in plant.devices.as_slice() {
        bundles.push(plain_bundle(alloc, plant, device)?)?;
    }
    Ok(bundles)
}
