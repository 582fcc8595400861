//! The routes of one plant, again and again.

ghost use Rattle.std.specs.Prelude.{◌≡◌, IfOk};
ghost use Rattle.plant_rules.specs.Meets.{MeetsRules};

use irt_base::plants::Plant;
use irt_route::fault::RouteFault;
use irt_route::routing::routes;
use std::alloc::Global;

/// Makes the routes of a plant so often, and gives the number of times.
pub fn routed(alloc: Global, plant: &Plant, rounds: u32) -> Result<u32, RouteFault>
    requires { MeetsRules plant.now }
    ensures { IfOk result (λ done. done ≡ rounds) }
{
    let mut done = 0;
    for _round in 0..rounds {
        let _routes = routes(alloc, plant)?;
        done += 1;
    }
    Ok(done)
}
