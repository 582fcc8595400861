//! The ways of all demands.

ghost use Rattle.std.specs.Prelude.{IfOk, All};
ghost use Rattle.irt_route.specs.Routes.{IsRoutesOf};
ghost use Rattle.planner.specs.Steps.{IsUsable, AreWays};

use frame_ways::frame_way::FrameWay;
use frame_ways::way::way_of;
use irt_base::list::Items;
use irt_base::memory::NoMemory;
use irt_base::plants::Plant;
use irt_route::tables::Routes;
use link_index::index::LinkIndex;
use std::alloc::Global;

/// The ways of a plant's demands, as these stand.
pub fn ways_of(alloc: Global, plant: &Plant, routes: &Routes) -> Result<Items<FrameWay>, NoMemory>
    requires { IsRoutesOf plant.now routes.now }
    ensures ways { IfOk result (AreWays plant.now routes.now) }
    ensures usable { IfOk result (All IsUsable) }
{
    let index = LinkIndex::new(alloc, plant)?;
    let mut ways = Items::new(alloc);
    for demand in 0..plant.demands.len() {
        ways.push(way_of(alloc, plant, &index, routes, demand)?)?;
    }
    Ok(ways)
}
