//! The placing of one frame beside those that are placed.

ghost use Rattle.std.specs.Prelude.{◌≡◌, ℕ};
ghost use Rattle.irt_route.specs.Routes.{RouteTables, IsRoutesOf};
ghost use Rattle.plant_rules.specs.Meets.{MeetsRules, IsDemand};
ghost use Rattle.fit_rules.specs.Order.{IsDemandAt, parents_of};
ghost use Rattle.placement.specs.Layouts.{AreLimits};
ghost use Rattle.frame_ways.specs.FrameWays.{IsFrameWay};
ghost use Rattle.planner.specs.Placed.{limits_of};
ghost use Rattle.planner.specs.Steps.{IsUsable, IsAdded, HoldsPlaced, IsStep};

use crate::fault::PlanFault;
use crate::placed::{Placed, add_placed};
use demand_order::ratio::ratio_of;
use fit_rules::law::{fits_in_numbers, placements_are_one, shapes_shift};
use frame_ways::frame_way::FrameWay;
use irt_base::cycles::guard;
use irt_base::plants::{Demand, Plant};
use placement::layout::{Limits, Rate};
use placement::phases::best_placing;
use std::alloc::Global;

/// Places a demand's frame by first fit beside those that are placed, or answers `Overrun` where no phase has room.
/// Want of memory leaves the frame in part.
pub fn place_frame(
    alloc: Global,
    plant: &Plant,
    demand: &Demand,
    way: &FrameWay,
    placed: &mut Placed,
) -> Result<(), PlanFault>
    requires rules { MeetsRules plant.now }
    requires demand { IsDemand plant.now demand.now }
    requires way { IsUsable way.now }
    ensures { (routes : RouteTables) (index : ℕ) → IsRoutesOf plant.now routes → IsDemandAt plant.now index demand.now →
        IsFrameWay plant.now (parents_of routes index) demand.now way.now → HoldsPlaced plant.now placed.old →
        IsStep plant.now (parents_of routes index) demand.now placed.old placed.new result }
{
    fits_in_numbers();
    shapes_shift();
    placements_are_one();
    place_in_gaps(alloc, plant, demand, way, placed)
}

fn place_in_gaps(
    alloc: Global,
    plant: &Plant,
    demand: &Demand,
    way: &FrameWay,
    placed: &mut Placed,
) -> Result<(), PlanFault>
    requires rules { MeetsRules plant.now }
    requires demand { IsDemand plant.now demand.now }
    requires way { IsUsable way.now }
    ensures { IsAdded plant.now demand.now way.now placed.old placed.new result }
{
    let limits = limits_of(plant);
    let ratio = ratio_of(plant, demand);
    let Some(placing) = best_placing(&placed.gaps, limits, &way.layout, ratio) else {
        return Err(PlanFault::Overrun {
            frame: demand.frame,
        });
    };
    let rate = Rate {
        ratio,
        phase: placing.phase,
    };
    add_placed(alloc, limits, way, rate, &placing.offsets, placed)?;
    Ok(())
}

fn limits_of(plant: &Plant) -> Limits
    requires { MeetsRules plant.now }
    ensures value { result ≡ limits_of plant.now }
    ensures limits { AreLimits result }
{
    Limits {
        guard: guard(plant.window),
        red_max: plant.red_max,
    }
}
