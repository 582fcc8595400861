//! First fit of all demands.

ghost use Rattle.std.specs.Prelude.{◌≡◌, ◌<◌, List, IfOk, IfErr, All, length};
ghost use Rattle.irt_base.specs.declared.blocks.Bundle.{Bundle};
ghost use Rattle.irt_base.specs.declared.numbers.FrameId.{FrameId};
ghost use Rattle.irt_route.specs.Routes.{RouteTables, IsRoutesOf};
ghost use Rattle.plant_rules.specs.Meets.{MeetsRules};
ghost use Rattle.plan_rules.specs.Plan.{IsPlan};
ghost use Rattle.plan_rules.specs.Places.{IsAccepted};
ghost use Rattle.plan_rules.specs.Expected.{IsSafe};
ghost use Rattle.fit_rules.specs.Blocks.{AreFirstFit};
ghost use Rattle.fit_rules.specs.Order.{IsOverrun};
ghost use Rattle.planner.specs.Answers.{IsPlanFault, IsAnswer, IsOverrunAnswer};
ghost use Rattle.planner.specs.Steps.{IsUsable, AreWays, IsRun};
ghost use Rattle.planner.specs.Turns.{order_of};
ghost use Rattle.planner.specs.declared.turns.Turn.{Turn};

use crate::bundles::placed_bundles;
use crate::fault::PlanFault;
use crate::placed::{Placed, no_frames};
use crate::step::place_frame;
use crate::turns::{Turn, in_order, turns_of};
use crate::ways::ways_of;
use fit_rules::law::{first_fit_is_accepted, first_fit_is_one};
use frame_ways::frame_way::FrameWay;
use irt_base::blocks::Bundle;
use irt_base::list::Items;
use irt_base::plants::Plant;
use irt_route::tables::Routes;
use std::alloc::Global;

/// The bundles of first fit, one a device, or the first frame in the order of placing for which no phase has room.
/// Such bundles are a plan that all rules accept, so they are safe in every world.
pub fn plan(alloc: Global, plant: &Plant, routes: &Routes) -> Result<Items<Bundle>, PlanFault>
    requires routes { IsRoutesOf plant.now routes.now }
    ensures first_fit { IfOk result (AreFirstFit plant.now routes.now) }
    ensures fault { IfErr result (IsPlanFault plant.now routes.now) }
    // Where there is a first fit, the answer is that one, and where a frame overruns, it is that frame.
    ensures only { (bundles : List Bundle) → AreFirstFit plant.now routes.now bundles → IsAnswer bundles result }
    ensures overrun { (frame : FrameId) → IsOverrun plant.now routes.now frame → IsOverrunAnswer frame result }
    ensures plan { IfOk result (IsPlan plant.now) }
    ensures accepted { IfOk result (IsAccepted plant.now) }
    ensures safe { IfOk result (IsSafe plant.now) }
{
    first_fit_is_one();
    first_fit_is_accepted();
    first_fit(alloc, plant, routes)
}

fn first_fit(alloc: Global, plant: &Plant, routes: &Routes) -> Result<Items<Bundle>, PlanFault>
    requires routes { IsRoutesOf plant.now routes.now }
    ensures first_fit { IfOk result (AreFirstFit plant.now routes.now) }
    ensures fault { IfErr result (IsPlanFault plant.now routes.now) }
{
    let ways = ways_of(alloc, plant, routes)?;
    let turns = turns_of(alloc, plant.demands.as_slice(), ways.as_slice())?;
    let turns = in_order(turns);
    let placed = place_all(alloc, plant, ways.as_slice(), turns.as_slice())?;
    let bundles = placed_bundles(alloc, plant, placed)?;
    Ok(bundles)
}

/// Places the frames of all turns, one after the other, or answers the first that overruns.
pub fn place_all(
    alloc: Global,
    plant: &Plant,
    ways: &[FrameWay],
    turns: &[Turn],
) -> Result<Placed, PlanFault>
    requires rules { MeetsRules plant.now }
    requires usable { All IsUsable ways.now }
    requires count { length ways.now ≡ length plant.now.demands }
    requires turns { All (λ (t : Turn). t.index < length plant.now.demands) turns.now }
    ensures { (routes : RouteTables) → IsRoutesOf plant.now routes → AreWays plant.now routes ways.now →
        IsRun plant.now routes (order_of turns.now) result }
{
    let mut placed = no_frames(alloc)?;
    for turn in turns {
        let place = usize::from(turn.index);
        let demand = &plant.demands.as_slice()[place];
        place_frame(alloc, plant, demand, &ways[place], &mut placed)?;
    }
    Ok(placed)
}
