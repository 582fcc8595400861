//! The bundles of placed frames.

ghost use Rattle.std.specs.Prelude.{◌≢◌, AllPairs, IfOk};
ghost use Rattle.plant_rules.specs.Meets.{MeetsRules};
ghost use Rattle.fit_rules.specs.Blocks.{AreBundlesOf};
ghost use Rattle.fit_rules.specs.declared.frame_plan.FramePlan.{FramePlan};
ghost use Rattle.planner.specs.Steps.{HoldsPlaced};

use crate::placed::Placed;
use irt_base::blocks::Bundle;
use irt_base::list::Items;
use irt_base::memory::NoMemory;
use irt_base::plants::Plant;
use plan_blocks::bundle::bundles_of;
use std::alloc::Global;

/// The bundles of the placed frames, one a device. Their entries stand by ascending FrameID.
pub fn placed_bundles(
    alloc: Global,
    plant: &Plant,
    placed: Placed,
) -> Result<Items<Bundle>, NoMemory>
    requires rules { MeetsRules plant.now }
    requires holds { HoldsPlaced plant.now placed }
    requires differ { AllPairs (λ (a b : FramePlan). a.frame.0 ≢ b.frame.0) placed.plans }
    ensures { IfOk result (AreBundlesOf plant.now placed.plans) }
{
    let Placed {
        plans,
        gaps: _,
        tx,
        rx,
    } = placed;
    let mut plans = plans.into_vec();
    plans.sort_unstable_by_key(|plan| plan.frame.0);
    bundles_of(alloc, plant, plans.as_slice(), &tx, &rx)
}
