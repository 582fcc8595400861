//! The world of a seed.

ghost use Rattle.std.specs.Prelude.{◌≡◌, ◌≤◌, IfOk, Some, length, slice_get};
ghost use Rattle.irt_base.specs.declared.limits.TheConstants.{MAX_CYCLES};
ghost use Rattle.irt_base.specs.declared.plants.Clocks.TheVariants as clocks;
ghost use Rattle.irt_route.specs.Clocks.{IsClockTreeOf};
ghost use Rattle.irt_world.specs.Rows.{Fits};
ghost use Rattle.plan_rules.specs.Places.{IsAccepted};
ghost use Rattle.plan_rules.specs.Plan.{IsPlan};
ghost use Rattle.plan_run.specs.World.{IsPtcpWorld, IsSeedWorld, timeouts_of};
ghost use Rattle.plant_rules.specs.Meets.{MeetsRules};

use irt_base::blocks::Bundle;
use irt_base::limits::MAX_CYCLES;
use irt_base::list::Items;
use irt_base::memory::NoMemory;
use irt_base::plants::{Clocks, Plant};
use irt_route::clocks::{ClockTree, clock_tree};
use irt_route::fault::ClockFault;
use irt_world::rows::World;
use irt_world::seeded::seeded;
use plan_check::accepted::Accepted;
use std::alloc::Global;
use sync_world::law::accepted_plans_have_budgets;
use sync_world::world::ptcp_world;

/// The world of a seed, with so many cycles. Where the plant's clocks are by PTCP it is the one that PTCP makes, with the
/// cycles between two sync messages of device 0 and each device's timeout; else it is the seeded one.
///
/// # Errors
/// `NoMemory` where memory runs out.
pub fn seed_world(
    alloc: Global,
    accepted: &Accepted,
    cycles: u32,
    seed: u64,
) -> Result<World, NoMemory>
    requires { cycles ≤ MAX_CYCLES }
    ensures { IfOk result (IsSeedWorld accepted.now.plant accepted.now.bundles seed cycles) }
{
    accepted.facts();
    match accepted.plant().clocks {
        Clocks::World => seeded(alloc, seed, accepted.plant(), accepted.bundles(), cycles),
        Clocks::Ptcp => { heard_world(alloc, accepted.plant(), accepted.bundles(), cycles, seed) }
    }
}

/// The world that PTCP makes of an accepted plan, whose plant's clocks are by it.
fn heard_world(
    alloc: Global,
    plant: &Plant,
    bundles: &[Bundle],
    cycles: u32,
    seed: u64,
) -> Result<World, NoMemory>
    requires plan { IsPlan plant.now bundles.now }
    requires accepted { IsAccepted plant.now bundles.now }
    requires ptcp { plant.now.clocks ≡ clocks.Ptcp }
    requires cycles { cycles ≤ MAX_CYCLES }
    ensures world { IfOk result (IsPtcpWorld plant.now bundles.now seed cycles) }
    ensures fits { IfOk result (Fits plant.now bundles.now) }
{
    accepted_plans_have_budgets();
    let tree = tree_of(alloc, plant)?;
    let timeouts = timeouts_of(alloc, bundles)?;
    let timeouts = timeouts.as_slice();
    let send = first_of(bundles).sync.send;
    ptcp_world(alloc, seed, plant, bundles, &tree, send, timeouts, cycles)
}

/// The blocks of device 0.
fn first_of(bundles: &[Bundle]) -> &Bundle
    requires { 1 ≤ length bundles.now }
    ensures { slice_get bundles.now 0 ≡ Some result.now }
{
    &bundles[0]
}

/// The clock tree of a plant whose clocks are by PTCP: its rules say that each device has one.
fn tree_of(alloc: Global, plant: &Plant) -> Result<ClockTree, NoMemory>
    requires rules { MeetsRules plant.now }
    requires ptcp { plant.now.clocks ≡ clocks.Ptcp }
    ensures { IfOk result (λ tree. IsClockTreeOf plant.now tree) }
{
    match clock_tree(alloc, plant) {
        Ok(tree) => Ok(tree),
        Err(ClockFault::NoMemory) => Err(NoMemory),
        Err(ClockFault::NoClock { device: _ }) => unreachable!(),
    }
}

/// The timeout of each device.
fn timeouts_of(alloc: Global, bundles: &[Bundle]) -> Result<Items<u16>, NoMemory>
    ensures { IfOk result (λ made. made ≡ timeouts_of bundles.now) }
{
    let mut made = Items::with_capacity(alloc, bundles.len())?;
    for bundle in bundles {
        made.push(bundle.sync.timeout)?;
    }
    Ok(made)
}
