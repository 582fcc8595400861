//! V15: clocks by PTCP stay within the window.

ghost use Rattle.std.specs.Prelude.{◌≡◌, ◌<◌, ◌≤◌, ◌↔◌, Some, IfOk, IsTrue, length, slice_get};
ghost use Rattle.irt_base.specs.declared.plants.Clocks.TheVariants as clocks;
ghost use Rattle.irt_route.specs.Clocks.{IsClockTreeOf};
ghost use Rattle.link_index.specs.Index.{IsIndexOf};
ghost use Rattle.plant_rules.specs.Meets.{MeetsRules};
ghost use Rattle.plan_check.specs.Late.{IsLate};
ghost use Rattle.plan_rules.specs.Headers.{KeepsClock, RepeatsPlant};
ghost use Rattle.plan_rules.specs.Plan.{IsPlan};
ghost use Rattle.plan_rules.specs.Places.{IsScan};
ghost use Rattle.plan_rules.specs.declared.place.Place.{Place};

use irt_base::blocks::Bundle;
use irt_base::memory::NoMemory;
use irt_base::numbers::DevId;
use irt_base::plants::{Clocks, Plant};
use irt_route::clocks::{ClockTree, budget, clock_tree_by};
use irt_route::fault::ClockFault;
use link_index::index::LinkIndex;
use plan_rules::place::Place;
use std::alloc::Global;

/// V15: where clocks are by PTCP, the least device whose clock may be off by more than the window. `links` is
/// the index of the plant's links. Any call may answer that memory ran out.
pub fn clock_break(
    alloc: Global,
    links: &LinkIndex,
    plant: &Plant,
    bundles: &[Bundle],
) -> Result<Option<Place>, NoMemory>
    requires links { IsIndexOf plant.now links.now }
    requires plan { IsPlan plant.now bundles.now }
    requires headers { (at : Place) → RepeatsPlant plant.now bundles.now at }
    ensures { IfOk result (IsScan (KeepsClock plant.now bundles.now)) }
{
    match plant.clocks {
        Clocks::World => Ok(None),
        Clocks::Ptcp => Ok(first_late(&tree_of(alloc, links, plant)?, plant, bundles)),
    }
}

/// The clock tree of a plant whose clocks are by PTCP: its rules say that each device has one.
fn tree_of(alloc: Global, links: &LinkIndex, plant: &Plant) -> Result<ClockTree, NoMemory>
    requires links { IsIndexOf plant.now links.now }
    requires rules { MeetsRules plant.now }
    requires ptcp { plant.now.clocks ≡ clocks.Ptcp }
    ensures { IfOk result (λ tree. IsClockTreeOf plant.now tree) }
{
    match clock_tree_by(alloc, links, plant) {
        Ok(tree) => Ok(tree),
        Err(ClockFault::NoMemory) => Err(NoMemory),
        Err(ClockFault::NoClock { device: _ }) => unreachable!(),
    }
}

/// The least device whose clock may be off by more than the window.
fn first_late(tree: &ClockTree, plant: &Plant, bundles: &[Bundle]) -> Option<Place>
    requires plan { IsPlan plant.now bundles.now }
    requires headers { (at : Place) → RepeatsPlant plant.now bundles.now at }
    requires tree { IsClockTreeOf plant.now tree.now }
    requires ptcp { plant.now.clocks ≡ clocks.Ptcp }
    ensures { IsScan (KeepsClock plant.now bundles.now) result }
{
    for device in 0..bundles.len() {
        if is_late(tree, plant, bundles, device) {
            return Some(Place::new(DevId(device as u8), 0, 0));
        }
    }
    None
}

/// Whether the clock of a device may be off by more than the window.
fn is_late(tree: &ClockTree, plant: &Plant, bundles: &[Bundle], device: usize) -> bool
    requires plan { IsPlan plant.now bundles.now }
    requires headers { (at : Place) → RepeatsPlant plant.now bundles.now at }
    requires tree { IsClockTreeOf plant.now tree.now }
    requires there { device < length bundles.now }
    ensures { IsTrue result ↔ IsLate plant.now bundles.now tree.now device }
{
    let first = bundle_at(bundles, 0);
    let own = bundle_at(bundles, device);
    let off = budget(
        tree,
        plant,
        DevId(device as u8),
        first.sync.send,
        own.sync.timeout,
    );
    off > u64::from(plant.window)
}

/// The blocks of a device.
fn bundle_at(bundles: &[Bundle], device: usize) -> &Bundle
    requires { device < length bundles.now }
    ensures { slice_get bundles.now device ≡ Some result.now }
{
    &bundles[device]
}
