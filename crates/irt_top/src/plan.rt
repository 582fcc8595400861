//! The command `plan`: a plant, first fit's blocks of its devices, their files, and what is printed of them.

ghost use Rattle.std.specs.Prelude.{◌≡◌, IfOk, IfErr, All, drop};
ghost use Rattle.std.specs.List.{AllByRecursion};
ghost use Rattle.irt_base.specs.Valid.{IsBundle};
ghost use Rattle.irt_bundle.specs.Bundles.{bundle_bytes};
ghost use Rattle.irt_io.specs.Fault.{IsLater};
ghost use Rattle.irt_route.specs.Routes.{IsRoutesOf};
ghost use Rattle.irt_steps.specs.Follow.{Follows, Decides, HasCause, IsEnding, IsNoFault};
ghost use Rattle.irt_steps.specs.Steps.{gives, stores};
ghost use Rattle.plan_rules.specs.Places.{IsAccepted};
ghost use Rattle.plan_rules.specs.Plan.{IsPlan};
ghost use Rattle.plant_rules.specs.Meets.{MeetsRules, IsDevice};
ghost use Rattle.irt_top.specs.DeviceFiles.{device_file_of, store_steps};
ghost use Rattle.irt_top.specs.Plan.{plan_steps, planned_steps, planning_steps, stored_steps, text_steps};
ghost use Rattle.irt_top.specs.Lines.{unreachable_line};
ghost use Rattle.irt_top.specs.PlantFile.{name_of};

use crate::files::{device_file, load_plant};
use crate::line::{no_path_line, overrun_line, unreachable_line};
use irt_base::blocks::Bundle;
use irt_base::list::Items;
use irt_base::numbers::{DevId, FrameId};
use irt_base::plants::{Device, Plant};
use irt_bundle::write_bundle;
use irt_io::shelf::Shelf;
use irt_route::fault::RouteFault;
use irt_route::routing::routes;
use irt_route::tables::Routes;
use irt_steps::line::line_stop;
use irt_steps::load::store_file;
use irt_steps::stop::{Cause, Stop};
use plan_schedule::print_plan;
use planner::fault::PlanFault;
use planner::planning::plan as first_fit;
use std::alloc::Global;

/// Plans the blocks of a plant's devices, and stores their files.
pub fn plan<S: Shelf>(alloc: Global, shelf: &mut S, name: &str) -> Result<Vec<u8>, Stop>
    ensures step { Follows (λ v. v.items) (plan_steps name.now) (S.files shelf.old) (S.files shelf.new) result }
    ensures cause { HasCause (S.faults shelf.old) (S.faults shelf.new) result }
    ensures later { IsLater (S.faults shelf.old) (S.faults shelf.new) }
{
    let plant = load_plant(alloc, shelf, name)?;
    plan_plant(alloc, shelf, &plant)
}

/// The same of a plant that was read.
fn plan_plant<S: Shelf>(alloc: Global, shelf: &mut S, plant: &Plant) -> Result<Vec<u8>, Stop>
    requires { MeetsRules plant.now }
    ensures step { Follows (λ v. v.items) (planned_steps plant.now) (S.files shelf.old) (S.files shelf.new) result }
    ensures cause { HasCause (S.faults shelf.old) (S.faults shelf.new) result }
    ensures later { IsLater (S.faults shelf.old) (S.faults shelf.new) }
{
    let bundles = planned(alloc, plant)?;
    store_plan(alloc, shelf, plant, bundles.as_slice())
}

/// First fit's bundles of a plant.
pub fn planned(alloc: Global, plant: &Plant) -> Result<Items<Bundle>, Stop>
    requires { MeetsRules plant.now }
    ensures step { Decides (λ bs. bs) (planning_steps plant.now) result }
    ensures calm { IfErr result IsNoFault }
    ensures plan { IfOk result (IsPlan plant.now) }
    ensures accepted { IfOk result (IsAccepted plant.now) }
{
    match routes(alloc, plant) {
        Ok(routes) => fitted(alloc, plant, &routes),
        Err(RouteFault::NoMemory) => Err(Stop::NoMemory),
        Err(RouteFault::Unreachable { frame, device }) => {
            Err(unreachable(alloc, plant, frame, device))
        }
        Err(RouteFault::NoPath { traffic }) => {
            Err(line_stop(Cause::NoWalk, no_path_line(alloc, traffic)))
        }
    }
}

/// What a receiver to which no walk leads ends the command with.
fn unreachable(alloc: Global, plant: &Plant, frame: FrameId, device: DevId) -> Stop
    ensures calm { IsNoFault result }
    ensures ending { IsEnding result 6 (unreachable_line frame.0 (name_of plant.now device.0)) }
{
    let name = match plant.devices.get(usize::from(device.0)) {
        Some(device) => device.name.as_slice(),
        None => &[],
    };
    line_stop(Cause::NoWalk, unreachable_line(alloc, frame, name))
}

/// First fit's bundles along a plant's routes.
fn fitted(alloc: Global, plant: &Plant, routes: &Routes) -> Result<Items<Bundle>, Stop>
    requires { IsRoutesOf plant.now routes.now }
    ensures step { Decides (λ bs. bs) (planning_steps plant.now) result }
    ensures calm { IfErr result IsNoFault }
    ensures plan { IfOk result (IsPlan plant.now) }
    ensures accepted { IfOk result (IsAccepted plant.now) }
{
    match first_fit(alloc, plant, routes) {
        Ok(bundles) => Ok(bundles),
        Err(PlanFault::NoMemory) => Err(Stop::NoMemory),
        Err(PlanFault::Overrun { frame }) => {
            Err(line_stop(Cause::Overrun, overrun_line(alloc, frame)))
        }
    }
}

/// Stores the files of a plan's devices, and gives the text that is printed of it.
fn store_plan<S: Shelf>(
    alloc: Global,
    shelf: &mut S,
    plant: &Plant,
    bundles: &[Bundle],
) -> Result<Vec<u8>, Stop>
    requires plan { IsPlan plant.now bundles.now }
    requires accepted { IsAccepted plant.now bundles.now }
    ensures step { Follows (λ v. v.items) (stored_steps plant.now bundles.now)
        (S.files shelf.old) (S.files shelf.new) result }
    ensures cause { HasCause (S.faults shelf.old) (S.faults shelf.new) result }
    ensures later { IsLater (S.faults shelf.old) (S.faults shelf.new) }
{
    store_bundles(alloc, shelf, plant.devices.as_slice(), bundles, 0)?;
    printed(alloc, plant, bundles)
}

/// What is printed of a plan.
fn printed(alloc: Global, plant: &Plant, bundles: &[Bundle]) -> Result<Vec<u8>, Stop>
    requires plan { IsPlan plant.now bundles.now }
    requires accepted { IsAccepted plant.now bundles.now }
    ensures step { Decides (λ v. v.items) (text_steps plant.now bundles.now) result }
    ensures calm { IfErr result IsNoFault }
{
    Ok(print_plan(alloc, plant, bundles)?)
}

/// Stores the bundles of devices in their files, in the order of the devices, from a place on.
fn store_bundles<S: Shelf>(
    alloc: Global,
    shelf: &mut S,
    devices: &[Device],
    bundles: &[Bundle],
    at: usize,
) -> Result<(), Stop>
    requires devices { AllByRecursion IsDevice devices.now }
    requires bundles { All IsBundle bundles.now }
    ensures step { Follows (λ u. u) (store_steps (drop at devices.now) (drop at bundles.now))
        (S.files shelf.old) (S.files shelf.new) result }
    ensures cause { HasCause (S.faults shelf.old) (S.faults shelf.new) result }
    ensures later { IsLater (S.faults shelf.old) (S.faults shelf.new) }
{
    let Some(device) = devices.get(at) else {
        return Ok(());
    };
    let Some(bundle) = bundles.get(at) else {
        return Ok(());
    };
    store_bundle(alloc, shelf, device, bundle)?;
    store_bundles(alloc, shelf, devices, bundles, at + 1)
}

/// Stores the bundle of a device in its file.
fn store_bundle<S: Shelf>(
    alloc: Global,
    shelf: &mut S,
    device: &Device,
    bundle: &Bundle,
) -> Result<(), Stop>
    requires device { IsDevice device.now }
    requires bundle { IsBundle bundle.now }
    ensures step { Follows (λ u. u) (stores (device_file_of device.now.name) (bundle_bytes bundle.now) (gives tt))
        (S.files shelf.old) (S.files shelf.new) result }
    ensures cause { HasCause (S.faults shelf.old) (S.faults shelf.new) result }
    ensures later { IsLater (S.faults shelf.old) (S.faults shelf.new) }
{
    let file = device_file(alloc, device.name.as_slice())?;
    let bytes = write_bundle(alloc, bundle)?;
    store_file(alloc, shelf, file.as_str(), bytes.as_slice())
}
