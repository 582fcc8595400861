//! The commands `run` and `free`: a plant and its devices' files, a world, and the record of a run over it.

ghost use Rattle.std.specs.Prelude.{◌≡◌, IfOk, IfErr};
ghost use Rattle.irt_base.specs.Valid.{IsWithin};
ghost use Rattle.irt_base.specs.declared.limits.TheConstants.{MAX_CYCLES};
ghost use Rattle.irt_io.specs.Fault.{IsLater};
ghost use Rattle.irt_route.specs.Routes.{IsRoutesOf};
ghost use Rattle.irt_steps.specs.Follow.{Follows, Decides, HasCause, IsNoFault};
ghost use Rattle.plan_rules.specs.Plan.{IsPlan};
ghost use Rattle.plant_rules.specs.Meets.{MeetsRules};
ghost use Rattle.irt_top.specs.Run.{accepted_steps, ran_steps, run_plan_steps, run_plant_steps, run_steps, size_steps, sized_steps, walked_steps, walks_steps};
ghost use Rattle.irt_top.specs.World.{source_of};

use crate::check::{load_bundles, rejected};
use crate::files::load_plant;
use crate::line::{long_run_line, no_path_line};
use crate::world::{WorldAsked, world_of};
use irt_base::blocks::Bundle;
use irt_base::limits::MAX_CYCLES;
use irt_base::list::Items;
use irt_base::plants::Plant;
use irt_io::shelf::Shelf;
use irt_route::fault::RouteFault;
use irt_route::routing::routes;
use irt_route::tables::Routes;
use irt_steps::line::line_stop;
use irt_steps::stop::{Cause, Stop};
use plan_check::accepted::Accepted;
use plan_check::check::{Verdict, check};
use plan_run::law::accepted_plans_reach_consumers;
use plan_run::run::Runs;
use plan_run::size::is_too_long;
use std::alloc::Global;

/// The record of a run of a plant's blocks over a world of so many cycles, in its way.
pub fn run<T: Runs, S: Shelf>(
    way: &T,
    alloc: Global,
    shelf: &mut S,
    name: &str,
    cycles: u32,
    world: WorldAsked<'_>,
) -> Result<Vec<u8>, Stop>
    requires ready { T.can_run }
    requires cycles { IsWithin 1 MAX_CYCLES cycles }
    ensures step { Follows (λ v. v.items) (run_steps T.pace name.now cycles (source_of world.entry))
        (S.files shelf.old) (S.files shelf.new) result }
    ensures kept { S.files shelf.new ≡ S.files shelf.old }
    ensures cause { HasCause (S.faults shelf.old) (S.faults shelf.new) result }
    ensures later { IsLater (S.faults shelf.old) (S.faults shelf.new) }
{
    let plant = load_plant(alloc, shelf, name)?;
    run_plant(way, alloc, shelf, &plant, cycles, world)
}

/// The same of a plant that was read.
fn run_plant<T: Runs, S: Shelf>(
    way: &T,
    alloc: Global,
    shelf: &mut S,
    plant: &Plant,
    cycles: u32,
    world: WorldAsked<'_>,
) -> Result<Vec<u8>, Stop>
    requires ready { T.can_run }
    requires rules { MeetsRules plant.now }
    requires cycles { IsWithin 1 MAX_CYCLES cycles }
    ensures step { Follows (λ v. v.items) (run_plant_steps T.pace cycles (source_of world.entry) plant.now)
        (S.files shelf.old) (S.files shelf.new) result }
    ensures kept { S.files shelf.new ≡ S.files shelf.old }
    ensures cause { HasCause (S.faults shelf.old) (S.faults shelf.new) result }
    ensures later { IsLater (S.faults shelf.old) (S.faults shelf.new) }
{
    let bundles = load_bundles(alloc, shelf, plant.devices.as_slice(), Items::new(alloc))?;
    run_plan(way, alloc, shelf, plant, bundles.as_slice(), cycles, world)
}

/// The same of a plan that was read.
fn run_plan<T: Runs, S: Shelf>(
    way: &T,
    alloc: Global,
    shelf: &mut S,
    plant: &Plant,
    bundles: &[Bundle],
    cycles: u32,
    world: WorldAsked<'_>,
) -> Result<Vec<u8>, Stop>
    requires ready { T.can_run }
    requires plan { IsPlan plant.now bundles.now }
    requires cycles { IsWithin 1 MAX_CYCLES cycles }
    ensures step { Follows (λ v. v.items) (run_plan_steps T.pace cycles (source_of world.entry) plant.now bundles.now)
        (S.files shelf.old) (S.files shelf.new) result }
    ensures kept { S.files shelf.new ≡ S.files shelf.old }
    ensures cause { HasCause (S.faults shelf.old) (S.faults shelf.new) result }
    ensures later { IsLater (S.faults shelf.old) (S.faults shelf.new) }
{
    let accepted = accepted(alloc, plant, bundles)?;
    run_accepted(way, alloc, shelf, &accepted, cycles, world)
}

/// The plan, where the rules accept it.
pub fn accepted(alloc: Global, plant: &Plant, bundles: &[Bundle]) -> Result<Accepted, Stop>
    requires { IsPlan plant.now bundles.now }
    ensures step { Decides (λ a. tt) (accepted_steps plant.now bundles.now) result }
    ensures plan { IfOk result (λ a. (a.plant ≡ plant.now) × (a.bundles ≡ bundles.now)) }
    ensures calm { IfErr result IsNoFault }
{
    match check(alloc, plant, bundles)? {
        Verdict::Accept(accepted) => Ok(accepted),
        Verdict::Reject(reject) => Err(rejected(alloc, plant, reject)),
    }
}

/// The record of a run of an accepted plan.
fn run_accepted<T: Runs, S: Shelf>(
    way: &T,
    alloc: Global,
    shelf: &mut S,
    accepted: &Accepted,
    cycles: u32,
    world: WorldAsked<'_>,
) -> Result<Vec<u8>, Stop>
    requires ready { T.can_run }
    requires cycles { IsWithin 1 MAX_CYCLES cycles }
    ensures step { Follows (λ v. v.items) (ran_steps T.pace cycles
        (source_of world.entry) accepted.now.plant accepted.now.bundles)
        (S.files shelf.old) (S.files shelf.new) result }
    ensures kept { S.files shelf.new ≡ S.files shelf.old }
    ensures cause { HasCause (S.faults shelf.old) (S.faults shelf.new) result }
    ensures later { IsLater (S.faults shelf.old) (S.faults shelf.new) }
{
    let routes = walked(alloc, accepted)?;
    run_walked(way, alloc, shelf, accepted, &routes, cycles, world)
}

/// The routes of an accepted plan. All its consumers are reached.
pub fn walked(alloc: Global, accepted: &Accepted) -> Result<Routes, Stop>
    ensures step { Decides (λ r. r.walks) (walks_steps accepted.now.plant) result }
    ensures routes { IfOk result (IsRoutesOf accepted.now.plant) }
    ensures calm { IfErr result IsNoFault }
{
    accepted.facts();
    accepted_plans_reach_consumers();
    match routes(alloc, accepted.plant()) {
        Ok(routes) => Ok(routes),
        Err(RouteFault::NoMemory) => Err(Stop::NoMemory),
        Err(RouteFault::Unreachable { .. }) => unreachable!(),
        Err(RouteFault::NoPath { traffic }) => {
            Err(line_stop(Cause::NoWalk, no_path_line(alloc, traffic)))
        }
    }
}

/// The record of a run along the plan's routes.
fn run_walked<T: Runs, S: Shelf>(
    way: &T,
    alloc: Global,
    shelf: &mut S,
    accepted: &Accepted,
    routes: &Routes,
    cycles: u32,
    world: WorldAsked<'_>,
) -> Result<Vec<u8>, Stop>
    requires ready { T.can_run }
    requires routes { IsRoutesOf accepted.now.plant routes.now }
    requires cycles { IsWithin 1 MAX_CYCLES cycles }
    ensures step { Follows (λ v. v.items) (walked_steps T.pace cycles
        (source_of world.entry) accepted.now.plant accepted.now.bundles routes.now.walks)
        (S.files shelf.old) (S.files shelf.new) result }
    ensures kept { S.files shelf.new ≡ S.files shelf.old }
    ensures cause { HasCause (S.faults shelf.old) (S.faults shelf.new) result }
    ensures later { IsLater (S.faults shelf.old) (S.faults shelf.new) }
{
    fit_size(alloc, accepted, routes, cycles)?;
    run_sized(way, alloc, shelf, accepted, routes, cycles, world)
}

/// Ends the command where the run is too long.
pub fn fit_size(
    alloc: Global,
    accepted: &Accepted,
    routes: &Routes,
    cycles: u32,
) -> Result<(), Stop>
    requires routes { IsRoutesOf accepted.now.plant routes.now }
    requires cycles { IsWithin 1 MAX_CYCLES cycles }
    ensures step { Decides (λ u. u)
        (size_steps accepted.now.plant accepted.now.bundles routes.now.walks cycles) result }
    ensures calm { IfErr result IsNoFault }
{
    if is_too_long(alloc, accepted, routes, cycles)? {
        return Err(line_stop(Cause::LongRun, long_run_line(alloc)));
    }
    Ok(())
}

/// The record of a run that is not too long.
fn run_sized<T: Runs, S: Shelf>(
    way: &T,
    alloc: Global,
    shelf: &mut S,
    accepted: &Accepted,
    routes: &Routes,
    cycles: u32,
    world: WorldAsked<'_>,
) -> Result<Vec<u8>, Stop>
    requires ready { T.can_run }
    requires routes { IsRoutesOf accepted.now.plant routes.now }
    requires cycles { IsWithin 1 MAX_CYCLES cycles }
    ensures step { Follows (λ v. v.items) (sized_steps T.pace cycles
        (source_of world.entry) accepted.now.plant accepted.now.bundles routes.now.walks)
        (S.files shelf.old) (S.files shelf.new) result }
    ensures kept { S.files shelf.new ≡ S.files shelf.old }
    ensures cause { HasCause (S.faults shelf.old) (S.faults shelf.new) result }
    ensures later { IsLater (S.faults shelf.old) (S.faults shelf.new) }
{
    let world = world_of(alloc, shelf, accepted, cycles, world)?;
    Ok(way.run_text(alloc, accepted, routes, world)?)
}
