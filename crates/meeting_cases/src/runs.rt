//! Runs of one cycle with two applications that meet.

ghost use Rattle.std.specs.Prelude.{◌≡◌, IfOk, length};
ghost use Rattle.irt_route.specs.Routes.{IsRoutesOf};
ghost use Rattle.irt_world.specs.Rows.{Fits};

use crate::apps::{Flag, Meeting, pair_of};
use irt_base::list::Items;
use irt_base::memory::NoMemory;
use irt_route::routing::routes;
use irt_route::tables::Routes;
use irt_world::rows::World;
use irt_world::seeded::seeded;
use iso_free::run_free;
use iso_run::lockstep::run_lockstep;
use plan_check::accepted::Accepted;
use std::alloc::Global;
use std::sync::Wait;
use std::test::Fail;
use std::thread::Threads;

/// By which the clocks and bridge delays are drawn.
const SEED: u64 = 7;

/// How applications turn.
#[derive(Clone, Copy)]
pub enum Pace {
    InLockstep,
    Freely,
}

/// How many cycles the run has.
pub fn run_pair<R: Threads + Wait + Sync>(
    rt: &R,
    alloc: Global,
    pace: Pace,
    accepted: &Accepted,
    first: &Flag,
    second: &Flag,
) -> Result<u32, Fail>
    requires { length accepted.now.plant.apps ≡ 2 }
{
    accepted.facts();
    let routes = routes(alloc, accepted.plant())?;
    let world = world_of(alloc, accepted)?;
    run_over(rt, alloc, pace, accepted, &routes, world, first, second)
}

/// The world of one cycle.
fn world_of(alloc: Global, accepted: &Accepted) -> Result<World, NoMemory>
    ensures fits { IfOk result (Fits accepted.now.plant accepted.now.bundles) }
    ensures cycles { IfOk result (λ world. length world.rows ≡ 1) }
{
    accepted.facts();
    seeded(alloc, SEED, accepted.plant(), accepted.bundles(), 1)
}

/// The same over a world.
fn run_over<R: Threads + Wait + Sync>(
    rt: &R,
    alloc: Global,
    pace: Pace,
    accepted: &Accepted,
    routes: &Routes,
    world: World,
    first: &Flag,
    second: &Flag,
) -> Result<u32, Fail>
    requires apps { length accepted.now.plant.apps ≡ 2 }
    requires routes { IsRoutesOf accepted.now.plant routes.now }
    requires fits { Fits accepted.now.plant accepted.now.bundles world }
    requires cycles { length world.rows ≡ 1 }
{
    let apps = pair_of(alloc, first, second)?;
    match pace {
        Pace::InLockstep => run_in_lockstep(rt, alloc, accepted, routes, world, apps),
        Pace::Freely => run_freely(rt, alloc, accepted, routes, world, apps),
    }
}

fn run_in_lockstep<R: Threads + Sync>(
    rt: &R,
    alloc: Global,
    accepted: &Accepted,
    routes: &Routes,
    world: World,
    apps: Items<Meeting<'_>>,
) -> Result<u32, Fail>
    requires apps { length apps ≡ length accepted.now.plant.apps }
    requires routes { IsRoutesOf accepted.now.plant routes.now }
    requires fits { Fits accepted.now.plant accepted.now.bundles world }
    requires cycles { length world.rows ≡ 1 }
{
    let log = run_lockstep(rt, alloc, accepted, routes, world, apps)?;
    Ok(log.cycles)
}

fn run_freely<R: Threads + Wait + Sync>(
    rt: &R,
    alloc: Global,
    accepted: &Accepted,
    routes: &Routes,
    world: World,
    apps: Items<Meeting<'_>>,
) -> Result<u32, Fail>
    requires apps { length apps ≡ length accepted.now.plant.apps }
    requires routes { IsRoutesOf accepted.now.plant routes.now }
    requires fits { Fits accepted.now.plant accepted.now.bundles world }
    requires cycles { length world.rows ≡ 1 }
{
    let log = run_free(rt, alloc, accepted, routes, world, apps)?;
    Ok(log.cycles)
}
