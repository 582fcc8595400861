//! A free run.

ghost use Rattle.std.specs.Prelude.{◌≡◌, ◌≤◌, All, IfOk, Some, [], length, map, vec_capacity, vec_len};
ghost use Rattle.io_buffers.specs.Passes.{table_of};
ghost use Rattle.irt_base.specs.declared.limits.TheConstants.{MAX_CYCLES};
ghost use Rattle.irt_route.specs.Routes.{IsRoutesOf};
ghost use Rattle.irt_world.specs.Rows.{Fits, world_rows};
ghost use Rattle.iso_plant.specs.Replay.{PlantView, setup_in, world_in};
ghost use Rattle.iso_rules.specs.Legal.{IsLegal};
ghost use Rattle.iso_run.specs.Run.{IsRunJournal};
ghost use Rattle.plan_rules.specs.Plan.{setup_of};
ghost use Rattle.record_text.specs.Text.{run_of};
ghost use Rattle.free_plant.specs.Named.{app_count, cycles_of};
ghost use Rattle.free_plant.specs.Views.{AreWires};
ghost use Rattle.iso_free.specs.Opened.{AreOpened};
ghost use Rattle.iso_free.specs.Record.{IsRecordOf};

use crate::ending::end_run;
use crate::opening::{OpenedApp, open_all};
use crate::parts::{Parts, part_all};
use crate::shared::Shared;
use crate::threads::{Started, join_all, run_cycles, start_all};
use free_jobs::firsts::Firsts;
use free_jobs::jobs::Job;
use free_plant::locked::Locked;
use free_plant::naming::Naming;
use free_plant::wires::Wire;
use irt_base::list::Items;
use irt_base::memory::NoMemory;
use irt_route::tables::Routes;
use irt_world::rows::World;
use iso_app::IsoApp;
use iso_plant::plant::PlantState;
use plan_check::accepted::Accepted;
use record_text::record::Record;
use std::alloc::Global;
use std::marker::Brand;
use std::sync::Wait;
use std::sync::atomic::AtomicBool;
use std::thread;
use std::thread::{Scope, Threads};

/// Runs an accepted plan over all rows of a world. The caller's thread plays the cycles, and each application turns in a
/// thread of its own, or in the caller's where none can be started; the plant is at most `MAX_SLIP` cycles ahead of each
/// application. `apps` are the plant's applications before their first turn, in the plant's order.
///
/// # Errors
/// `NoMemory` where memory runs out.
pub fn run_free<A: IsoApp + Send, R: Threads + Wait + Sync>(
    rt: &R,
    alloc: Global,
    accepted: &Accepted,
    routes: &Routes,
    world: World,
    apps: Items<A>,
) -> Result<Record, NoMemory>
    requires routes { IsRoutesOf accepted.now.plant routes.now }
    requires world { Fits accepted.now.plant accepted.now.bundles world }
    requires some { 1 ≤ length world.rows }
    requires cycles { length world.rows ≤ MAX_CYCLES }
    requires apps { length apps ≡ length accepted.now.plant.apps }
    ensures cycles { IfOk result (λ r. r.cycles ≡ length world.rows) }
    ensures legal { IfOk result (λ r. IsLegal A.reply A.next_state (setup_of accepted.now.plant accepted.now.bundles)
        (world_rows accepted.now.plant accepted.now.bundles world) apps
        (IsRunJournal accepted.now.plant accepted.now.bundles routes.now.walks world) (run_of r)) }
{
    let cycles = world.rows.len() as u32;
    match PlantState::new(alloc, accepted, routes, world) {
        Ok(plant) => open_run(rt, alloc, accepted, plant, apps, cycles),
        Err(_) => {
            drop(apps);
            Err(NoMemory)
        }
    }
}

/// Opens the exchanges of all apps, and runs a plant that is at its begin.
fn open_run<A: IsoApp + Send, R: Threads + Wait + Sync>(
    rt: &R,
    alloc: Global,
    accepted: &Accepted,
    plant: PlantState,
    apps: Items<A>,
    cycles: u32,
) -> Result<Record, NoMemory>
    requires plant { plant.plant ≡ accepted.now.plant }
    requires bundles { plant.bundles ≡ accepted.now.bundles }
    requires apps { length apps ≡ length accepted.now.plant.apps }
    requires begun { plant.done ≡ 0 }
    requires cycles { cycles ≡ length plant.world.rows }
    requires some { 1 ≤ cycles }
    requires few { cycles ≤ MAX_CYCLES }
    ensures cycles { IfOk result (λ r. r.cycles ≡ cycles) }
    ensures legal { IfOk result (λ r. IsLegal A.reply A.next_state (setup_in plant) (world_in plant) apps
        (IsRunJournal plant.plant plant.bundles plant.walks plant.world) (run_of r)) }
{
    match open_all(alloc, accepted, &plant, apps) {
        Ok(openings) => run_named::<A, Brand, R>(rt, alloc, plant, openings, cycles),
        Err(_) => {
            drop(plant);
            Err(NoMemory)
        }
    }
}

/// Runs what was opened, under a name.
fn run_named<A: IsoApp + Send, N: Naming + Firsts<A> + Send + Sync, R: Threads + Wait + Sync>(
    rt: &R,
    alloc: Global,
    plant: PlantState,
    openings: Vec<OpenedApp<A>>,
    cycles: u32,
) -> Result<Record, NoMemory>
    requires firsts { map (λ o. o.app) openings.items ≡ N.firsts }
    requires inputs { map (λ o. table_of o.input.exchange) openings.items ≡ N.inputs }
    requires outputs { map (λ o. table_of o.output.exchange) openings.items ≡ N.outputs }
    requires start { N.start ≡ Some plant }
    requires opened { AreOpened N.start openings.items }
    requires count { length openings.items ≡ length plant.plant.apps }
    requires begun { plant.done ≡ 0 }
    requires cycles { cycles ≡ length plant.world.rows }
    requires some { 1 ≤ cycles }
    requires few { cycles ≤ MAX_CYCLES }
    ensures cycles { IfOk result (λ r. r.cycles ≡ cycles) }
    ensures legal { IfOk result (λ r. IsLegal A.reply A.next_state (setup_in plant) (world_in plant) N.firsts
        (IsRunJournal plant.plant plant.bundles plant.walks plant.world) (run_of r)) }
{
    match part_all::<A, N>(alloc, openings) {
        Ok(
            Parts {
                wires,
                ports,
                buffers,
                jobs,
            },
        ) => {
            let shared = Shared::new(Locked::new(plant, ports, buffers, cycles), cycles);
            run_shared(rt, alloc, shared, wires, jobs, cycles)
        }
        Err(_) => {
            drop(plant);
            Err(NoMemory)
        }
    }
}

/// Runs what is shared with the threads, and gives the record.
fn run_shared<A: IsoApp + Send, N: Naming + Firsts<A> + Send + Sync, R: Threads + Wait + Sync>(
    rt: &R,
    alloc: Global,
    shared: Shared<N>,
    wires: Vec<Wire<N>>,
    jobs: Vec<Job<A, N>>,
    cycles: u32,
) -> Result<Record, NoMemory>
    requires wires { AreWires (app_count N.start) wires.items }
    requires numbers { map (λ j. j.number) jobs.items ≡ wires.items }
    requires cycles { cycles ≡ cycles_of N.start }
    requires some { 1 ≤ cycles }
    ensures { IfOk result (λ r. (v : PlantView) × IsRecordOf A.reply A.next_state N.firsts N.start v r) }
{
    match in_threads(rt, alloc, &shared, wires.as_slice(), jobs) {
        Ok(jobs) => end_run(rt, alloc, shared, wires, jobs, cycles),
        Err(_) => {
            drop(shared);
            drop(wires);
            Err(NoMemory)
        }
    }
}

/// Runs all cycles and all turns, each app in its thread.
fn in_threads<A: IsoApp + Send, N: Naming + Firsts<A> + Send + Sync, R: Threads + Wait + Sync>(
    rt: &R,
    alloc: Global,
    shared: &Shared<N>,
    wires: &[Wire<N>],
    jobs: Vec<Job<A, N>>,
) -> Result<Vec<Job<A, N>>, NoMemory>
    requires wires { AreWires (app_count N.start) wires.now }
    ensures numbers { IfOk result (λ done. map (λ j. j.number) done.items ≡ map (λ j. j.number) jobs.items) }
    ensures found { IfOk result (λ done. All (λ j. j.found ≡ cycles_of N.start) done.items) }
{
    let mut away = Vec::with_capacity(alloc, wires.len())?;
    for _wire in wires {
        away.push(AtomicBool::new(false))?;
    }
    let away = away.as_slice();
    thread::scope(
        thread::scope_env(),
        rt,
        move |scope| -> Result<Vec<Job<A, N>>, NoMemory>
            requires { AreWires (app_count N.start) wires.now
                × (length away.now ≡ app_count N.start) }
            ensures numbers { IfOk result (λ done. map (λ j. j.number) done.items ≡ map (λ j. j.number) jobs.items) }
            ensures found { IfOk result (λ done. All (λ j. j.found ≡ cycles_of N.start) done.items) }
        { with_room(scope, rt, alloc, shared, wires, away, jobs) },
    )
}

/// Makes room for all jobs before the first one is started.
fn with_room<
    's,
    'e,
    A: IsoApp + Send + 's,
    N: Naming + Firsts<A> + Send + Sync + 's,
    R: Threads + Wait + Sync,
>(
    scope: &Scope<'s, &'e ()>,
    rt: &'s R,
    alloc: Global,
    shared: &'s Shared<N>,
    wires: &'s [Wire<N>],
    away: &'s [AtomicBool],
    jobs: Vec<Job<A, N>>,
) -> Result<Vec<Job<A, N>>, NoMemory>
    requires wires { AreWires (app_count N.start) wires.now }
    requires away { length away.now ≡ app_count N.start }
    ensures numbers { IfOk result (λ done. map (λ j. j.number) done.items ≡ map (λ j. j.number) jobs.items) }
    ensures found { IfOk result (λ done. All (λ j. j.found ≡ cycles_of N.start) done.items) }
{
    let started = Vec::with_capacity(alloc, jobs.len())?;
    let done = Vec::with_capacity(alloc, jobs.len())?;
    in_scope(scope, rt, alloc, shared, wires, away, jobs, started, done)
}

/// Starts all jobs, runs all cycles, and ends the jobs.
fn in_scope<
    's,
    'e,
    A: IsoApp + Send + 's,
    N: Naming + Firsts<A> + Send + Sync + 's,
    R: Threads + Wait + Sync,
>(
    scope: &Scope<'s, &'e ()>,
    rt: &'s R,
    alloc: Global,
    shared: &'s Shared<N>,
    wires: &'s [Wire<N>],
    away: &'s [AtomicBool],
    jobs: Vec<Job<A, N>>,
    started: Vec<Started<A, N>>,
    done: Vec<Job<A, N>>,
) -> Result<Vec<Job<A, N>>, NoMemory>
    requires wires { AreWires (app_count N.start) wires.now }
    requires away { length away.now ≡ app_count N.start }
    requires none_started { started.items ≡ [] }
    requires started_room { vec_len jobs ≤ vec_capacity started }
    requires none_done { done.items ≡ [] }
    requires done_room { vec_len jobs ≤ vec_capacity done }
    ensures numbers { IfOk result (λ done. map (λ j. j.number) done.items ≡ map (λ j. j.number) jobs.items) }
    ensures found { IfOk result (λ done. All (λ j. j.found ≡ cycles_of N.start) done.items) }
{
    let mut started = start_all(scope, rt, alloc, shared, wires, away, jobs, started);
    if run_cycles(rt, alloc, shared, wires, &mut started).is_err() {
        shared.stop(rt);
    }
    join_all(rt, alloc, shared, wires, started, done)
}
