//! The end of a run: what it leaves behind.

ghost use Rattle.std.specs.Prelude.{◌≡◌, ◌<◌, ◌≤◌, ℕ, [], All, IfOk, length, map, slice_index_or};
ghost use Rattle.iso_plant.specs.Replay.{PlantView};
ghost use Rattle.free_end.specs.Ended.{HasEnded, HasLegalLog};
ghost use Rattle.free_plant.specs.Named.{app_count, cycles_of};
ghost use Rattle.free_plant.specs.Views.{AreWires};
ghost use Rattle.iso_free.specs.Record.{IsRecordOf, logs_of};

use crate::shared::Shared;
use free_end::ending::{end_all, take_next};
use free_jobs::firsts::Firsts;
use free_jobs::jobs::Job;
use free_plant::locked::{Locked, Tried};
use free_plant::naming::Naming;
use free_plant::wires::Wire;
use irt_base::list::Items;
use irt_base::memory::NoMemory;
use iso_app::IsoApp;
use iso_plant::history::AppHistory;
use iso_plant::plant::{History, PlantState};
use iso_rules::turn::Turn;
use record_text::record::{AppRecord, Record};
use std::alloc::Global;
use std::sync::Wait;

/// Ends a run whose apps found all cycles: takes the plant out of its lock, closes all exchanges, and gives the record.
///
/// # Errors
/// `NoMemory` where memory runs out, or the run was given up.
pub fn end_run<A: IsoApp, N: Naming + Firsts<A>, R: Wait>(
    rt: &R,
    alloc: Global,
    shared: Shared<N>,
    wires: Vec<Wire<N>>,
    jobs: Vec<Job<A, N>>,
    cycles: u32,
) -> Result<Record, NoMemory>
    requires wires { AreWires (app_count N.start) wires.items }
    requires numbers { map (λ j. j.number) jobs.items ≡ wires.items }
    requires found { All (λ j. j.found ≡ cycles_of N.start) jobs.items }
    requires cycles { cycles ≡ cycles_of N.start }
    requires some { 1 ≤ cycles }
    ensures { IfOk result (λ r. (v : PlantView) × IsRecordOf A.reply A.next_state N.firsts N.start v r) }
{
    let mut locked = shared.into_locked();
    match last_cycles(rt, &mut locked, wires.as_slice()) {
        Ok(()) => close_run(alloc, locked, wires, jobs, cycles),
        Err(_) => {
            drop(locked);
            drop(wires);
            drop(jobs);
            Err(NoMemory)
        }
    }
}

/// Closes all exchanges of a run whose cycles are all done, and gives the record.
fn close_run<A: IsoApp, N: Naming + Firsts<A>>(
    alloc: Global,
    locked: Locked<N>,
    wires: Vec<Wire<N>>,
    jobs: Vec<Job<A, N>>,
    cycles: u32,
) -> Result<Record, NoMemory>
    requires done { locked.plant.done ≡ cycles_of N.start }
    requires wires { AreWires (app_count N.start) wires.items }
    requires numbers { map (λ j. j.number) jobs.items ≡ wires.items }
    requires found { All (λ j. j.found ≡ cycles_of N.start) jobs.items }
    requires cycles { cycles ≡ cycles_of N.start }
    requires some { 1 ≤ cycles }
    ensures { IfOk result (λ r. (v : PlantView) × IsRecordOf A.reply A.next_state N.firsts N.start v r) }
{
    let (plant, ports) = locked.into_parts();
    match end_all(alloc, &plant, wires, ports, jobs) {
        Ok(turns) => record_run::<A, N>(alloc, plant, turns, cycles),
        Err(_) => {
            drop(plant);
            Err(NoMemory)
        }
    }
}

/// The record of a plant that is done, with these turns.
fn record_run<A: IsoApp, N: Naming + Firsts<A>>(
    alloc: Global,
    plant: PlantState,
    turns: Items<Items<Turn>>,
    cycles: u32,
) -> Result<Record, NoMemory>
    requires ended { HasEnded N.start plant }
    requires cycles { cycles ≡ cycles_of N.start }
    requires count { length turns ≡ length plant.plant.apps }
    requires turns { (app : ℕ) → app < length turns →
        HasLegalLog A.reply A.next_state N.firsts plant app (slice_index_or turns app []) }
    ensures { IfOk result (IsRecordOf A.reply A.next_state N.firsts N.start plant) }
{
    let History { apps, journal } = plant.into_history();
    match records(alloc, apps, turns) {
        Ok(apps) => Ok(Record {
            cycles,
            apps,
            journal,
        }),
        Err(_) => {
            drop(journal);
            Err(NoMemory)
        }
    }
}

/// Plays the cycles that are still lacking, once no thread runs.
fn last_cycles<N: Naming, R: Wait>(
    rt: &R,
    locked: &mut Locked<N>,
    wires: &[Wire<N>],
) -> Result<(), NoMemory>
    requires { AreWires (app_count N.start) wires.now }
    ensures { IfOk result (λ _. locked.new.plant.done ≡ cycles_of N.start) }
{
    for _ in rt.forever() {
        match locked.cycle(wires) {
            Tried::AllDone => return Ok(()),
            Tried::Stopped => return Err(NoMemory),
            Tried::Stepped(_) | Tried::Stale => {}
        }
    }
    unreachable!()
}

/// What is left of each app: takes and images by cycle, and its turns.
fn records(
    alloc: Global,
    histories: Items<AppHistory>,
    turns: Items<Items<Turn>>,
) -> Result<Items<AppRecord>, NoMemory>
    requires { length histories ≡ length turns }
    ensures { IfOk result (λ all. all ≡ logs_of histories turns) }
{
    let mut all = Items::with_capacity(alloc, turns.len())?;
    let mut turns = turns.into_vec().into_iter();
    for history in histories.into_vec() {
        let (takes, images) = history.into_lists();
        all.push(AppRecord::new(takes, images, take_next(&mut turns)))?;
    }
    Ok(all)
}
