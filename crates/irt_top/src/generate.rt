//! The command `gen`: a plant by a seed, its file, and the run of first fit's blocks of its devices.

ghost use Rattle.std.specs.Prelude.{◌≡◌, ◌≤◌, ◌++◌, ℕ, List, IfOk, IfErr};
ghost use Rattle.irt_base.specs.Valid.{IsWithin};
ghost use Rattle.irt_base.specs.Wiring.{peer_of};
ghost use Rattle.irt_base.specs.declared.limits.TheConstants.{MAX_DEMANDS, MAX_DEVICES};
ghost use Rattle.irt_base.specs.declared.numbers.PortNo.{PortNo};
ghost use Rattle.irt_io.specs.Fault.{IsLater};
ghost use Rattle.irt_route.specs.Routes.{AreTrafficWalks, IsRoutesOf};
ghost use Rattle.irt_steps.specs.Follow.{Follows, Decides, HasCause, IsNoFault};
ghost use Rattle.irt_steps.specs.Steps.{asks, gives, stores};
ghost use Rattle.irt_topo.specs.Reading.{IsPlantDocument};
ghost use Rattle.irt_words.specs.declared.asked.TheConstants.{MIN_GENERATED};
ghost use Rattle.irt_world.specs.declared.rows.World.{World};
ghost use Rattle.plan_rules.specs.Places.{IsAccepted};
ghost use Rattle.plan_rules.specs.Plan.{IsPlan};
ghost use Rattle.plan_run.specs.Run.{IsRecordOf};
ghost use Rattle.plan_run.specs.World.{IsSeedWorld};
ghost use Rattle.plan_schedule.specs.Text.{red_line};
ghost use Rattle.plant_gen.specs.Generated.{generated_plant};
ghost use Rattle.plant_rules.specs.Meets.{MeetsRules};
ghost use Rattle.record_text.specs.Text.{end_text};
ghost use Rattle.irt_top.specs.Gen.{IsGenText, gen_line, gen_steps, made_steps};
ghost use Rattle.irt_top.specs.Plan.{ArePlanned};
ghost use Rattle.irt_top.specs.declared.generate.TheConstants.{GEN_CYCLES};

use crate::plan::planned;
use cycle_rows::rows::JournalRow;
use irt_base::blocks::Bundle;
use irt_base::memory::NoMemory;
use irt_base::plants::Plant;
use irt_io::shelf::Shelf;
use irt_route::fault::RouteFault;
use irt_route::routing::routes;
use irt_route::tables::Routes;
use irt_steps::load::store_file;
use irt_steps::stop::Stop;
use plan_check::accepted::Accepted;
use plan_check::check::{Verdict, check};
use plan_run::law::worlds_and_walks_are_one;
use plan_run::run::run_record;
use plan_run::world::seed_world;
use plan_schedule::red_end;
use plant_gen::gen_plant;
use plant_print::print::print_plant;
use record_text::lettered;
use record_text::record::Record;
use std::alloc::Global;
use std::thread::Threads;

/// The cycles of the run of a plant that is made.
pub const GEN_CYCLES: u32 = 16;

/// Makes the plant of a seed, stores its file under a name, plans it, and runs it. `devices` is 2..64, `frames` is at
/// most 512.
pub fn generate<R: Threads + Sync, S: Shelf>(
    rt: &R,
    alloc: Global,
    shelf: &mut S,
    seed: u64,
    devices: u16,
    frames: u16,
    name: &str,
) -> Result<Vec<u8>, Stop>
    requires devices { IsWithin MIN_GENERATED MAX_DEVICES devices }
    requires frames { frames ≤ MAX_DEMANDS }
    ensures step { Follows (λ v. v.items)
        (gen_steps (record { seed = seed; devices = devices; frames = frames; name = name.now }))
        (S.files shelf.old) (S.files shelf.new) result }
    ensures cause { HasCause (S.faults shelf.old) (S.faults shelf.new) result }
    ensures later { IsLater (S.faults shelf.old) (S.faults shelf.new) }
{
    let plant = gen_plant(alloc, seed, devices, frames)?;
    store_plant(alloc, shelf, &plant, name)?;
    run_made(rt, alloc, &plant, seed, devices, frames)
}

/// Stores the file of a plant under a name.
fn store_plant<S: Shelf>(
    alloc: Global,
    shelf: &mut S,
    plant: &Plant,
    name: &str,
) -> Result<(), Stop>
    requires { MeetsRules plant.now }
    ensures step { Follows (λ u. u)
        (asks (λ bytes. IsPlantDocument bytes plant.now) (λ bytes. stores name.now bytes (gives tt)))
        (S.files shelf.old) (S.files shelf.new) result }
    ensures cause { HasCause (S.faults shelf.old) (S.faults shelf.new) result }
    ensures later { IsLater (S.faults shelf.old) (S.faults shelf.new) }
{
    let bytes = print_plant(alloc, plant)?;
    store_file(alloc, shelf, name, bytes.as_slice())
}

/// What follows the store: the plan of the plant that was made, and its run.
fn run_made<R: Threads + Sync>(
    rt: &R,
    alloc: Global,
    plant: &Plant,
    seed: u64,
    devices: u16,
    frames: u16,
) -> Result<Vec<u8>, Stop>
    requires rules { MeetsRules plant.now }
    requires made { plant.now ≡ generated_plant seed devices frames }
    ensures step { (name : List ℕ) → Decides (λ v. v.items)
        (made_steps (record { seed = seed; devices = devices; frames = frames; name = name })) result }
    ensures calm { IfErr result IsNoFault }
{
    let bundles = planned(alloc, plant)?;
    Ok(summary(rt, alloc, plant, bundles.as_slice(), seed, devices, frames)?)
}

/// What is printed of the plant that was made and of the run of first fit's bundles.
fn summary<R: Threads + Sync>(
    rt: &R,
    alloc: Global,
    plant: &Plant,
    bundles: &[Bundle],
    seed: u64,
    devices: u16,
    frames: u16,
) -> Result<Vec<u8>, NoMemory>
    requires plan { IsPlan plant.now bundles.now }
    requires accepted { IsAccepted plant.now bundles.now }
    requires planned { ArePlanned plant.now bundles.now }
    requires made { plant.now ≡ generated_plant seed devices frames }
    ensures { (name : List ℕ) → IfOk result (λ v.
        IsGenText (record { seed = seed; devices = devices; frames = frames; name = name }) bundles.now v.items) }
{
    let accepted = accept(alloc, plant, bundles)?;
    summary_of(rt, alloc, &accepted, seed, devices, frames)
}

/// The same of a plan that the rules accept.
fn summary_of<R: Threads + Sync>(
    rt: &R,
    alloc: Global,
    accepted: &Accepted,
    seed: u64,
    devices: u16,
    frames: u16,
) -> Result<Vec<u8>, NoMemory>
    requires planned { ArePlanned accepted.now.plant accepted.now.bundles }
    requires made { accepted.now.plant ≡ generated_plant seed devices frames }
    ensures { (name : List ℕ) → IfOk result (λ v.
        IsGenText (record { seed = seed; devices = devices; frames = frames; name = name })
        accepted.now.bundles v.items) }
{
    accepted.facts();
    let log = run_accepted(rt, alloc, accepted, seed)?;
    gen_text(alloc, devices, frames, red_end(accepted.bundles()), &log)
}

/// A plan that the rules accept.
fn accept(alloc: Global, plant: &Plant, bundles: &[Bundle]) -> Result<Accepted, NoMemory>
    requires plan { IsPlan plant.now bundles.now }
    requires accepted { IsAccepted plant.now bundles.now }
    ensures { IfOk result (λ a. (a.plant ≡ plant.now) × (a.bundles ≡ bundles.now)) }
{
    match check(alloc, plant, bundles)? {
        Verdict::Accept(accepted) => Ok(accepted),
        Verdict::Reject(_) => unreachable!(),
    }
}

/// The record of the lockstep run of first fit's bundles over the world of a seed.
fn run_accepted<R: Threads + Sync>(
    rt: &R,
    alloc: Global,
    accepted: &Accepted,
    seed: u64,
) -> Result<Record, NoMemory>
    requires { ArePlanned accepted.now.plant accepted.now.bundles }
    ensures { IfOk result (λ log. (walks : List (List PortNo)) × (world : World) ×
        AreTrafficWalks (peer_of accepted.now.plant) accepted.now.plant.traffic walks ×
        IsSeedWorld accepted.now.plant accepted.now.bundles seed GEN_CYCLES world ×
        IsRecordOf accepted.now.plant accepted.now.bundles walks world log) }
{
    worlds_and_walks_are_one();
    let routes = planned_routes(alloc, accepted)?;
    let world = seed_world(alloc, accepted, GEN_CYCLES, seed)?;
    run_record(rt, alloc, accepted, &routes, world)
}

/// The routes along which first fit's bundles were planned.
fn planned_routes(alloc: Global, accepted: &Accepted) -> Result<Routes, NoMemory>
    requires { ArePlanned accepted.now.plant accepted.now.bundles }
    ensures { IfOk result (IsRoutesOf accepted.now.plant) }
{
    accepted.facts();
    match routes(alloc, accepted.plant()) {
        Ok(routes) => Ok(routes),
        Err(RouteFault::NoMemory) => Err(NoMemory),
        Err(RouteFault::Unreachable { .. }) => unreachable!(),
        Err(RouteFault::NoPath { .. }) => unreachable!(),
    }
}

/// The numbers of devices and frames, the end of the red periods, and the last line of a record.
fn gen_text(
    alloc: Global,
    devices: u16,
    frames: u16,
    red: u32,
    log: &Record,
) -> Result<Vec<u8>, NoMemory>
    ensures { IfOk result (λ v.
        v.items ≡ gen_line devices frames ++ (red_line red ++ end_text log.now.cycles log.now.journal)) }
{
    let mut text = gen_line(alloc, devices, frames)?;
    text.extend_from_slice(red_line(alloc, red)?.as_slice())?;
    text.extend_from_slice(end_line(alloc, log.cycles, log.journal.as_slice())?.as_slice())?;
    Ok(text)
}

/// The numbers of devices and frames.
fn gen_line(alloc: Global, devices: u16, frames: u16) -> Result<Vec<u8>, NoMemory>
    ensures { IfOk result (λ v. v.items ≡ gen_line devices frames) }
{
    let line = format!(in alloc; "gen {devices} {frames}\n")?;
    Ok(line.into_bytes())
}

/// The end of the red periods.
fn red_line(alloc: Global, red: u32) -> Result<Vec<u8>, NoMemory>
    ensures { IfOk result (λ v. v.items ≡ red_line red) }
{
    let line = format!(in alloc; "red {red}\n")?;
    Ok(line.into_bytes())
}

/// The last line of a record.
fn end_line(alloc: Global, cycles: u32, rows: &[JournalRow]) -> Result<Vec<u8>, NoMemory>
    ensures { IfOk result (λ v. v.items ≡ end_text cycles rows.now) }
{
    let occupied = lettered(b'o', rows);
    let delivered = lettered(b'd', rows);
    let dropped = lettered(b'x', rows);
    let line = format!(in alloc; "end {cycles} {occupied} {delivered} {dropped}\n")?;
    Ok(line.into_bytes())
}
