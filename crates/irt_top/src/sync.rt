//! The command `sync`: a plant, its clocks over some cycles, and what is printed of them.

ghost use Rattle.std.specs.Prelude.{◌≡◌, ◌≤◌, IfErr};
ghost use Rattle.irt_io.specs.Fault.{IsLater};
ghost use Rattle.irt_route.specs.Clocks.{IsClockTreeOf};
ghost use Rattle.irt_steps.specs.Follow.{Follows, Decides, HasCause, IsEnding, IsNoFault};
ghost use Rattle.plant_rules.specs.Meets.{MeetsRules};
ghost use Rattle.irt_top.specs.Lines.{no_clock_line};
ghost use Rattle.irt_top.specs.PlantFile.{name_of};
ghost use Rattle.irt_top.specs.Sync.{report_steps, sync_steps};

use crate::files::load_plant;
use crate::line::no_clock_line;
use irt_base::limits::MAX_CYCLES;
use irt_base::numbers::DevId;
use irt_base::plants::Plant;
use irt_io::shelf::Shelf;
use irt_route::clocks::{ClockTree, clock_tree};
use irt_route::fault::ClockFault;
use irt_steps::line::line_stop;
use irt_steps::stop::{Cause, Stop};
use std::alloc::Global;
use sync_world::report::{report_text, sync_report};

/// The report of a plant's clocks over so many cycles, by a seed. The plant's clocks may be of either kind.
pub fn sync<S: Shelf>(
    alloc: Global,
    shelf: &mut S,
    name: &str,
    cycles: u32,
    seed: u64,
) -> Result<Vec<u8>, Stop>
    requires { cycles ≤ MAX_CYCLES }
    ensures step { Follows (λ v. v.items) (sync_steps name.now cycles seed)
        (S.files shelf.old) (S.files shelf.new) result }
    ensures kept { S.files shelf.new ≡ S.files shelf.old }
    ensures cause { HasCause (S.faults shelf.old) (S.faults shelf.new) result }
    ensures later { IsLater (S.faults shelf.old) (S.faults shelf.new) }
{
    let plant = load_plant(alloc, shelf, name)?;
    report(alloc, &plant, cycles, seed)
}

/// The same of a plant that was read.
fn report(alloc: Global, plant: &Plant, cycles: u32, seed: u64) -> Result<Vec<u8>, Stop>
    requires rules { MeetsRules plant.now }
    requires cycles { cycles ≤ MAX_CYCLES }
    ensures step { Decides (λ v. v.items) (report_steps cycles seed plant.now) result }
    ensures calm { IfErr result IsNoFault }
{
    match clock_tree(alloc, plant) {
        Ok(tree) => reported(alloc, plant, &tree, cycles, seed),
        Err(ClockFault::NoMemory) => Err(Stop::NoMemory),
        Err(ClockFault::NoClock { device }) => Err(cut_off(alloc, plant, device)),
    }
}

/// What a device to which no walk leads ends the command with.
fn cut_off(alloc: Global, plant: &Plant, device: DevId) -> Stop
    ensures calm { IsNoFault result }
    ensures ending { IsEnding result 6 (no_clock_line (name_of plant.now device.0)) }
{
    let name = match plant.devices.get(usize::from(device.0)) {
        Some(device) => device.name.as_slice(),
        None => &[],
    };
    line_stop(Cause::NoWalk, no_clock_line(alloc, name))
}

/// The report by the plant's clock tree.
fn reported(
    alloc: Global,
    plant: &Plant,
    tree: &ClockTree,
    cycles: u32,
    seed: u64,
) -> Result<Vec<u8>, Stop>
    requires own { IsClockTreeOf plant.now tree.now }
    requires cycles { cycles ≤ MAX_CYCLES }
    ensures step { Decides (λ v. v.items) (report_steps cycles seed plant.now) result }
    ensures calm { IfErr result IsNoFault }
{
    let lines = sync_report(alloc, seed, plant, tree, cycles)?;
    Ok(report_text(alloc, plant, lines.as_slice())?)
}
