//! The schedules of a plan's frames.

ghost use Rattle.std.specs.Prelude.{◌≡◌, Some, IfOk};
ghost use Rattle.irt_window.specs.Plans.{IsNet, Stands, setup_in};
ghost use Rattle.plan_rules.specs.Plan.{IsPlan, setup_of};
ghost use Rattle.plan_rules.specs.Tree.{AreTrees, demand_of};
ghost use Rattle.plan_rules.specs.Way.{entry_at};
ghost use Rattle.plan_rules.specs.Ways.{AreWays};
ghost use Rattle.plan_schedule.specs.Schedules.{IsScheduleOf, AreSchedules};

use crate::planned::last_planned;
use irt_base::blocks::{Bundle, Entry};
use irt_base::limits::{MAX_FRAME, MIN_FRAME};
use irt_base::list::Items;
use irt_base::memory::NoMemory;
use irt_base::numbers::FrameId;
use irt_base::plants::{Demand, Plant};
use irt_window::demands::demand_numbers;
use irt_window::net::{Net, demand_at, entry_at, entry_of};
use irt_window::trees::trees;
use irt_window::windows::Trees;
use link_index::index::LinkIndex;
use plan_rules::way::Way;
use std::alloc::Global;

/// When a demand's frame is sent, and by when its last receiver has it.
#[derive(Clone, Copy, PartialEq, Eq)]
pub struct Schedule {
    pub frame: FrameId,
    /// The frame is sent in every `ratio`-th send cycle.
    pub ratio: u16,
    /// In which of them, from 1.
    pub phase: u16,
    /// In ns of a cycle.
    pub planned: u64,
}

/// The schedules of all demands, by ascending FrameID.
pub fn schedules(
    alloc: Global,
    plant: &Plant,
    bundles: &[Bundle],
) -> Result<Items<Schedule>, NoMemory>
    requires plan { IsPlan plant.now bundles.now }
    requires trees { AreTrees (setup_of plant.now bundles.now) }
    ensures { IfOk result (AreSchedules plant.now bundles.now) }
{
    let links = LinkIndex::new(alloc, plant)?;
    let numbers = demand_numbers(alloc, plant)?;
    let net = Net::new(plant, bundles, &links, &numbers);
    match trees(alloc, &net)? {
        Trees::Whole(windows) => schedule_all(alloc, &net, windows.ways()),
        Trees::Broken(_) => unreachable!(),
    }
}

fn schedule_all(
    alloc: Global,
    net: &Net<'_>,
    ways: &[Items<Way>],
) -> Result<Items<Schedule>, NoMemory>
    requires net { IsNet net.now }
    requires trees { AreTrees (setup_in net.now) }
    requires ways { AreWays net.now.plant.now net.now.bundles.now ways.now }
    ensures { IfOk result (AreSchedules net.now.plant.now net.now.bundles.now) }
{
    let mut rows = Items::new(alloc);
    for frame in MIN_FRAME..MAX_FRAME + 1 {
        if let Some(demand) = demand_at(net, FrameId(frame)) {
            rows.push(schedule_of(net, ways, demand))?;
        }
    }
    Ok(rows)
}

/// The schedule of a demand.
fn schedule_of(net: &Net<'_>, ways: &[Items<Way>], demand: &Demand) -> Schedule
    requires net { IsNet net.now }
    requires trees { AreTrees (setup_in net.now) }
    requires ways { AreWays net.now.plant.now net.now.bundles.now ways.now }
    requires asked { demand_of net.now.plant.now demand.now.frame.0 ≡ Some demand.now }
    ensures is { IsScheduleOf (setup_in net.now) result }
    ensures frame { result.frame ≡ demand.now.frame }
{
    let entry = provided(net, demand);
    Schedule {
        frame: demand.frame,
        ratio: entry.ratio,
        phase: entry.phase,
        planned: last_planned(net, ways, demand.frame),
    }
}

/// The entry of a demand's frame at its provider.
fn provided(net: &Net<'_>, demand: &Demand) -> Entry
    requires net { IsNet net.now }
    requires trees { AreTrees (setup_in net.now) }
    requires asked { demand_of net.now.plant.now demand.now.frame.0 ≡ Some demand.now }
    ensures { entry_at (setup_in net.now) demand.now.provider.0 demand.now.frame.0 ≡ Some result }
{
    match entry_at(net, demand.provider, demand.frame) {
        None => unreachable!(),
        Some(place) => entry_of(net, demand.provider, place),
    }
}
