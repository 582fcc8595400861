//! The lockstep run.

ghost use Rattle.std.specs.Prelude.{◌≡◌, ◌≤◌, List, IfOk, length};
ghost use Rattle.irt_base.specs.declared.limits.TheConstants.{MAX_CYCLES};
ghost use Rattle.irt_route.specs.Routes.{IsRoutesOf};
ghost use Rattle.irt_world.specs.Rows.{Fits};
ghost use Rattle.iso_plant.specs.Replay.{setup_in};
ghost use Rattle.iso_run.specs.Opened.{AreOpened};
ghost use Rattle.iso_run.specs.Run.{IsRunRecord};

use crate::closing::close;
use crate::cycle::run_all;
use crate::opening::{Opened, open_all};
use irt_base::list::Items;
use irt_base::memory::NoMemory;
use irt_route::tables::Routes;
use irt_world::rows::World;
use iso_app::IsoApp;
use iso_plant::plant::PlantState;
use plan_check::accepted::Accepted;
use record_text::record::Record;
use std::alloc::Global;
use std::thread::Threads;

/// Runs an accepted plan over all rows of a world, in lockstep: after each cycle every application makes one turn, side
/// by side. `apps` are the plant's applications before their first turn, in the plant's order.
///
/// # Errors
/// `NoMemory` where memory runs out.
pub fn run_lockstep<A: IsoApp + Send, R: Threads + Sync>(
    rt: &R,
    alloc: Global,
    accepted: &Accepted,
    routes: &Routes,
    world: World,
    apps: Items<A>,
) -> Result<Record, NoMemory>
    requires routes { IsRoutesOf accepted.now.plant routes.now }
    requires world { Fits accepted.now.plant accepted.now.bundles world }
    requires cycles { length world.rows ≤ MAX_CYCLES }
    requires apps { length apps ≡ length accepted.now.plant.apps }
    ensures { IfOk result (λ r. IsRunRecord A.reply A.next_state accepted.now.plant accepted.now.bundles
        routes.now.walks world apps r) }
{
    let cycles = world.rows.len() as u32;
    let plant = PlantState::new(alloc, accepted, routes, world)?;
    let opened = open_all(alloc, accepted, &plant, apps)?;
    run_opened(rt, alloc, plant, opened, cycles)
}

/// Runs all cycles of a plant that has played none, and gives what they leave behind.
fn run_opened<A: IsoApp + Send, R: Threads + Sync>(
    rt: &R,
    alloc: Global,
    plant: PlantState,
    opened: Opened<A>,
    cycles: u32,
) -> Result<Record, NoMemory>
    requires begun { plant.done ≡ 0 }
    requires cycles { cycles ≡ length plant.world.rows }
    requires few { cycles ≤ MAX_CYCLES }
    requires opened { (states : List A) × AreOpened (setup_in plant) states opened.apps.items opened.ends.ends.items }
    ensures { (states : List A) → AreOpened (setup_in plant) states opened.apps.items opened.ends.ends.items →
        IfOk result (λ r. IsRunRecord A.reply A.next_state plant.plant plant.bundles plant.walks plant.world states r) }
{
    let mut plant = plant;
    let Opened { mut apps, mut ends } = opened;
    run_all(
        rt,
        alloc,
        &mut plant,
        apps.as_mut_slice(),
        &mut ends,
        cycles,
    )?;
    close(alloc, plant, apps, cycles)
}
