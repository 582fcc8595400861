//! The cycles of a lockstep run.

ghost use Rattle.std.specs.Prelude.{◌≡◌, ◌+◌, ◌<◌, ◌≤◌, List, IfOk, length};
ghost use Rattle.irt_base.specs.declared.limits.TheConstants.{MAX_CYCLES};
ghost use Rattle.iso_plant.specs.Replay.{setup_in};
ghost use Rattle.iso_plant.specs.Step.{IsSamePlant};
ghost use Rattle.iso_run.specs.InLockstep.{IsInLockstep};
ghost use Rattle.iso_run.specs.Opened.{AreOpened};

use crate::apps::LockstepApp;
use crate::ends::PlainEnds;
use crate::turns::{offer_all, show_all, turn_all};
use irt_base::memory::NoMemory;
use iso_app::IsoApp;
use iso_plant::plant::PlantState;
use std::alloc::Global;
use std::thread::Threads;

/// The next cycle, and the turns that follow it.
fn run_cycle<A: IsoApp + Send, R: Threads + Sync>(
    rt: &R,
    alloc: Global,
    plant: &mut PlantState,
    apps: &mut [LockstepApp<A>],
    ends: &mut PlainEnds,
) -> Result<(), NoMemory>
    requires open { plant.old.done < length plant.old.world.rows }
    requires cycles { length plant.old.world.rows ≤ MAX_CYCLES }
    requires lockstep { (states : List A) ×
        IsInLockstep A.reply A.next_state states plant.old apps.old ends.old.ends.items }
    ensures same { IsSamePlant plant.old plant.new }
    ensures done { plant.new.done ≡ plant.old.done + 1 }
    ensures lockstep { (states : List A) →
        IsInLockstep A.reply A.next_state states plant.old apps.old ends.old.ends.items →
        IfOk result (λ _. IsInLockstep A.reply A.next_state states plant.new apps.new ends.new.ends.items) }
{
    offer_all(apps, ends);
    plant.step(ends);
    show_all(apps, ends);
    turn_all(rt, alloc, apps, plant.done())
}

/// All cycles of the plant's world.
pub fn run_all<A: IsoApp + Send, R: Threads + Sync>(
    rt: &R,
    alloc: Global,
    plant: &mut PlantState,
    apps: &mut [LockstepApp<A>],
    ends: &mut PlainEnds,
    cycles: u32,
) -> Result<(), NoMemory>
    requires begun { plant.old.done ≡ 0 }
    requires cycles { cycles ≡ length plant.old.world.rows }
    requires few { cycles ≤ MAX_CYCLES }
    requires opened { (states : List A) × AreOpened (setup_in plant.old) states apps.old ends.old.ends.items }
    ensures same { IsSamePlant plant.old plant.new }
    ensures done { IfOk result (λ _. plant.new.done ≡ cycles) }
    ensures lockstep { (states : List A) →
        AreOpened (setup_in plant.old) states apps.old ends.old.ends.items →
        IfOk result (λ _. IsInLockstep A.reply A.next_state states plant.new apps.new ends.new.ends.items) }
{
    for _k in plant.done()..cycles {
        run_cycle(rt, alloc, plant, apps, ends)?;
    }
    Ok(())
}
