//! The cycles of a plant that plays a record.

ghost use Rattle.std.specs.Prelude.{◌≡◌, ◌+◌, ◌<◌, ◌≤◌, IfOk, Some, length, slice_get};
ghost use Rattle.irt_base.specs.declared.limits.TheConstants.{MAX_CYCLES};
ghost use Rattle.iso_plant.specs.Replay.{setup_in};
ghost use Rattle.iso_plant.specs.Step.{IsSamePlant};
ghost use Rattle.run_replay.specs.Cycle.{AreEndsOf, HasTaken, IsEndOf};
ghost use Rattle.run_replay.specs.Replayed.{HasShape};

use crate::ends::{CycleEnds, PlayedEnd};
use irt_base::memory::NoMemory;
use iso_plant::plant::PlantState;
use record_text::record::{AppRecord, Take};
use std::alloc::Global;

/// What a log has of cycle `k`.
fn take_at(log: &AppRecord, k: usize) -> &Take
    requires { k < length log.now.takes }
    ensures { slice_get log.now.takes k ≡ Some result.now }
{
    let takes = log.takes();
    &takes[k]
}

/// The app of this number in cycle `k`.
fn end_of<'a>(
    alloc: Global,
    plant: &PlantState,
    logs: &'a [AppRecord],
    k: usize,
    app: usize,
) -> Result<PlayedEnd<'a>, NoMemory>
    requires shape { HasShape (setup_in plant.now) (length plant.now.world.rows) logs.now }
    requires cycle { k < length plant.now.world.rows }
    requires app { app < length logs.now }
    ensures { IfOk result (λ e. IsEndOf (setup_in plant.now) k logs.now app e) }
{
    let image = vec![in alloc; 0u64; usize::from(plant.input_words(app))]?;
    Ok(PlayedEnd::new(take_at(&logs[app], k), image))
}

/// The apps in cycle `k`.
fn ends_of<'a>(
    alloc: Global,
    plant: &PlantState,
    logs: &'a [AppRecord],
    k: usize,
) -> Result<CycleEnds<'a>, NoMemory>
    requires shape { HasShape (setup_in plant.now) (length plant.now.world.rows) logs.now }
    requires cycle { k < length plant.now.world.rows }
    ensures { IfOk result (λ e. AreEndsOf (setup_in plant.now) k logs.now (length logs.now) e.ends.items) }
{
    let mut ends = Vec::with_capacity(alloc, logs.len())?;
    for app in 0..logs.len() {
        ends.push(end_of(alloc, plant, logs, k, app)?)?;
    }
    Ok(CycleEnds { ends })
}

/// Plays the next cycle: what is taken is what the logs have of it.
fn play_cycle(alloc: Global, plant: &mut PlantState, logs: &[AppRecord]) -> Result<(), NoMemory>
    requires open { plant.old.done < length plant.old.world.rows }
    requires cycles { length plant.old.world.rows ≤ MAX_CYCLES }
    requires shape { HasShape (setup_in plant.old) (length plant.old.world.rows) logs.now }
    requires taken { HasTaken plant.old logs.now }
    ensures same { IsSamePlant plant.old plant.new }
    ensures done { IfOk result (λ _. plant.new.done ≡ plant.old.done + 1) }
    ensures taken { IfOk result (λ _. HasTaken plant.new logs.now) }
{
    let mut ends = ends_of(alloc, plant, logs, plant.done() as usize)?;
    plant.step(&mut ends);
    Ok(())
}

/// Plays all cycles of the plant's world.
pub fn play_all(
    alloc: Global,
    plant: &mut PlantState,
    logs: &[AppRecord],
    cycles: u32,
) -> Result<(), NoMemory>
    requires begun { plant.old.done ≡ 0 }
    requires cycles { cycles ≡ length plant.old.world.rows }
    requires few { cycles ≤ MAX_CYCLES }
    requires shape { HasShape (setup_in plant.old) cycles logs.now }
    ensures same { IsSamePlant plant.old plant.new }
    ensures done { IfOk result (λ _. plant.new.done ≡ cycles) }
    ensures taken { IfOk result (λ _. HasTaken plant.new logs.now) }
{
    for _k in plant.done()..cycles {
        play_cycle(alloc, plant, logs)?;
    }
    Ok(())
}
