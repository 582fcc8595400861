//! The memory of a run, made before it begins.

ghost use Rattle.std.specs.Prelude.{◌≡◌, ◌<◌, All, length, map, replicate, IfOk};
ghost use Rattle.irt_base.specs.Valid.{IsBundle};
ghost use Rattle.irt_base.specs.declared.plants.App.{App};
ghost use Rattle.iso_plant.specs.Made.{begun_history, HaveFewWords, zero_image, zero_output};
ghost use Rattle.plan_rules.specs.Plan.{setup_of};

use crate::history::AppHistory;
use irt_base::blocks::Bundle;
use irt_base::list::Items;
use irt_base::memory::NoMemory;
use irt_base::plants::{App, Plant};
use plant_stations::widths::{input_words, output_words};
use std::alloc::Global;

/// Of each app, what a run of so many cycles leaves of it, before cycle 0.
pub(crate) fn new_histories(
    alloc: Global,
    plant: &Plant,
    bundles: &[Bundle],
    cycles: usize,
) -> Result<Vec<AppHistory>, NoMemory>
    requires bundles { All IsBundle bundles.now }
    requires devices { All (λ (a : App). a.device.0 < length bundles.now) plant.now.apps }
    requires few { HaveFewWords (setup_of plant.now bundles.now) }
    ensures { IfOk result (λ v. v.items ≡ map (begun_history (setup_of plant.now bundles.now) cycles) plant.now.apps) }
{
    let apps = plant.apps.as_slice();
    let mut histories = Vec::with_capacity(alloc, apps.len())?;
    for app in apps {
        histories.push(new_history(alloc, plant, bundles, app, cycles)?)?;
    }
    Ok(histories)
}

fn new_history(
    alloc: Global,
    plant: &Plant,
    bundles: &[Bundle],
    app: &App,
    cycles: usize,
) -> Result<AppHistory, NoMemory>
    requires bundles { All IsBundle bundles.now }
    requires device { app.now.device.0 < length bundles.now }
    requires few { HaveFewWords (setup_of plant.now bundles.now) }
    ensures { IfOk result (λ h. h ≡ begun_history (setup_of plant.now bundles.now) cycles app.now) }
{
    let bundle = &bundles[usize::from(app.device.0)];
    let outputs = output_words(bundle) as u16;
    let inputs = input_words(bundle) as u16;
    AppHistory::new(alloc, outputs, inputs, cycles)
}

/// Of each device, zeros as what it sent last.
pub(crate) fn zero_outputs(alloc: Global, bundles: &[Bundle]) -> Result<Vec<Items<u64>>, NoMemory>
    requires { All IsBundle bundles.now }
    ensures { IfOk result (λ v. v.items ≡ map zero_output bundles.now) }
{
    let mut outputs = Vec::with_capacity(alloc, bundles.len())?;
    for bundle in bundles {
        outputs.push(zeros(alloc, output_words(bundle))?)?;
    }
    Ok(outputs)
}

/// Of each app, zeros as what was published last.
pub(crate) fn zero_images(
    alloc: Global,
    histories: &[AppHistory],
) -> Result<Vec<Items<u64>>, NoMemory>
    ensures { IfOk result (λ v. v.items ≡ map zero_image histories.now) }
{
    let mut images = Vec::with_capacity(alloc, histories.len())?;
    for history in histories {
        images.push(zeros(alloc, usize::from(history.input_words()))?)?;
    }
    Ok(images)
}

fn zeros(alloc: Global, count: usize) -> Result<Items<u64>, NoMemory>
    ensures { IfOk result (λ words. words ≡ replicate count 0) }
{
    let words = vec![in alloc; 0u64; count]?;
    Ok(Items::from_vec(words))
}
