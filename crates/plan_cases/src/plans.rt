//! Samples as plants and blocks in memory.

ghost use Rattle.std.specs.Prelude.{IfOk};
ghost use Rattle.plant_rules.specs.Meets.{MeetsRules};
ghost use Rattle.plan_rules.specs.Plan.{IsPlan};

use crate::fault::SampleFault;
use crate::samples::Sample;
use crate::text::plant_text;
use block_values::{are_bundles, plain_bundle};
use irt_base::blocks::{Bundle, Entry};
use irt_base::list::Items;
use irt_base::memory::NoMemory;
use irt_base::numbers::FrameId;
use irt_base::plants::Plant;
use irt_topo::read::read_plant;
use std::alloc::Global;

/// The plant of a sample.
fn plant_of(alloc: Global, sample: &Sample<'_>) -> Result<Plant, SampleFault>
    ensures { IfOk result MeetsRules }
{
    let text = plant_text(alloc, sample)?;
    Ok(read_plant(alloc, text.as_bytes())?)
}

/// The plan of a sample: plain blocks with its entries.
pub fn plan_of(alloc: Global, sample: &Sample<'_>) -> Result<(Plant, Vec<Bundle>), SampleFault>
    ensures { IfOk result (λ p. IsPlan p.0 p.1.items) }
{
    let plant = plant_of(alloc, sample)?;
    let bundles = bundles_of(alloc, &plant, sample)?;
    if bundles.len() == plant.devices.len() && are_bundles(bundles.as_slice()) {
        Ok((plant, bundles))
    } else {
        Err(SampleFault::Blocks)
    }
}

fn bundles_of(alloc: Global, plant: &Plant, sample: &Sample<'_>) -> Result<Vec<Bundle>, NoMemory>
    requires { MeetsRules plant.now }
{
    let mut bundles = Vec::new(alloc);
    for (number, device) in plant.devices.as_slice().iter().enumerate() {
        let mut bundle = plain_bundle(alloc, plant, device)?;
        bundle.frames.entries = entries_of(alloc, sample, number as u8)?;
        bundles.push(bundle)?;
    }
    Ok(bundles)
}

/// The entries of a device, as they stand in the sample.
fn entries_of(alloc: Global, sample: &Sample<'_>, device: u8) -> Result<Items<Entry>, NoMemory> {
    let mut entries = Items::new(alloc);
    for (at, frame, offset, rx_port, tx) in sample.rows {
        if *at == device {
            entries.push(plain_entry(*frame, *offset, *rx_port, *tx))?;
        }
    }
    Ok(entries)
}

fn plain_entry(frame: u16, send_offset: u32, rx_port: u8, tx: u8) -> Entry {
    Entry {
        send_offset,
        data_length: 40,
        ratio: 1,
        phase: 1,
        frame: FrameId(frame),
        rx_port,
        tx,
    }
}
