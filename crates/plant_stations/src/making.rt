//! The parts of stations, as they are made.

ghost use Rattle.std.specs.Prelude.{◌≡◌, ◌<◌, ◌≤◌, All, length, map, IfOk};
ghost use Rattle.irt_base.specs.Valid.{IsBundle};
ghost use Rattle.irt_base.specs.declared.limits.TheConstants.{MAX_DEVICES};
ghost use Rattle.irt_base.specs.declared.plants.App.{App};
ghost use Rattle.irt_base.specs.declared.plants.Demand.{Demand};
ghost use Rattle.plant_stations.specs.Whole.{HaveRoom, AreSenders, AreNewConsumers};

use crate::receiver::Receiver;
use crate::sender::Sender;
use irt_base::blocks::Bundle;
use irt_base::memory::NoMemory;
use irt_base::numbers::DevId;
use irt_base::plants::{App, Demand, Plant};
use rtc3_frame::Frames;
use std::alloc::Global;

/// The senders of all devices.
pub fn senders(alloc: Global, plant: &Plant, bundles: &[Bundle]) -> Result<Vec<Sender>, NoMemory>
    requires few { length bundles.now ≤ MAX_DEVICES }
    requires valid { All IsBundle bundles.now }
    ensures { IfOk result (λ senders. AreSenders plant.now bundles.now senders.items) }
{
    let mut senders = Vec::new(alloc);
    for index in 0..bundles.len() {
        senders.push(Sender::new(alloc, plant, &bundles[index], DevId(index as u8))?)?;
    }
    Ok(senders)
}

/// The receivers of the devices of apps, in cycle 0.
pub fn receivers(alloc: Global, apps: &[App], bundles: &[Bundle]) -> Result<Vec<Receiver>, NoMemory>
    requires valid { All IsBundle bundles.now }
    requires devices { All (λ (app : App). app.device.0 < length bundles.now) apps.now }
    ensures { IfOk result (λ receivers. AreNewConsumers apps.now bundles.now receivers.items) }
{
    let mut receivers = Vec::new(alloc);
    for index in 0..apps.len() {
        let device = usize::from(apps[index].device.0);
        receivers.push(Receiver::new(alloc, &bundles[device])?)?;
    }
    Ok(receivers)
}

/// Room for the frames of demands.
pub fn frames(alloc: Global, demands: &[Demand]) -> Result<Frames, NoMemory>
    ensures { IfOk result (λ frames. HaveRoom demands.now frames) }
{
    Frames::new(alloc, lengths(alloc, demands)?.as_slice())
}

/// The bytes of the demands' data.
fn lengths(alloc: Global, demands: &[Demand]) -> Result<Vec<u16>, NoMemory>
    ensures { IfOk result (λ lengths. lengths.items ≡ map (λ (d : Demand). d.length) demands.now) }
{
    let mut lengths = Vec::new(alloc);
    for demand in demands {
        lengths.push(demand.length)?;
    }
    Ok(lengths)
}
