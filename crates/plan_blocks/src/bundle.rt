//! The bundle of a device.

ghost use Rattle.std.specs.Prelude.{◌≡◌, ◌+◌, ◌*◌, ◌^◌, ◌<◌, ◌≤◌, ℕ, IfOk, Some, length, slice_get};
ghost use Rattle.irt_base.specs.declared.limits.TheConstants.{MAX_DEVICES, MAX_PORTS};
ghost use Rattle.irt_base.specs.declared.plants.Device.{Device};
ghost use Rattle.plan_rules.specs.Headers.{is_relative};
ghost use Rattle.fit_rules.specs.Blocks.{sync_of, global_of, AreBundlesOf};
ghost use Rattle.plan_blocks.specs.Blocks.{AreLastEnds};
ghost use Rattle.plan_blocks.specs.Entries.{entries_at, AreByFrame};
ghost use Rattle.plan_blocks.specs.Bundles.{ArePeriodsBy, AreBundlesBy, AreSmallEnds};

use crate::ends::LastEnds;
use crate::entries::entries_at;
use crate::periods::port_periods;
use fit_rules::fixed::{
    CLOCK_SINK, CLOCK_SOURCE, PRIORITY_1, PRIORITY_2, SLOT, STARTUP, SUBSLOT, TAKEOVER,
};
use fit_rules::frame_plan::FramePlan;
use irt_base::blocks::{Bundle, FrameBlock, GlobalBlock, PeriodBlock, SyncBlock};
use irt_base::limits::{MAX_FRAME, MIN_FRAME};
use irt_base::list::Items;
use irt_base::memory::NoMemory;
use irt_base::numbers::{DevId, PortNo};
use irt_base::plants::{Device, Mode, Plant};
use std::alloc::Global;

/// The sync domain and the IR data.
const IDENTIFIER: [u8; 16] = [0, 0, 0, 0, 0, 0, 0, 0, 0, 0, 0, 0, 0, 0, 0, 1];

/// The bundles of placed frames, which stand by ascending FrameID, and of the last ends of what each port sends and
/// receives.
pub fn bundles_of(
    alloc: Global,
    plant: &Plant,
    plans: &[FramePlan],
    tx: &LastEnds,
    rx: &LastEnds,
) -> Result<Items<Bundle>, NoMemory>
    requires devices { length plant.now.devices ≤ MAX_DEVICES }
    requires ports { (n : ℕ) (d : Device) → slice_get plant.now.devices n ≡ Some d → length d.ports ≤ MAX_PORTS }
    requires small { AreSmallEnds plant.now.orange tx.now }
    ensures by_ends { IfOk result (AreBundlesBy plant.now plans.now tx.now rx.now) }
    // Where the ends are those of the frames, the bundles are the frames' own.
    ensures plans { AreLastEnds plant.now plans.now tx.now rx.now → AreByFrame plans.now → IfOk result (AreBundlesOf plant.now plans.now) }
{
    let mut bundles = Items::new(alloc);
    for (place, device) in plant.devices.as_slice().iter().enumerate() {
        let number = DevId(place as u8);
        bundles.push(Bundle {
            sync: sync_of(alloc, plant, number)?,
            slot: SLOT,
            subslot: SUBSLOT,
            global: global_of(alloc, device)?,
            frames: frames_of(alloc, plans, number, device.mode)?,
            periods: periods_of(alloc, tx, rx, plant.orange, number, device.ports.len())?,
        })?;
    }
    Ok(bundles)
}

fn frames_of(
    alloc: Global,
    plans: &[FramePlan],
    device: DevId,
    mode: Mode,
) -> Result<FrameBlock, NoMemory>
    ensures { IfOk result (λ block. block ≡ record { relative = is_relative mode; entries = entries_at plans.now device.0 }) }
{
    let entries = entries_at(alloc, plans, device)?;
    Ok(FrameBlock {
        relative: is_relative(mode),
        entries,
    })
}

fn is_relative(mode: Mode) -> bool
    ensures { result ≡ is_relative mode }
{
    match mode {
        Mode::Absolute => false,
        Mode::Relative => true,
    }
}

fn sync_of(alloc: Global, plant: &Plant, device: DevId) -> Result<SyncBlock, NoMemory>
    ensures { IfOk result (λ block. block ≡ sync_of plant.now device.0) }
{
    let name = Vec::from_slice(alloc, "irt".as_bytes())?;
    Ok(SyncBlock {
        subdomain: IDENTIFIER,
        window: plant.window,
        send: plant.sync.send,
        factor: u16::from(plant.factor),
        timeout: plant.sync.timeout,
        takeover: TAKEOVER,
        startup: STARTUP,
        properties: if device.0 == 0 {
            CLOCK_SOURCE
        } else {
            CLOCK_SINK
        },
        priority1: PRIORITY_1,
        priority2: PRIORITY_2,
        name: Items::from_vec(name),
    })
}

fn global_of(alloc: Global, device: &Device) -> Result<GlobalBlock, NoMemory>
    ensures { IfOk result (λ block. block ≡ global_of device.now) }
{
    let ports = device.ports.try_copy(alloc)?;
    Ok(GlobalBlock {
        uuid: IDENTIFIER,
        bridge: device.bmax,
        ports,
    })
}

fn periods_of(
    alloc: Global,
    tx: &LastEnds,
    rx: &LastEnds,
    orange: u32,
    device: DevId,
    count: usize,
) -> Result<PeriodBlock, NoMemory>
    requires device { device.0 < MAX_DEVICES }
    requires count { count ≤ MAX_PORTS }
    requires small { AreSmallEnds orange tx.now }
    ensures { IfOk result (ArePeriodsBy orange tx.now rx.now device.0 count) }
{
    let mut ports = Items::new(alloc);
    for port in 0..count {
        let number = PortNo(port as u8 + 1);
        ports.push(port_periods(alloc, tx, rx, orange, device, number)?)?;
    }
    Ok(PeriodBlock {
        first: MIN_FRAME,
        last: MAX_FRAME,
        ports,
    })
}
