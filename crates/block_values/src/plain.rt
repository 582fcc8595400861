//! Plain blocks.

ghost use Rattle.std.specs.Prelude.{◌≡◌, IfOk};
ghost use Rattle.plant_rules.specs.Meets.{MeetsRules};
ghost use Rattle.plan_rules.specs.Headers.{is_relative};
ghost use Rattle.block_values.specs.Plain.{plain_port, plain_periods, plain_sync, plain_of};

use irt_base::blocks::{
    Assignment, Bundle, FrameBlock, GlobalBlock, Period, PeriodBlock, PhasePair, PortPeriods,
    SyncBlock,
};
use irt_base::limits::{MAX_RED_FRAME, MIN_FRAME};
use irt_base::list::Items;
use irt_base::memory::NoMemory;
use irt_base::plants::{Device, Mode, Plant};
use std::alloc::Global;

/// The blocks of a device that repeat the plant's numbers, with no frame. Every port has one assignment for all
/// phases: red from 0 to the plant's red limit, then orange.
pub fn plain_bundle(alloc: Global, plant: &Plant, device: &Device) -> Result<Bundle, NoMemory>
    requires { MeetsRules plant.now }
    ensures { IfOk result (λ b. b ≡ plain_of plant.now device.now) }
{
    Ok(Bundle {
        sync: plain_sync(alloc, plant)?,
        slot: 0,
        subslot: 0x8000,
        global: GlobalBlock {
            uuid: [7; 16],
            bridge: device.bmax,
            ports: device.ports.try_copy(alloc)?,
        },
        frames: FrameBlock {
            relative: is_relative(device.mode),
            entries: Items::new(alloc),
        },
        periods: plain_periods(alloc, plant, device.ports.len())?,
    })
}

fn is_relative(mode: Mode) -> bool
    ensures { result ≡ is_relative mode }
{
    match mode {
        Mode::Absolute => false,
        Mode::Relative => true,
    }
}

fn plain_sync(alloc: Global, plant: &Plant) -> Result<SyncBlock, NoMemory>
    ensures { IfOk result (λ b. b ≡ plain_sync plant.now) }
{
    Ok(SyncBlock {
        subdomain: [9; 16],
        window: plant.window,
        send: plant.sync.send,
        factor: u16::from(plant.factor),
        timeout: plant.sync.timeout,
        takeover: 0,
        startup: 0,
        properties: 0,
        priority1: 0,
        priority2: 0,
        name: Items::from_vec(Vec::from_slice(alloc, b"irt")?),
    })
}

fn plain_periods(alloc: Global, plant: &Plant, ports: usize) -> Result<PeriodBlock, NoMemory>
    requires { MeetsRules plant.now }
    ensures { IfOk result (λ b. b ≡ plain_periods plant.now ports) }
{
    let period = Period {
        red: 0,
        orange: plant.red_max,
        green: plant.red_max + plant.orange,
    };
    let mut all = Items::new(alloc);
    for _port in 0..ports {
        all.push(plain_port(alloc, period)?)?;
    }
    Ok(PeriodBlock {
        first: MIN_FRAME,
        last: MAX_RED_FRAME,
        ports: all,
    })
}

fn plain_port(alloc: Global, period: Period) -> Result<PortPeriods, NoMemory>
    ensures { IfOk result (λ p. p ≡ plain_port period) }
{
    let assignment = Assignment {
        tx: period,
        rx: period,
    };
    let pair = PhasePair { tx: 0, rx: 0 };
    Ok(PortPeriods {
        assignments: Items::from_vec(Vec::from_slice(alloc, &[assignment])?),
        phases: Items::from_vec(Vec::from_slice(alloc, &[pair; 16])?),
    })
}
