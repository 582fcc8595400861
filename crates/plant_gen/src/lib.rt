//! Plants by seed: a tree of devices, and frames between any two of them.
#![tactic(auto)]

ghost use Rattle.std.specs.Prelude.{◌≡◌, ◌+◌, ◌<◌, ◌≤◌, ◌-◌, ◌^◌, map, IfOk};
ghost use Rattle.std.specs.List.{range_with_len};
ghost use Rattle.irt_base.specs.Valid.{IsWithin};
ghost use Rattle.plant_rules.specs.Meets.{MeetsRules};
ghost use Rattle.plant_gen.specs.Generated.{generated_mode, generated_device, generated_link, generated_provider, generated_consumer, generated_update, generated_demand, generated_plant};

use irt_base::blocks::PortDelay;
use irt_base::limits::{DATA_STEP, FACTOR_TIME, MAX_DEMANDS, MAX_DEVICES, MIN_DATA, MIN_FRAME};
use irt_base::list::Items;
use irt_base::memory::NoMemory;
use irt_base::numbers::{DevId, FrameId, PortNo};
use irt_base::plants::{Clocks, Demand, Device, Link, Mode, Plant, SyncPlan};
use seed_draws::draw;
use std::alloc::Global;

/// Send clock factor of a generated plant, in units of 31.25 microseconds: a cycle of 4 ms.
pub const FACTOR: u8 = 128;

/// Its window, in ns.
pub const WINDOW: u32 = 1000;

/// The greatest end of a red period, in ns.
pub const RED_MAX: u32 = 3_500_000;

/// Least and greatest bridge delay of each device, in ns.
pub const BMIN: u32 = 1000;

pub const BMAX: u32 = 3000;

/// The ports of each device, and their delays in ns. Port 1 leads up the tree, the others down.
pub const PORTS: usize = 7;

pub const TX_DELAY: u32 = 100;

pub const RX_DELAY: u32 = 200;

/// The least delay of a link, in ns. The greatest is one less than twice that.
pub const LINK_DELAY: u32 = 500;

/// How many links lead down from a device at most.
pub const DOWN_LINKS: u8 = 6;

/// Cycles between two sync messages, and after how many lost ones a device mutes.
pub const SEND: u32 = 32;

pub const TIMEOUT: u16 = 6;

/// The plant of a seed, with 2 to `MAX_DEVICES` devices and at most `MAX_DEMANDS` frames. It meets the plant rules.
pub fn gen_plant(alloc: Global, seed: u64, devices: u16, frames: u16) -> Result<Plant, NoMemory>
    requires devices { IsWithin 2 MAX_DEVICES devices }
    requires frames { frames ≤ MAX_DEMANDS }
    ensures plant { IfOk result (λ plant. plant ≡ generated_plant seed devices frames) }
    ensures rules { IfOk result MeetsRules }
{
    made_plant(alloc, seed, devices as u8, frames)
}

fn made_plant(alloc: Global, seed: u64, devices: u8, frames: u16) -> Result<Plant, NoMemory>
    requires devices { IsWithin 2 MAX_DEVICES devices }
    requires frames { frames ≤ MAX_DEMANDS }
    ensures plant { IfOk result (λ plant. plant ≡ generated_plant seed devices frames) }
    ensures rules { IfOk result MeetsRules }
{
    Ok(Plant {
        factor: FACTOR,
        window: WINDOW,
        red_max: RED_MAX,
        orange: 0,
        clocks: Clocks::World,
        sync: SyncPlan {
            send: SEND,
            timeout: TIMEOUT,
            drift: 0,
            stamp: 0,
            loss: 0,
        },
        devices: gen_devices(alloc, seed, devices)?,
        links: gen_links(alloc, seed, devices)?,
        demands: gen_demands(alloc, seed, devices, frames)?,
        traffic: Items::new(alloc),
        apps: Items::new(alloc),
    })
}

fn gen_devices(alloc: Global, seed: u64, devices: u8) -> Result<Items<Device>, NoMemory>
    ensures { IfOk result (λ made. made ≡ map (generated_device seed) (range_with_len 0 devices)) }
{
    let mut made = Items::new(alloc);
    for device in 0..devices {
        made.push(gen_device(alloc, seed, device)?)?;
    }
    Ok(made)
}

fn gen_device(alloc: Global, seed: u64, device: u8) -> Result<Device, NoMemory>
    ensures { IfOk result (λ made. made ≡ generated_device seed device) }
{
    let name = format!(in alloc; "d{device}")?;
    let delay = PortDelay {
        tx: TX_DELAY,
        rx: RX_DELAY,
    };
    Ok(Device {
        name: Items::from_vec(name.into_bytes()),
        mode: gen_mode(seed, device),
        bmin: BMIN,
        bmax: BMAX,
        ports: Items::from_vec(vec![in alloc; delay; PORTS]?),
    })
}

fn gen_mode(seed: u64, device: u8) -> Mode
    ensures { result ≡ generated_mode seed device }
{
    if draw(seed, 1, u64::from(device), 0) % 4 == 0 {
        Mode::Relative
    } else {
        Mode::Absolute
    }
}

fn gen_links(alloc: Global, seed: u64, devices: u8) -> Result<Items<Link>, NoMemory>
    requires { 2 ≤ devices }
    ensures { IfOk result (λ made. made ≡ map (generated_link seed) (range_with_len 1 (devices - 1))) }
{
    let mut made = Items::new(alloc);
    for device in 1..devices {
        made.push(gen_link(seed, device))?;
    }
    Ok(made)
}

fn gen_link(seed: u64, device: u8) -> Link
    requires { 1 ≤ device }
    ensures { result ≡ generated_link seed device }
{
    let above = device - 1;
    let more = draw(seed, 2, u64::from(device), 0) % u64::from(LINK_DELAY);
    Link {
        a: DevId(above / DOWN_LINKS),
        a_port: PortNo(2 + above % DOWN_LINKS),
        b: DevId(device),
        b_port: PortNo(1),
        delay: LINK_DELAY + more as u32,
    }
}

fn gen_demands(
    alloc: Global,
    seed: u64,
    devices: u8,
    frames: u16,
) -> Result<Items<Demand>, NoMemory>
    requires devices { 2 ≤ devices }
    requires frames { frames ≤ MAX_DEMANDS }
    ensures { IfOk result (λ made. made ≡ map (generated_demand seed devices) (range_with_len 0 frames)) }
{
    let mut made = Items::new(alloc);
    for number in 0..frames {
        made.push(gen_demand(alloc, seed, devices, number)?)?;
    }
    Ok(made)
}

fn gen_demand(alloc: Global, seed: u64, devices: u8, number: u16) -> Result<Demand, NoMemory>
    requires devices { 2 ≤ devices }
    requires below { number < MAX_DEMANDS }
    ensures { IfOk result (λ made. made ≡ generated_demand seed devices number) }
{
    let place = u64::from(number);
    let mut consumers = Items::new(alloc);
    consumers.push(DevId(gen_consumer(seed, devices, place)))?;
    let steps = (draw(seed, 3, place, 2) % 4) as u16;
    Ok(Demand {
        frame: FrameId(MIN_FRAME + number),
        provider: DevId(gen_provider(seed, devices, place)),
        consumers,
        length: MIN_DATA + DATA_STEP * steps,
        update: gen_update(seed, place),
    })
}

fn gen_provider(seed: u64, devices: u8, number: u64) -> u8
    requires { 1 ≤ devices }
    ensures { result ≡ generated_provider seed devices number }
{
    (draw(seed, 3, number, 0) % u64::from(devices)) as u8
}

/// Another device than the provider.
fn gen_consumer(seed: u64, devices: u8, number: u64) -> u8
    requires { 2 ≤ devices }
    ensures { result ≡ generated_consumer seed devices number }
{
    let provider = gen_provider(seed, devices, number);
    let steps = draw(seed, 3, number, 1) % (u64::from(devices) - 1);
    ((u64::from(provider) + 1 + steps) % u64::from(devices)) as u8
}

/// In ns: 1, 2, 4 or 8 cycles.
fn gen_update(seed: u64, number: u64) -> u32
    ensures { result ≡ generated_update seed number }
{
    let cycle = u32::from(FACTOR) * FACTOR_TIME;
    cycle * power(draw(seed, 3, number, 3) % 4)
}

/// The power of two of a small number.
fn power(exponent: u64) -> u32
    requires { exponent < 4 }
    ensures power { result ≡ 2 ^ exponent }
    ensures small { result ≤ 8 }
{
    match exponent {
        0 => 1,
        1 => 2,
        2 => 4,
        _ => 8,
    }
}
