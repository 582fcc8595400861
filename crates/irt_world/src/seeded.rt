//! The world that a seed makes.

ghost use Rattle.std.specs.Prelude.{◌≡◌, ◌≤◌, ◌<◌, ◌+◌, ◌-◌, ◌%◌, All, IfOk, map, [], length};
ghost use Rattle.std.specs.List.{range_with_len};
ghost use Rattle.plan_rules.specs.Plan.{IsPlan};
ghost use Rattle.irt_world.specs.Forwardings.{HasRange, forwardings};
ghost use Rattle.irt_world.specs.Rows.{Fits};
ghost use Rattle.irt_world.specs.Seeded.{seeded_delay, seeded_delays, seeded_error, seeded_row, seeded_rows};

use crate::forwardings::{Forwarding, Forwardings};
use crate::rows::{Row, World};
use irt_base::blocks::Bundle;
use irt_base::limits::{MAX_CYCLES, MAX_DEVICES};
use irt_base::list::Items;
use irt_base::memory::NoMemory;
use irt_base::plants::Plant;
use seed_draws::{draw, signed};
use std::alloc::Global;

/// Where clock errors are drawn.
pub const ERRORS: u64 = 4;

/// Where bridge delays are drawn.
pub const DELAYS: u64 = 5;

/// The world of a seed, with so many cycles.
pub fn seeded(
    alloc: Global,
    seed: u64,
    plant: &Plant,
    bundles: &[Bundle],
    cycles: u32,
) -> Result<World, NoMemory>
    requires plan { IsPlan plant.now bundles.now }
    requires cycles { cycles ≤ MAX_CYCLES }
    ensures rows { IfOk result (λ world. world.rows ≡ seeded_rows seed plant.now bundles.now cycles) }
    ensures fits { IfOk result (Fits plant.now bundles.now) }
{
    let forwardings = Forwardings::new(alloc, plant, bundles)?;
    let mut rows = Items::with_capacity(alloc, cycles as usize)?;
    for cycle in 0..cycles {
        rows.push(seeded_row(alloc, seed, plant, &forwardings, cycle)?)?;
    }
    Ok(World { rows })
}

fn seeded_row(
    alloc: Global,
    seed: u64,
    plant: &Plant,
    forwardings: &Forwardings,
    cycle: u32,
) -> Result<Row, NoMemory>
    requires { length plant.now.devices ≤ MAX_DEVICES }
    ensures { IfOk result (λ row. row ≡ seeded_row seed plant.now forwardings.now cycle) }
{
    let errors = seeded_errors(alloc, seed, plant.window, cycle, plant.devices.len() as u32)?;
    let bridges = seeded_delays(alloc, seed, cycle, forwardings.as_slice())?;
    Ok(Row {
        errors,
        bridges,
        cuts: Items::new(alloc),
    })
}

/// The errors of so many devices in a cycle, within a window, in ns.
fn seeded_errors(
    alloc: Global,
    seed: u64,
    window: u32,
    cycle: u32,
    devices: u32,
) -> Result<Items<i64>, NoMemory>
    ensures { IfOk result (λ made. made ≡ map (seeded_error seed window cycle) (range_with_len 0 devices)) }
{
    let mut errors = Items::with_capacity(alloc, devices as usize)?;
    for device in 0..devices {
        errors.push(seeded_error(seed, window, cycle, device))?;
    }
    Ok(errors)
}

fn seeded_error(seed: u64, window: u32, cycle: u32, device: u32) -> i64
    ensures { result ≡ seeded_error seed window cycle device }
{
    signed(
        draw(seed, ERRORS, u64::from(device), u64::from(cycle)),
        window,
    )
}

/// The bridge delays of a cycle, in ns.
pub fn seeded_delays(
    alloc: Global,
    seed: u64,
    cycle: u32,
    forwardings: &[Forwarding],
) -> Result<Items<u32>, NoMemory>
    requires { All HasRange forwardings.now }
    ensures { IfOk result (λ made. made ≡ seeded_delays seed cycle forwardings.now) }
{
    let mut delays = Items::with_capacity(alloc, forwardings.len())?;
    for number in 0..forwardings.len() {
        delays.push(seeded_delay(seed, cycle, number, forwardings[number]))?;
    }
    Ok(delays)
}

fn seeded_delay(seed: u64, cycle: u32, number: usize, forwarding: Forwarding) -> u32
    requires { HasRange forwarding }
    ensures { result ≡ seeded_delay seed cycle number forwarding }
{
    let spread = u64::from(forwarding.bmax - forwarding.bmin) + 1;
    let drawn = draw(seed, DELAYS, number as u64, u64::from(cycle)) % spread;
    forwarding.bmin + drawn as u32
}
