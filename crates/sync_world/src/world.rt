//! PTCP worlds.

ghost use Rattle.std.specs.Prelude.{◌≡◌, ℕ, ◌≤◌, ◌<◌, IfOk, All, Some, length, map, slice_get};
ghost use Rattle.irt_route.specs.Clocks.{IsClockTreeOf};
ghost use Rattle.irt_world.specs.Forwardings.{HasRange};
ghost use Rattle.irt_world.specs.Rows.{Fits};
ghost use Rattle.irt_world.specs.Seeded.{seeded_delays};
ghost use Rattle.irt_world.specs.declared.rows.Row.{Row};
ghost use Rattle.plan_rules.specs.Plan.{IsPlan};
ghost use Rattle.sync_world.specs.Domain.{IsDomain, domain_of};
ghost use Rattle.sync_world.specs.Lines.{all_passages};
ghost use Rattle.sync_world.specs.World.{ptcp_rows, all_errors, error_at, row_by, rows_by, row_error, KeepsBudgets, HasBudgets, IsInStepAsHeard};

use crate::clocks::heard_errors;
use crate::domain::{Domain, domain_of};
use crate::law::domains_have_bounds;
use crate::lines::{LinePassages, all_passages};
use irt_base::blocks::Bundle;
use irt_base::limits::{MAX_CYCLES, MAX_SEND, MAX_TIMEOUT};
use irt_base::list::Items;
use irt_base::memory::NoMemory;
use irt_base::numbers::DevId;
use irt_base::plants::Plant;
use irt_route::clocks::ClockTree;
use irt_world::forwardings::{Forwarding, Forwardings};
use irt_world::rows::{Row, World};
use irt_world::seeded::seeded_delays;
use std::alloc::Global;

/// The world that PTCP makes of a plant by a seed: so many cycles, with so many cycles between two sync messages and
/// a timeout by device. The clocks follow the plant's own clock tree. In each row a device that isn't muted has an
/// error of at most its budget, and a muted one of one more than the window. Where each budget is at most the window,
/// the world fits, and a device is in step exactly where it isn't muted.
///
/// # Errors
/// `NoMemory` where memory runs out.
pub fn ptcp_world(
    alloc: Global,
    seed: u64,
    plant: &Plant,
    bundles: &[Bundle],
    tree: &ClockTree,
    send: u32,
    timeouts: &[u16],
    cycles: u32,
) -> Result<World, NoMemory>
    requires plan { IsPlan plant.now bundles.now }
    requires own { IsClockTreeOf plant.now tree.now }
    requires some_send { 1 ≤ send }
    requires send { send ≤ MAX_SEND }
    requires count { length timeouts.now ≡ length plant.now.devices }
    requires timeouts { All (λ timeout. timeout ≤ MAX_TIMEOUT) timeouts.now }
    requires cycles { cycles ≤ MAX_CYCLES }
    ensures rows { IfOk result (λ world.
        world.rows ≡ ptcp_rows seed plant.now bundles.now tree.now send timeouts.now cycles) }
    ensures budgets { IfOk result (λ world. (cycle : ℕ) (row : Row) → slice_get world.rows cycle ≡ Some row →
        KeepsBudgets plant.now tree.now (domain_of seed plant.now tree.now send) timeouts.now cycle row) }
    ensures fits { HasBudgets plant.now tree.now send timeouts.now → IfOk result (Fits plant.now bundles.now) }
    ensures in_step { HasBudgets plant.now tree.now send timeouts.now →
        IfOk result (λ world. (cycle : ℕ) (row : Row) → slice_get world.rows cycle ≡ Some row →
        IsInStepAsHeard plant.now bundles.now (domain_of seed plant.now tree.now send) timeouts.now cycle row) }
{
    domains_have_bounds();
    let errors = domain_errors(alloc, seed, plant, tree, send, timeouts, cycles)?;
    let forwardings = Forwardings::new(alloc, plant, bundles)?;
    let forwardings = forwardings.as_slice();
    let rows = rows_by(
        alloc,
        seed,
        plant.window,
        forwardings,
        errors.as_slice(),
        cycles,
    )?;
    Ok(World { rows })
}

/// The errors of each device in so many cycles, in the domain that a plant has by a seed.
fn domain_errors(
    alloc: Global,
    seed: u64,
    plant: &Plant,
    tree: &ClockTree,
    send: u32,
    timeouts: &[u16],
    cycles: u32,
) -> Result<Items<Items<Option<i64>>>, NoMemory>
    requires own { IsClockTreeOf plant.now tree.now }
    requires some_send { 1 ≤ send }
    requires send { send ≤ MAX_SEND }
    requires count { length timeouts.now ≡ length plant.now.devices }
    requires timeouts { All (λ timeout. timeout ≤ MAX_TIMEOUT) timeouts.now }
    requires cycles { cycles ≤ MAX_CYCLES }
    ensures value { IfOk result (λ made.
        made ≡ all_errors (domain_of seed plant.now tree.now send) timeouts.now cycles) }
    ensures valid { IfOk result (λ _. IsDomain (domain_of seed plant.now tree.now send)) }
{
    let domain = domain_of(alloc, seed, plant, tree, send)?;
    let table = all_passages(alloc, &domain, cycles)?;
    all_errors(alloc, &domain, table.as_slice(), timeouts, cycles)
}

/// So many rows, by the errors of each device in all cycles.
fn rows_by(
    alloc: Global,
    seed: u64,
    window: u32,
    forwardings: &[Forwarding],
    errors: &[Items<Option<i64>>],
    cycles: u32,
) -> Result<Items<Row>, NoMemory>
    requires { All HasRange forwardings.now }
    ensures { IfOk result (λ rows. rows ≡ rows_by window seed forwardings.now errors.now cycles) }
{
    let mut rows = Items::with_capacity(alloc, cycles as usize)?;
    for cycle in 0..cycles {
        rows.push(ptcp_row(alloc, seed, window, forwardings, errors, cycle)?)?;
    }
    Ok(rows)
}

/// The errors of each device in so many cycles, in ns, none where it is muted.
fn all_errors(
    alloc: Global,
    domain: &Domain,
    table: &[LinePassages],
    timeouts: &[u16],
    cycles: u32,
) -> Result<Items<Items<Option<i64>>>, NoMemory>
    requires valid { IsDomain domain.now }
    requires table { table.now ≡ all_passages domain.now cycles }
    requires count { length timeouts.now ≡ length domain.now.lines }
    requires timeouts { All (λ timeout. timeout ≤ MAX_TIMEOUT) timeouts.now }
    requires cycles { cycles ≤ MAX_CYCLES }
    ensures { IfOk result (λ made. made ≡ all_errors domain.now timeouts.now cycles) }
{
    let devices = domain.lines.len() as u8;
    let mut made = Items::with_capacity(alloc, domain.lines.len())?;
    for device in 0..devices {
        let timeout = timeouts[usize::from(device)];
        made.push(heard_errors(alloc, domain, table, DevId(device), timeout, cycles)?)?;
    }
    Ok(made)
}

/// A row, by the errors of each device in all cycles.
fn ptcp_row(
    alloc: Global,
    seed: u64,
    window: u32,
    forwardings: &[Forwarding],
    errors: &[Items<Option<i64>>],
    cycle: u32,
) -> Result<Row, NoMemory>
    requires { All HasRange forwardings.now }
    ensures { IfOk result (λ row. row ≡ row_by window (seeded_delays seed cycle forwardings.now) errors.now cycle) }
{
    let errors = row_errors(alloc, window, errors, cycle)?;
    let bridges = seeded_delays(alloc, seed, cycle, forwardings)?;
    Ok(Row {
        errors,
        bridges,
        cuts: Items::new(alloc),
    })
}

/// The errors of all devices in a cycle, in ns.
fn row_errors(
    alloc: Global,
    window: u32,
    errors: &[Items<Option<i64>>],
    cycle: u32,
) -> Result<Items<i64>, NoMemory>
    ensures { IfOk result (λ made. made ≡ map (λ own. row_error window (error_at cycle own)) errors.now) }
{
    let mut made = Items::with_capacity(alloc, errors.len())?;
    for own in errors {
        made.push(row_error(window, error_at(own, cycle)))?;
    }
    Ok(made)
}

fn error_at(errors: &Items<Option<i64>>, cycle: u32) -> Option<i64>
    ensures { result ≡ error_at cycle errors.now }
{
    match errors.get(cycle as usize) {
        None => None,
        Some(error) => *error,
    }
}

/// The error of a device in a row, in ns: a muted one has one more than the window.
fn row_error(window: u32, error: Option<i64>) -> i64
    ensures { result ≡ row_error window error }
{
    match error {
        None => i64::from(window) + 1,
        Some(error) => error,
    }
}
