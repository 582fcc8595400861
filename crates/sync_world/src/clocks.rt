//! The clocks of a domain.

ghost use Rattle.std.specs.Prelude.{◌≡◌, ℕ, ◌+◌, ◌*◌, ◌≤◌, ◌<◌, ◌/◌, ◌^◌, pos, IfOk, IfSome, length};
ghost use Rattle.plan_rules.specs.World.{IsWithinWindow};
ghost use Rattle.seed_draws.specs.Draws.{draw_of, signed_within};
ghost use Rattle.sync_world.specs.Clocks.{base_by, base_in, base_of, drifted, ends_error, heard_error, heard_errors, is_silent, later, set_by};
ghost use Rattle.sync_world.specs.Domain.{IsDomain};
ghost use Rattle.sync_world.specs.Table.{IsTable, IsTableAt, heard_by, passage_in};

use crate::domain::Domain;
use crate::law::domains_have_bounds;
use crate::lines::LinePassages;
use crate::table::{is_lost_on, travel_error};
use irt_base::limits::{MAX_CYCLES, MAX_STAMP, MAX_TIMEOUT};
use irt_base::list::Items;
use irt_base::memory::NoMemory;
use irt_base::numbers::DevId;
use seed_draws::{draw, signed};
use std::alloc::Global;

/// Where the errors of the stamps of arrival are drawn.
pub const ARRIVALS: u64 = 34;

/// Where the errors of the master's stamps are drawn.
pub const DEPARTURES: u64 = 35;

/// Where drifts are drawn.
pub const DRIFTS: u64 = 36;

/// A device's clock at the beginning of a cycle.
#[derive(Clone, Copy, PartialEq, Eq)]
pub struct Clock {
    /// How far its cycle begins after the true one, in ns.
    pub error: i64,
    /// The last cycle before, in which a sync message reached it.
    pub heard: Option<u32>,
}

/// The error of a stamp of a sync message, in ns, drawn at a place.
fn stamp_error(domain: &Domain, place: u64, device: DevId, sync: u32) -> i64
    ensures value { result ≡ signed_within (draw_of domain.now.seed place device.0 sync) domain.now.stamp }
    ensures small { IsWithinWindow result (pos domain.now.stamp) }
{
    let drawn = draw(domain.seed, place, u64::from(device.0), u64::from(sync));
    signed(drawn, domain.stamp)
}

/// The errors of the stamps of arrival and of departure, in ns.
fn ends_error(domain: &Domain, device: DevId, sync: u32) -> i64
    requires { IsDomain domain.now }
    ensures value { result ≡ ends_error domain.now device.0 sync }
    ensures small { IsWithinWindow result (pos (2 * MAX_STAMP)) }
{
    stamp_error(domain, ARRIVALS, device, sync) + stamp_error(domain, DEPARTURES, DevId(0), sync)
}

/// The error to which a sync message sets a clock, in ns, by the devices of its walk and the errors of the two stamps.
fn base_by(table: &[LinePassages], walk: &[DevId], sync: u32, ends: i64) -> Option<i64>
    requires long { length walk.now < 256 }
    requires small { IsWithinWindow ends (pos (2 * MAX_STAMP)) }
    ensures value { result ≡ base_by (passage_in table.now sync) walk.now ends }
    ensures small { IfSome result (λ base. IsWithinWindow base (pos (2 ^ 42))) }
{
    if is_lost_on(table, walk, sync) {
        return None;
    }
    Some(travel_error(table, walk, sync) + ends)
}

/// The error to which a sync message sets a device's clock, in ns, where it reaches the device.
fn base_of(domain: &Domain, table: &[LinePassages], device: DevId, sync: u32) -> Option<i64>
    requires valid { IsDomain domain.now }
    requires table { IsTableAt domain.now sync table.now }
    ensures value { result ≡ base_of domain.now device.0 sync }
    ensures small { IfSome result (λ base. IsWithinWindow base (pos (2 ^ 42))) }
{
    let ends = ends_error(domain, device, sync);
    base_by(table, domain.walk(device), sync, ends)
}

/// The same, by the sync message of a cycle, if there is one.
fn base_in(domain: &Domain, table: &[LinePassages], device: DevId, cycle: u32) -> Option<i64>
    requires valid { IsDomain domain.now }
    requires table { IsTableAt domain.now (cycle / domain.now.send) table.now }
    ensures value { result ≡ base_in domain.now device.0 cycle }
    ensures small { IfSome result (λ base. IsWithinWindow base (pos (2 ^ 42))) }
{
    let send = domain.send;
    if cycle % send == 0 {
        base_of(domain, table, device, cycle / send)
    } else {
        None
    }
}

/// The clock after the sync message of a cycle.
fn set_by(clock: Clock, cycle: u32, base: Option<i64>) -> Clock
    ensures { result ≡ set_by clock cycle base }
{
    match base {
        None => clock,
        Some(error) => Clock {
            error,
            heard: Some(cycle),
        },
    }
}

fn drifted(domain: &Domain, device: DevId, cycle: u32, clock: Clock) -> Clock
    requires valid { IsDomain domain.now }
    requires small { IsWithinWindow clock.error (pos (2 ^ 43)) }
    ensures { result ≡ drifted domain.now device.0 cycle clock }
{
    let drawn = draw(domain.seed, DRIFTS, u64::from(device.0), u64::from(cycle));
    Clock {
        error: clock.error + signed(drawn, domain.drift),
        heard: clock.heard,
    }
}

/// The clock a cycle later.
fn later(domain: &Domain, table: &[LinePassages], device: DevId, cycle: u32, clock: Clock) -> Clock
    requires valid { IsDomain domain.now }
    requires table { IsTableAt domain.now (cycle / domain.now.send) table.now }
    requires small { IsWithinWindow clock.error (pos (2 ^ 43)) }
    ensures { result ≡ later domain.now device.0 cycle clock }
{
    let base = base_in(domain, table, device, cycle);
    drifted(domain, device, cycle, set_by(clock, cycle, base))
}

/// Whether no sync message reached a clock for more than so many cycles.
fn is_silent(heard: Option<u32>, cycle: u32, patience: u32) -> bool
    ensures { result ≡ is_silent heard cycle patience }
{
    match heard {
        None => true,
        Some(heard) => u64::from(heard) + u64::from(patience) < u64::from(cycle),
    }
}

/// The error of a device in a cycle by its clock, in ns, none where it is muted.
fn heard_by(device: DevId, clock: Clock, cycle: u32, patience: u32) -> Option<i64>
    ensures { result ≡ heard_by device.0 clock cycle patience }
{
    if device.0 == 0 {
        Some(0)
    } else if is_silent(clock.heard, cycle, patience) {
        None
    } else {
        Some(clock.error)
    }
}

/// The errors of a device in the first so many cycles, in ns, none where it is muted.
///
/// # Errors
/// `NoMemory` where memory runs out.
pub fn heard_errors(
    alloc: Global,
    domain: &Domain,
    table: &[LinePassages],
    device: DevId,
    timeout: u16,
    cycles: u32,
) -> Result<Items<Option<i64>>, NoMemory>
    requires valid { IsDomain domain.now }
    requires table { IsTable domain.now cycles table.now }
    requires timeout { timeout ≤ MAX_TIMEOUT }
    requires cycles { cycles ≤ MAX_CYCLES }
    ensures { IfOk result (λ errors. errors ≡ heard_errors domain.now timeout device.0 cycles) }
{
    domains_have_bounds();
    let patience = domain.send * u32::from(timeout);
    let mut errors = Items::with_capacity(alloc, cycles as usize)?;
    let mut clock = Clock {
        error: 0,
        heard: None,
    };
    for cycle in 0..cycles {
        errors.push(heard_by(device, clock, cycle, patience))?;
        clock = later(domain, table, device, cycle, clock);
    }
    Ok(errors)
}
