//! The lines of a domain: exchanges over links, and what sync messages meet there.

ghost use Rattle.std.specs.Prelude.{◌≡◌, ◌+◌, ◌<◌, ◌≤◌, ◌^◌, [], IfOk, length, map};
ghost use Rattle.std.specs.List.{range_with_len};
ghost use Rattle.line_delay.specs.Line.{accepted};
ghost use Rattle.sync_world.specs.Domain.{IsDomain};
ghost use Rattle.sync_world.specs.Lines.{all_passages, begun, exchanged, half_by, halves_after, is_lost, known_by, line_passages, measured, measured_at, passage_of, stamped, stay_error, syncs_in};

use crate::domain::Domain;
use irt_base::limits::MAX_CYCLES;
use irt_base::list::Items;
use irt_base::memory::NoMemory;
use irt_base::numbers::DevId;
use line_delay::LineDelay;
use line_delay::honest::honest_law;
use seed_draws::{draw, signed};
use std::alloc::Global;

/// Where the errors of time stamps are drawn: this and the number of the stamp, from 1.
pub const STAMPS: u64 = 16;

/// Where losses are drawn.
pub const LOSSES: u64 = 32;

/// Where the errors of the stay at a device that relays are drawn.
pub const STAYS: u64 = 33;

/// When exchange 0 begins, and the time from one exchange to the next, in ns.
pub const EXCHANGE_TIME: u64 = 1000000;

/// How long the second device keeps an exchange, in ns.
pub const STAY_TIME: u64 = 10000;

/// How many exchanges a link has before cycle 0.
pub const FIRST_EXCHANGES: u32 = 8;

/// What a sync message meets at a device.
#[derive(Clone, Copy, PartialEq, Eq)]
pub struct Passage {
    /// What is known of the delay of the link to the device's parent, in ns.
    pub known: u32,
    /// The true delay, in ns.
    pub delay: u32,
    /// By how many ns the device is wrong on the time that the message stays with it.
    pub stay: i32,
    /// Whether the link loses the message.
    pub lost: bool,
}

/// What sync messages meet at one device.
#[derive(Drop)]
pub struct LinePassages {
    /// By sync message, from 0.
    pub passages: Items<Passage>,
    /// What is known of the delay after all of them, in ns.
    pub known: u32,
}

/// A stamp of an exchange, in ns, by its number from 1 and its true time.
fn stamped(domain: &Domain, device: DevId, exchange: u32, number: u8, time: u64) -> u64
    requires valid { IsDomain domain.now }
    requires later { EXCHANGE_TIME ≤ time }
    requires small { time < 2 ^ 62 }
    ensures { result ≡ stamped domain.now device.0 exchange number time }
{
    let place = STAMPS + u64::from(number);
    let drawn = draw(domain.seed, place, u64::from(device.0), u64::from(exchange));
    let stamp = u64::from(domain.stamp);
    time + drawn % (2 * stamp + 1) - stamp
}

/// When an exchange begins, in ns.
fn begun(exchange: u32) -> u64
    ensures value { result ≡ begun exchange }
    ensures first { EXCHANGE_TIME ≤ result }
    ensures small { result < 2 ^ 61 }
{
    EXCHANGE_TIME * (u64::from(exchange) + 1)
}

/// The stamps of an exchange, in ns.
#[tactic(auto, unfolding(crate::specs::Lines::exchanged))]
fn exchanged(domain: &Domain, device: DevId, exchange: u32) -> (u64, u64, u64, u64)
    requires { IsDomain domain.now }
    ensures t1 { result.0 ≡ (exchanged domain.now device.0 exchange).t1 }
    ensures t2 { result.1 ≡ (exchanged domain.now device.0 exchange).t2 }
    ensures t3 { result.2 ≡ (exchanged domain.now device.0 exchange).t3 }
    ensures t4 { result.3 ≡ (exchanged domain.now device.0 exchange).t4 }
{
    let begun = begun(exchange);
    let delay = u64::from(domain.delay(device));
    (
        stamped(domain, device, exchange, 1, begun),
        stamped(domain, device, exchange, 2, begun + delay),
        stamped(domain, device, exchange, 3, begun + delay + STAY_TIME),
        stamped(domain, device, exchange, 4, begun + 2 * delay + STAY_TIME),
    )
}

/// An exchange over the link to a device's parent, and what is known of its delay then, in ns.
fn measure(domain: &Domain, device: DevId, exchange: u32, line: &mut LineDelay) -> u32
    requires { IsDomain domain.now }
    ensures line { line.new ≡ accepted line.old (half_by (exchanged domain.now device.0 exchange)) }
    ensures known { result ≡ known_by line.new }
{
    honest_law();
    let (t1, t2, t3, t4) = exchanged(domain, device, exchange);
    match line.response(t1, t2, t3, t4) {
        Ok(median) => median,
        Err(_) => known_by(line),
    }
}

/// What is known of a link's delay, in ns, 0 where nothing is.
fn known_by(line: &LineDelay) -> u32
    ensures { result ≡ known_by line.now }
{
    honest_law();
    match line.median() {
        None => 0,
        Some(median) => median,
    }
}

/// The exchanges before cycle 0.
fn first_exchanges(domain: &Domain, device: DevId, line: &mut LineDelay) -> u32
    requires valid { IsDomain domain.now }
    requires none { line.old ≡ [] }
    ensures line { line.new ≡ halves_after domain.now device.0 FIRST_EXCHANGES }
    ensures known { result ≡ measured domain.now device.0 FIRST_EXCHANGES }
{
    honest_law();
    let mut known = 0;
    for exchange in 0..FIRST_EXCHANGES {
        known = measure(domain, device, exchange, line);
    }
    known
}

/// What so many sync messages meet at a device.
fn line_passages(
    alloc: Global,
    domain: &Domain,
    device: DevId,
    syncs: u32,
) -> Result<LinePassages, NoMemory>
    requires valid { IsDomain domain.now }
    requires few { syncs < 2 ^ 31 }
    ensures { IfOk result (λ made. made ≡ line_passages domain.now syncs device.0) }
{
    honest_law();
    let mut line = LineDelay::new();
    let mut known = first_exchanges(domain, device, &mut line);
    let mut passages = Items::with_capacity(alloc, syncs as usize)?;
    for sync in 0..syncs {
        known = measure(domain, device, FIRST_EXCHANGES + sync, &mut line);
        passages.push(passage_of(domain, device, sync, known))?;
    }
    Ok(LinePassages { passages, known })
}

/// What a sync message meets at a device, where so many ns are known of the delay.
#[tactic(auto, unfolding(crate::specs::Lines::passage_of))]
fn passage_of(domain: &Domain, device: DevId, sync: u32, known: u32) -> Passage
    requires valid { IsDomain domain.now }
    requires known { known ≡ measured_at domain.now device.0 sync }
    ensures { result ≡ passage_of domain.now device.0 sync }
{
    Passage {
        known,
        delay: domain.delay(device),
        stay: stay(domain, device, sync),
        lost: is_lost(domain, device, sync),
    }
}

fn stay(domain: &Domain, device: DevId, sync: u32) -> i32
    requires { IsDomain domain.now }
    ensures { result ≡ stay_error domain.now device.0 sync }
{
    let drawn = draw(domain.seed, STAYS, u64::from(device.0), u64::from(sync));
    signed(drawn, 2 * domain.stamp) as i32
}

fn is_lost(domain: &Domain, device: DevId, sync: u32) -> bool
    ensures { result ≡ is_lost domain.now device.0 sync }
{
    let loss = u64::from(domain.loss);
    if loss == 0 {
        return false;
    }
    draw(domain.seed, LOSSES, u64::from(device.0), u64::from(sync)) % loss == 0
}

/// What the sync messages of so many cycles meet, by device.
///
/// # Errors
/// `NoMemory` where memory runs out.
pub fn all_passages(
    alloc: Global,
    domain: &Domain,
    cycles: u32,
) -> Result<Items<LinePassages>, NoMemory>
    requires valid { IsDomain domain.now }
    requires cycles { cycles ≤ MAX_CYCLES }
    ensures { IfOk result (λ made. made ≡ all_passages domain.now cycles) }
{
    let syncs = syncs_in(domain, cycles);
    let devices = domain.lines.len() as u8;
    let mut made = Items::with_capacity(alloc, domain.lines.len())?;
    for device in 0..devices {
        made.push(line_passages(alloc, domain, DevId(device), syncs)?)?;
    }
    Ok(made)
}

/// How many sync messages are sent in so many cycles.
fn syncs_in(domain: &Domain, cycles: u32) -> u32
    requires valid { IsDomain domain.now }
    requires cycles { cycles ≤ MAX_CYCLES }
    ensures value { result ≡ syncs_in domain.now cycles }
    ensures few { result < 2 ^ 31 }
{
    cycles.div_ceil(domain.send)
}
