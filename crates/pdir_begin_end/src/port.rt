//! The periods of one port.

ghost use Rattle.std.specs.Prelude.{◌≡◌, ◌≤◌, ◌<◌, ◌^◌, length, IfOk};
ghost use Rattle.irt_block.specs.Reading.{GivesSurely, Gives, ruled_at, repeat_at};
ghost use Rattle.pdir_begin_end.specs.Periods.{period_at, assignment_at, phase_at, port_at, is_below};

use irt_base::blocks::{Assignment, Period, PhasePair, PortPeriods};
use irt_base::limits::{MAX_ASSIGNMENTS, PHASES};
use irt_base::list::Items;
use irt_block::fields::{rule, u16_at, u32_at, u32_constant, u32_within};
use irt_block::{BlockFault, Extent};
use std::alloc::Global;

#[tactic(auto, unfolding(crate::specs::Periods::period_at))]
fn period(extent: Extent, rest: &[u8]) -> Result<(Period, &[u8]), BlockFault>
    requires inside { length rest.now ≤ extent.end }
    requires fits { extent.end < 2 ^ 32 }
    ensures gives { GivesSurely (λ x. (x.0, x.1.now)) result (period_at extent rest.now) }
    ensures shorter { IfOk result (λ x. length x.1.now ≤ length rest.now) }
{
    let (red, rest) = u32_at(extent, rest)?;
    let (orange, rest) = u32_at(extent, rest)?;
    let (green, rest) = u32_at(extent, rest)?;
    Ok((Period { red, orange, green }, rest))
}

#[tactic(auto, unfolding(crate::specs::Periods::assignment_at))]
fn assignment(extent: Extent, rest: &[u8]) -> Result<(Assignment, &[u8]), BlockFault>
    requires inside { length rest.now ≤ extent.end }
    requires fits { extent.end < 2 ^ 32 }
    ensures gives { GivesSurely (λ x. (x.0, x.1.now)) result (assignment_at extent rest.now) }
    ensures shorter { IfOk result (λ x. length x.1.now ≤ length rest.now) }
{
    let (tx, rest) = period(extent, rest)?;
    let (rx, rest) = period(extent, rest)?;
    Ok((Assignment { tx, rx }, rest))
}

/// The number of one of so many assignments.
fn number_below(extent: Extent, rest: &[u8], count: u32) -> Result<(u16, &[u8]), BlockFault>
    requires inside { length rest.now ≤ extent.end }
    requires fits { extent.end < 2 ^ 32 }
    ensures gives { GivesSurely (λ x. (x.0, x.1.now)) result (ruled_at 2 (is_below count) extent rest.now) }
    ensures shorter { IfOk result (λ x. length x.1.now ≤ length rest.now) }
{
    let (number, after) = u16_at(extent, rest)?;
    rule(extent, rest, u32::from(number) < count)?;
    Ok((number, after))
}

#[tactic(auto, unfolding(crate::specs::Periods::phase_at))]
fn phase(extent: Extent, rest: &[u8], count: u32) -> Result<(PhasePair, &[u8]), BlockFault>
    requires inside { length rest.now ≤ extent.end }
    requires fits { extent.end < 2 ^ 32 }
    ensures gives { GivesSurely (λ x. (x.0, x.1.now)) result (phase_at count extent rest.now) }
    ensures shorter { IfOk result (λ x. length x.1.now ≤ length rest.now) }
{
    let (tx, rest) = number_below(extent, rest, count)?;
    let (rx, rest) = number_below(extent, rest, count)?;
    Ok((PhasePair { tx, rx }, rest))
}

fn assignments(
    alloc: Global,
    extent: Extent,
    rest: &[u8],
    count: u32,
) -> Result<(Items<Assignment>, &[u8]), BlockFault>
    requires inside { length rest.now ≤ extent.end }
    requires fits { extent.end < 2 ^ 32 }
    ensures gives { Gives (λ x. (x.0, x.1.now)) result (repeat_at assignment_at count extent rest.now) }
    ensures shorter { IfOk result (λ x. length x.1.now ≤ length rest.now) }
{
    let mut items = Items::new(alloc);
    let mut left = rest;
    for _ in 0..count {
        let (item, after) = assignment(extent, left)?;
        items.push(item)?;
        left = after;
    }
    Ok((items, left))
}

fn phases(
    alloc: Global,
    extent: Extent,
    rest: &[u8],
    most: u32,
    count: u16,
) -> Result<(Items<PhasePair>, &[u8]), BlockFault>
    requires inside { length rest.now ≤ extent.end }
    requires fits { extent.end < 2 ^ 32 }
    ensures gives { Gives (λ x. (x.0, x.1.now)) result (repeat_at (phase_at most) count extent rest.now) }
    ensures shorter { IfOk result (λ x. length x.1.now ≤ length rest.now) }
{
    let mut items = Items::new(alloc);
    let mut left = rest;
    for _ in 0..count {
        let (item, after) = phase(extent, left, most)?;
        items.push(item)?;
        left = after;
    }
    Ok((items, left))
}

/// Reads the periods of one port.
#[tactic(auto, unfolding(crate::specs::Periods::port_at))]
pub fn port(alloc: Global, extent: Extent, rest: &[u8]) -> Result<(PortPeriods, &[u8]), BlockFault>
    requires inside { length rest.now ≤ extent.end }
    requires fits { extent.end < 2 ^ 32 }
    ensures gives { Gives (λ x. (x.0, x.1.now)) result (port_at extent rest.now) }
    ensures shorter { IfOk result (λ x. length x.1.now ≤ length rest.now) }
{
    let (count, rest) = u32_within(extent, rest, 1, MAX_ASSIGNMENTS as u32)?;
    let (assignments, rest) = assignments(alloc, extent, rest, count)?;
    let rest = u32_constant(extent, rest, u32::from(PHASES))?;
    let (phases, rest) = phases(alloc, extent, rest, count, PHASES)?;
    let port = PortPeriods {
        assignments,
        phases,
    };
    Ok((port, rest))
}
