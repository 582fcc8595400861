//! Reading a whole block.

ghost use Rattle.std.specs.Prelude.{◌≡◌, ◌≤◌, ◌<◌, ◌+◌, ◌-◌, ◌^◌, Ok, min, length, IfOk};
ghost use Rattle.irt_base.specs.declared.blocks.PeriodBlock.{PeriodBlock};
ghost use Rattle.irt_base.specs.Valid.{IsPeriodBlock};
ghost use Rattle.irt_block.specs.Reading.{Gives, repeat_at};
ghost use Rattle.irt_block.specs.Header.{whole_of};
ghost use Rattle.pdir_begin_end.specs.Periods.{port_at, fields_at, periods_in, periods_bytes};

use crate::port::port;
use irt_base::blocks::{PeriodBlock, PortPeriods};
use irt_base::limits::{MAX_PORTS, MAX_RED_FRAME, MIN_FRAME};
use irt_base::list::Items;
use irt_block::fields::{end_of_block, end_of_input, pad, u16_within, u32_within};
use irt_block::{BlockFault, BlockId, Extent, open_block};
use std::alloc::Global;

/// BlockType and version of PDIRBeginEndData.
pub const PERIODS: BlockId = BlockId {
    kind: 0x0208,
    high: 1,
    low: 0,
};

fn ports(
    alloc: Global,
    extent: Extent,
    rest: &[u8],
    count: u32,
) -> Result<(Items<PortPeriods>, &[u8]), BlockFault>
    requires inside { length rest.now ≤ extent.end }
    requires fits { extent.end < 2 ^ 32 }
    ensures gives { Gives (λ x. (x.0, x.1.now)) result (repeat_at port_at count extent rest.now) }
    ensures shorter { IfOk result (λ x. length x.1.now ≤ length rest.now) }
{
    let mut items = Items::new(alloc);
    let mut left = rest;
    for _ in 0..count {
        let (item, after) = port(alloc, extent, left)?;
        items.push(item)?;
        left = after;
    }
    Ok((items, left))
}

#[tactic(auto, unfolding(crate::specs::Periods::fields_at))]
fn fields(alloc: Global, extent: Extent, rest: &[u8]) -> Result<(PeriodBlock, &[u8]), BlockFault>
    requires inside { length rest.now ≤ extent.end }
    requires fits { extent.end < 2 ^ 32 }
    ensures gives { Gives (λ x. (x.0, x.1.now)) result (fields_at extent rest.now) }
    ensures shorter { IfOk result (λ x. length x.1.now ≤ length rest.now) }
{
    let rest = pad(extent, rest, 2)?;
    let (first, rest) = u16_within(extent, rest, MIN_FRAME, MAX_RED_FRAME)?;
    let (last, rest) = u16_within(extent, rest, first, MAX_RED_FRAME)?;
    let (count, rest) = u32_within(extent, rest, 1, MAX_PORTS as u32)?;
    let (ports, rest) = ports(alloc, extent, rest, count)?;
    Ok((PeriodBlock { first, last, ports }, rest))
}

/// Reads the block at the front of `rest`, the bytes left of the extent, and gives the bytes after
/// it. Where bytes of it are missing, the fault is the extent's.
pub fn periods_at(
    alloc: Global,
    extent: Extent,
    rest: &[u8],
) -> Result<(PeriodBlock, &[u8]), BlockFault>
    requires inside { length rest.now ≤ extent.end }
    requires near { min extent.end (extent.end - length rest.now + 65540) < 2 ^ 32 }
    ensures gives { Gives (λ x. (x.0, x.1.now)) result (periods_in extent rest.now) }
    ensures shorter { IfOk result (λ x. length x.1.now ≤ length rest.now) }
    ensures size { IfOk result (λ x. length rest.now ≤ length x.1.now + 65539) }
{
    let block = open_block(extent, rest, PERIODS)?;
    let (periods, left) = fields(alloc, block.extent, block.fields)?;
    end_of_block(block.extent, left)?;
    Ok((periods, block.after))
}

fn whole(alloc: Global, bytes: &[u8]) -> Result<PeriodBlock, BlockFault>
    ensures { Gives (λ x. x) result (whole_of periods_in bytes.now) }
{
    let (periods, after) = periods_at(alloc, Extent::of_input(bytes), bytes)?;
    end_of_input(bytes, after)?;
    Ok(periods)
}

/// The periods of a device that the bytes spell, all of the bytes. A refusal is the first fault from
/// left to right, with its offset.
pub fn read_periods(alloc: Global, bytes: &[u8]) -> Result<PeriodBlock, BlockFault>
    // What is read is valid, and spelled so.
    ensures found { IfOk result (λ v. IsPeriodBlock v × (bytes.now ≡ periods_bytes v)) }
    // What is spelled so is read, unless memory runs out.
    ensures only { (v : PeriodBlock) → IsPeriodBlock v → bytes.now ≡ periods_bytes v → Gives (λ x. x) result (Ok v) }
    // A refusal is that of the reading order.
    ensures exact { Gives (λ x. x) result (whole_of periods_in bytes.now) }
{
    whole(alloc, bytes)
}
