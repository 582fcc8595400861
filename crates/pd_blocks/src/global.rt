//! PDIRGlobalData. The fields, in order: padding 2; IRDataUUID 16; MaxBridgeDelay u32;
//! NumberOfPorts u32; for each port MaxPortTxDelay u32 and MaxPortRxDelay u32. Delays are ns.

ghost use Rattle.std.specs.Prelude.{◌≡◌, ◌≤◌, ◌<◌, ◌+◌, ◌-◌, ◌^◌, ◌++◌, Ok, min, length, IfOk, OnOk};
ghost use Rattle.std.specs.List.{flat_map};
ghost use Rattle.irt_base.specs.declared.blocks.GlobalBlock.{GlobalBlock};
ghost use Rattle.irt_base.specs.Valid.{IsGlobalBlock};
ghost use Rattle.irt_block.specs.Reading.{GivesSurely, Gives, repeat_at};
ghost use Rattle.irt_block.specs.Header.{whole_of};
ghost use Rattle.pd_blocks.specs.Global.{port_at, port_bytes, global_fields_at, global_in, global_bytes};

use irt_base::blocks::{GlobalBlock, PortDelay};
use irt_base::limits::{MAX_DELAY, MAX_PORTS};
use irt_base::list::Items;
use irt_base::memory::NoMemory;
use irt_block::fields::{end_of_block, end_of_input, identifier, pad, u32_within};
use irt_block::output::{begin_block, close_block, put_bytes, put_u32};
use irt_block::{BlockFault, BlockId, Extent, open_block};
use std::alloc::Global;

/// BlockType and version of PDIRGlobalData.
const GLOBAL: BlockId = BlockId {
    kind: 0x0206,
    high: 1,
    low: 1,
};

#[tactic(auto, unfolding(crate::specs::Global::port_at))]
fn port(extent: Extent, rest: &[u8]) -> Result<(PortDelay, &[u8]), BlockFault>
    requires inside { length rest.now ≤ extent.end }
    requires fits { extent.end < 2 ^ 32 }
    ensures gives { GivesSurely (λ x. (x.0, x.1.now)) result (port_at extent rest.now) }
    ensures shorter { IfOk result (λ x. length x.1.now ≤ length rest.now) }
{
    let (tx, rest) = u32_within(extent, rest, 0, MAX_DELAY)?;
    let (rx, rest) = u32_within(extent, rest, 0, MAX_DELAY)?;
    Ok((PortDelay { tx, rx }, rest))
}

fn ports(
    alloc: Global,
    extent: Extent,
    rest: &[u8],
    count: u32,
) -> Result<(Items<PortDelay>, &[u8]), BlockFault>
    requires inside { length rest.now ≤ extent.end }
    requires fits { extent.end < 2 ^ 32 }
    ensures gives { Gives (λ x. (x.0, x.1.now)) result (repeat_at port_at count extent rest.now) }
    ensures shorter { IfOk result (λ x. length x.1.now ≤ length rest.now) }
{
    let mut ports = Items::new(alloc);
    let mut left = rest;
    for _ in 0..count {
        let (item, after) = port(extent, left)?;
        ports.push(item)?;
        left = after;
    }
    Ok((ports, left))
}

#[tactic(auto, unfolding(crate::specs::Global::global_fields_at))]
fn fields(alloc: Global, extent: Extent, rest: &[u8]) -> Result<(GlobalBlock, &[u8]), BlockFault>
    requires inside { length rest.now ≤ extent.end }
    requires fits { extent.end < 2 ^ 32 }
    ensures gives { Gives (λ x. (x.0, x.1.now)) result (global_fields_at extent rest.now) }
    ensures shorter { IfOk result (λ x. length x.1.now ≤ length rest.now) }
{
    let rest = pad(extent, rest, 2)?;
    let (uuid, rest) = identifier(extent, rest)?;
    let (bridge, rest) = u32_within(extent, rest, 0, MAX_DELAY)?;
    let (count, rest) = u32_within(extent, rest, 1, MAX_PORTS as u32)?;
    let (ports, rest) = ports(alloc, extent, rest, count)?;
    let block = GlobalBlock {
        uuid,
        bridge,
        ports,
    };
    Ok((block, rest))
}

/// Reads the block at the front of `rest`, the bytes left of the extent, and gives the bytes after
/// it. Where bytes of it are missing, the fault is the extent's.
pub fn global_at(
    alloc: Global,
    extent: Extent,
    rest: &[u8],
) -> Result<(GlobalBlock, &[u8]), BlockFault>
    requires inside { length rest.now ≤ extent.end }
    requires near { min extent.end (extent.end - length rest.now + 65540) < 2 ^ 32 }
    ensures gives { Gives (λ x. (x.0, x.1.now)) result (global_in extent rest.now) }
    ensures shorter { IfOk result (λ x. length x.1.now ≤ length rest.now) }
    ensures size { IfOk result (λ x. length rest.now ≤ length x.1.now + 65539) }
{
    let block = open_block(extent, rest, GLOBAL)?;
    let (global, left) = fields(alloc, block.extent, block.fields)?;
    end_of_block(block.extent, left)?;
    Ok((global, block.after))
}

fn whole(alloc: Global, bytes: &[u8]) -> Result<GlobalBlock, BlockFault>
    ensures { Gives (λ x. x) result (whole_of global_in bytes.now) }
{
    let (global, after) = global_at(alloc, Extent::of_input(bytes), bytes)?;
    end_of_input(bytes, after)?;
    Ok(global)
}

/// The delays of a device that the bytes spell, all of the bytes. A refusal is the first fault from
/// left to right, with its offset.
pub fn read_global(alloc: Global, bytes: &[u8]) -> Result<GlobalBlock, BlockFault>
    // What is read is valid, and spelled so.
    ensures found { IfOk result (λ v. IsGlobalBlock v × (bytes.now ≡ global_bytes v)) }
    // What is spelled so is read, unless memory runs out.
    ensures only { (v : GlobalBlock) → IsGlobalBlock v → bytes.now ≡ global_bytes v → Gives (λ x. x) result (Ok v) }
    // A refusal is that of the reading order.
    ensures exact { Gives (λ x. x) result (whole_of global_in bytes.now) }
{
    whole(alloc, bytes)
}

fn put_ports(out: &mut Vec<u8>, ports: &[PortDelay]) -> Result<(), NoMemory>
    ensures { OnOk result (out.new.items ≡ out.old.items ++ flat_map port_bytes ports.now) }
{
    for port in ports {
        put_u32(out, port.tx)?;
        put_u32(out, port.rx)?;
    }
    Ok(())
}

/// The one spelling of valid delays.
pub fn write_global(alloc: Global, value: &GlobalBlock) -> Result<Vec<u8>, NoMemory>
    requires { IsGlobalBlock value.now }
    ensures { IfOk result (λ v. v.items ≡ global_bytes value.now) }
{
    let mut out = begin_block(alloc)?;
    put_bytes(&mut out, &[0; 2])?;
    put_bytes(&mut out, &value.uuid)?;
    put_u32(&mut out, value.bridge)?;
    put_u32(&mut out, value.ports.len() as u32)?;
    put_ports(&mut out, value.ports.as_slice())?;
    close_block(&mut out, GLOBAL);
    Ok(out)
}
