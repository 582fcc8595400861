//! PDSyncData. The fields, in order: padding 2; PTCPSubdomainID 16; ReservedIntervalBegin u32 and
//! ReservedIntervalEnd u32, both 0; PLLWindow u32; SyncSendFactor u32; SendClockFactor u16;
//! PTCPTimeoutFactor u16; PTCPTakeoverTimeoutFactor u16; PTCPMasterStartupTime u16; SyncProperties
//! u16; PTCPMasterPriority1 u8; PTCPMasterPriority2 u8; the name's length u8; the name; and the least
//! padding that makes the block's size a multiple of 4.

ghost use Rattle.std.specs.Prelude.{◌≡◌, ◌≤◌, ◌<◌, ◌+◌, ◌-◌, ◌%◌, ◌^◌, ◌++◌, Ok, min, length, replicate, IfOk, OnOk};
ghost use Rattle.irt_base.specs.declared.blocks.SyncBlock.{SyncBlock};
ghost use Rattle.irt_base.specs.Valid.{IsSyncBlock};
ghost use Rattle.irt_block.specs.Reading.{Gives, GivesSurely};
ghost use Rattle.irt_block.specs.Header.{whole_of};
ghost use Rattle.pd_blocks.specs.Sync.{last_pad, front_bytes, name_bytes, domain_at, sending_at, times_at, role_at, domain_name_at, sync_groups_at, sync_fields_at, sync_in, sync_bytes};

use irt_base::blocks::SyncBlock;
use irt_base::limits::{MAX_DOMAIN_NAME, MAX_FACTOR, MAX_WINDOW};
use irt_base::list::Items;
use irt_base::memory::NoMemory;
use irt_block::fields::{
    end_of_block, end_of_input, identifier, name, pad, u8_at, u8_within, u16_at, u16_within,
    u32_at, u32_constant, u32_within,
};
use irt_block::output::{begin_block, close_block, put_bytes, put_u8, put_u16, put_u32};
use irt_block::{BlockFault, BlockId, Extent, open_block};
use std::alloc::Global;

/// BlockType and version of PDSyncData.
const SYNC: BlockId = BlockId {
    kind: 0x0203,
    high: 1,
    low: 2,
};

/// The padding behind a name of so many letters.
fn padding(letters: u8) -> usize
    ensures { result ≡ last_pad letters }
{
    usize::from(3 - letters % 4)
}

/// How a device sends sync messages.
#[derive(Clone, Copy)]
struct Sending {
    window: u32,
    send: u32,
    factor: u16,
}

/// The times of a sync master.
#[derive(Clone, Copy)]
struct Times {
    timeout: u16,
    takeover: u16,
    startup: u16,
}

/// The part of a device among the masters.
#[derive(Clone, Copy)]
struct Role {
    properties: u16,
    priority1: u8,
    priority2: u8,
}

/// Padding, the subdomain and the reserved interval.
fn domain_fields(extent: Extent, rest: &[u8]) -> Result<([u8; 16], &[u8]), BlockFault>
    requires inside { length rest.now ≤ extent.end }
    requires fits { extent.end < 2 ^ 32 }
    ensures gives { GivesSurely (λ x. (x.0, x.1.now)) result (domain_at extent rest.now) }
    ensures shorter { IfOk result (λ x. length x.1.now ≤ length rest.now) }
{
    let rest = pad(extent, rest, 2)?;
    let (subdomain, rest) = identifier(extent, rest)?;
    let rest = u32_constant(extent, rest, 0)?;
    let rest = u32_constant(extent, rest, 0)?;
    Ok((subdomain, rest))
}

/// PLLWindow, SyncSendFactor and SendClockFactor.
fn sending_fields(extent: Extent, rest: &[u8]) -> Result<(Sending, &[u8]), BlockFault>
    requires inside { length rest.now ≤ extent.end }
    requires fits { extent.end < 2 ^ 32 }
    ensures gives { GivesSurely (λ x. (x.0, x.1.now)) result (sending_at extent rest.now) }
    ensures shorter { IfOk result (λ x. length x.1.now ≤ length rest.now) }
{
    let (window, rest) = u32_within(extent, rest, 0, MAX_WINDOW)?;
    let (send, rest) = u32_at(extent, rest)?;
    let (factor, rest) = u16_within(extent, rest, 1, MAX_FACTOR)?;
    let sending = Sending {
        window,
        send,
        factor,
    };
    Ok((sending, rest))
}

/// PTCPTimeoutFactor, PTCPTakeoverTimeoutFactor and PTCPMasterStartupTime.
fn times_fields(extent: Extent, rest: &[u8]) -> Result<(Times, &[u8]), BlockFault>
    requires inside { length rest.now ≤ extent.end }
    requires fits { extent.end < 2 ^ 32 }
    ensures gives { GivesSurely (λ x. (x.0, x.1.now)) result (times_at extent rest.now) }
    ensures shorter { IfOk result (λ x. length x.1.now ≤ length rest.now) }
{
    let (timeout, rest) = u16_at(extent, rest)?;
    let (takeover, rest) = u16_at(extent, rest)?;
    let (startup, rest) = u16_at(extent, rest)?;
    let times = Times {
        timeout,
        takeover,
        startup,
    };
    Ok((times, rest))
}

/// SyncProperties and the two priorities.
fn role_fields(extent: Extent, rest: &[u8]) -> Result<(Role, &[u8]), BlockFault>
    requires inside { length rest.now ≤ extent.end }
    requires fits { extent.end < 2 ^ 32 }
    ensures gives { GivesSurely (λ x. (x.0, x.1.now)) result (role_at extent rest.now) }
    ensures shorter { IfOk result (λ x. length x.1.now ≤ length rest.now) }
{
    let (properties, rest) = u16_at(extent, rest)?;
    let (priority1, rest) = u8_at(extent, rest)?;
    let (priority2, rest) = u8_at(extent, rest)?;
    let role = Role {
        properties,
        priority1,
        priority2,
    };
    Ok((role, rest))
}

/// The name's length, the name and the padding behind it.
fn domain_name(alloc: Global, extent: Extent, rest: &[u8]) -> Result<(Items<u8>, &[u8]), BlockFault>
    requires inside { length rest.now ≤ extent.end }
    requires fits { extent.end < 2 ^ 32 }
    ensures gives { Gives (λ x. (x.0, x.1.now)) result (domain_name_at extent rest.now) }
    ensures shorter { IfOk result (λ x. length x.1.now ≤ length rest.now) }
{
    let (letters, rest) = u8_within(extent, rest, 1, MAX_DOMAIN_NAME as u8)?;
    let (name, rest) = name(alloc, extent, rest, usize::from(letters))?;
    let rest = pad(extent, rest, padding(letters))?;
    Ok((name, rest))
}

/// The fields by their groups.
fn groups(alloc: Global, extent: Extent, rest: &[u8]) -> Result<(SyncBlock, &[u8]), BlockFault>
    requires inside { length rest.now ≤ extent.end }
    requires fits { extent.end < 2 ^ 32 }
    ensures gives { Gives (λ x. (x.0, x.1.now)) result (sync_groups_at extent rest.now) }
    ensures shorter { IfOk result (λ x. length x.1.now ≤ length rest.now) }
{
    let (subdomain, rest) = domain_fields(extent, rest)?;
    let (sending, rest) = sending_fields(extent, rest)?;
    let (times, rest) = times_fields(extent, rest)?;
    let (role, rest) = role_fields(extent, rest)?;
    let (name, rest) = domain_name(alloc, extent, rest)?;
    let block = SyncBlock {
        subdomain,
        window: sending.window,
        send: sending.send,
        factor: sending.factor,
        timeout: times.timeout,
        takeover: times.takeover,
        startup: times.startup,
        properties: role.properties,
        priority1: role.priority1,
        priority2: role.priority2,
        name,
    };
    Ok((block, rest))
}

/// The fields from left to right.
fn fields(alloc: Global, extent: Extent, rest: &[u8]) -> Result<(SyncBlock, &[u8]), BlockFault>
    requires inside { length rest.now ≤ extent.end }
    requires fits { extent.end < 2 ^ 32 }
    ensures gives { Gives (λ x. (x.0, x.1.now)) result (sync_fields_at extent rest.now) }
    ensures shorter { IfOk result (λ x. length x.1.now ≤ length rest.now) }
{
    groups(alloc, extent, rest)
}

/// Reads the block at the front of `rest`, the bytes left of the extent, and gives the bytes after
/// it. Where bytes of it are missing, the fault is the extent's.
pub fn sync_at(alloc: Global, extent: Extent, rest: &[u8]) -> Result<(SyncBlock, &[u8]), BlockFault>
    requires inside { length rest.now ≤ extent.end }
    requires near { min extent.end (extent.end - length rest.now + 65540) < 2 ^ 32 }
    ensures gives { Gives (λ x. (x.0, x.1.now)) result (sync_in extent rest.now) }
    ensures shorter { IfOk result (λ x. length x.1.now ≤ length rest.now) }
    ensures size { IfOk result (λ x. length rest.now ≤ length x.1.now + 65539) }
{
    let block = open_block(extent, rest, SYNC)?;
    let (sync, left) = fields(alloc, block.extent, block.fields)?;
    end_of_block(block.extent, left)?;
    Ok((sync, block.after))
}

fn whole(alloc: Global, bytes: &[u8]) -> Result<SyncBlock, BlockFault>
    ensures { Gives (λ x. x) result (whole_of sync_in bytes.now) }
{
    let (sync, after) = sync_at(alloc, Extent::of_input(bytes), bytes)?;
    end_of_input(bytes, after)?;
    Ok(sync)
}

/// The sync block that the bytes spell, all of the bytes. A refusal is the first fault from left to
/// right, with its offset.
pub fn read_sync(alloc: Global, bytes: &[u8]) -> Result<SyncBlock, BlockFault>
    // What is read is valid, and spelled so.
    ensures found { IfOk result (λ v. IsSyncBlock v × (bytes.now ≡ sync_bytes v)) }
    // What is spelled so is read, unless memory runs out.
    ensures only { (v : SyncBlock) → IsSyncBlock v → bytes.now ≡ sync_bytes v → Gives (λ x. x) result (Ok v) }
    // A refusal is that of the reading order.
    ensures exact { Gives (λ x. x) result (whole_of sync_in bytes.now) }
{
    whole(alloc, bytes)
}

/// Appends the fields before the name.
fn put_front(out: &mut Vec<u8>, value: &SyncBlock) -> Result<(), NoMemory>
    ensures { OnOk result (out.new.items ≡ out.old.items ++ front_bytes value.now) }
{
    put_bytes(out, &[0; 2])?;
    put_bytes(out, &value.subdomain)?;
    put_u32(out, 0)?;
    put_u32(out, 0)?;
    put_u32(out, value.window)?;
    put_u32(out, value.send)?;
    put_u16(out, value.factor)?;
    put_u16(out, value.timeout)?;
    put_u16(out, value.takeover)?;
    put_u16(out, value.startup)?;
    put_u16(out, value.properties)?;
    put_u8(out, value.priority1)?;
    put_u8(out, value.priority2)
}

/// Appends so many zeros.
fn put_zeros(out: &mut Vec<u8>, count: usize) -> Result<(), NoMemory>
    requires { count ≤ 3 }
    ensures { OnOk result (out.new.items ≡ out.old.items ++ replicate count 0) }
{
    put_bytes(out, &[0; 3][..count])
}

/// Appends a name's length, the name and the padding behind it.
fn put_name(out: &mut Vec<u8>, name: &[u8]) -> Result<(), NoMemory>
    requires { length name.now < 256 }
    ensures { OnOk result (out.new.items ≡ out.old.items ++ name_bytes name.now) }
{
    let letters = name.len() as u8;
    put_u8(out, letters)?;
    put_bytes(out, name)?;
    put_zeros(out, padding(letters))
}

/// The one spelling of a valid sync block.
pub fn write_sync(alloc: Global, value: &SyncBlock) -> Result<Vec<u8>, NoMemory>
    requires { IsSyncBlock value.now }
    ensures spells { IfOk result (λ v. v.items ≡ sync_bytes value.now) }
    // The last padding makes the size a multiple of 4.
    ensures whole { IfOk result (λ v. length v.items % 4 ≡ 0) }
{
    let mut out = begin_block(alloc)?;
    put_front(&mut out, value)?;
    put_name(&mut out, value.name.as_slice())?;
    close_block(&mut out, SYNC);
    Ok(out)
}
