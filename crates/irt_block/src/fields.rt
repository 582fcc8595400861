//! Fields, read off the front of the bytes that are left of an extent. Each reader gives the value
//! and the bytes after it. A field that passes the extent's end is the extent's fault, and that comes
//! before any test of the field's bytes. `name` alone takes memory, and only it may answer that none is left.

ghost use Rattle.std.specs.Prelude.{◌≡◌, ◌≤◌, ◌<◌, ◌-◌, ◌^◌, length, IfOk};
ghost use Rattle.irt_block.specs.Reading.{GivesSurely, Gives, raw_at, number_at, rule_at, constant_at, ruled_at, within, bytes_pass, class_at, pad_at, ended_at, finished_at};
ghost use Rattle.irt_block.specs.declared.bytes.ByteClass.TheVariants.{Letter as letters};

use crate::bytes::ByteClass;
use crate::extent::Extent;
use crate::fault::{BlockFault, BlockKind};
use byteorder::{BigEndian, ByteOrder};
use irt_base::list::Items;
use std::alloc::Global;

/// So many bytes.
fn raw(extent: Extent, rest: &[u8], count: usize) -> Result<(&[u8], &[u8]), BlockFault>
    requires inside { length rest.now ≤ extent.end }
    requires fits { extent.end < 2 ^ 32 }
    ensures gives { GivesSurely (λ x. (x.0.now, x.1.now)) result (raw_at count extent rest.now) }
    ensures shorter { IfOk result (λ x. length x.1.now ≤ length rest.now) }
    ensures count { IfOk result (λ x. length x.0.now ≡ count) }
{
    if rest.len() < count {
        return Err(extent.missing());
    }
    Ok(rest.split_at(count))
}

/// A number of one byte.
#[tactic(auto, unfolding(crate::specs::Reading::number_in))]
pub fn u8_at(extent: Extent, rest: &[u8]) -> Result<(u8, &[u8]), BlockFault>
    requires inside { length rest.now ≤ extent.end }
    requires fits { extent.end < 2 ^ 32 }
    ensures gives { GivesSurely (λ x. (x.0, x.1.now)) result (number_at 1 extent rest.now) }
    ensures shorter { IfOk result (λ x. length x.1.now ≤ length rest.now) }
{
    if rest.len() < 1 {
        return Err(extent.missing());
    }
    Ok((rest[0], &rest[1..]))
}

/// A number of two bytes.
#[tactic(auto, unfolding(crate::specs::Reading::number_in))]
pub fn u16_at(extent: Extent, rest: &[u8]) -> Result<(u16, &[u8]), BlockFault>
    requires inside { length rest.now ≤ extent.end }
    requires fits { extent.end < 2 ^ 32 }
    ensures gives { GivesSurely (λ x. (x.0, x.1.now)) result (number_at 2 extent rest.now) }
    ensures shorter { IfOk result (λ x. length x.1.now ≤ length rest.now) }
{
    if rest.len() < 2 {
        return Err(extent.missing());
    }
    Ok((BigEndian::read_u16(rest), &rest[2..]))
}

/// A number of four bytes.
#[tactic(auto, unfolding(crate::specs::Reading::number_in))]
pub fn u32_at(extent: Extent, rest: &[u8]) -> Result<(u32, &[u8]), BlockFault>
    requires inside { length rest.now ≤ extent.end }
    requires fits { extent.end < 2 ^ 32 }
    ensures gives { GivesSurely (λ x. (x.0, x.1.now)) result (number_at 4 extent rest.now) }
    ensures shorter { IfOk result (λ x. length x.1.now ≤ length rest.now) }
{
    if rest.len() < 4 {
        return Err(extent.missing());
    }
    Ok((BigEndian::read_u32(rest), &rest[4..]))
}

/// Refuses the field at the front of `rest` where its rule doesn't hold.
pub fn rule(extent: Extent, rest: &[u8], holds: bool) -> Result<(), BlockFault>
    requires inside { length rest.now ≤ extent.end }
    requires fits { extent.end < 2 ^ 32 }
    ensures { GivesSurely (λ _. tt) result (rule_at holds extent rest.now) }
{
    if holds {
        return Ok(());
    }
    Err(BlockFault {
        kind: BlockKind::BadValue,
        offset: (extent.end - rest.len()) as u32,
    })
}

/// A number of one byte from `low` to `high`, both included.
pub fn u8_within(extent: Extent, rest: &[u8], low: u8, high: u8) -> Result<(u8, &[u8]), BlockFault>
    requires inside { length rest.now ≤ extent.end }
    requires fits { extent.end < 2 ^ 32 }
    ensures gives { GivesSurely (λ x. (x.0, x.1.now)) result (ruled_at 1 (within low high) extent rest.now) }
    ensures shorter { IfOk result (λ x. length x.1.now ≤ length rest.now) }
{
    let (value, after) = u8_at(extent, rest)?;
    rule(extent, rest, low <= value && value <= high)?;
    Ok((value, after))
}

/// A number of two bytes from `low` to `high`, both included.
pub fn u16_within(
    extent: Extent,
    rest: &[u8],
    low: u16,
    high: u16,
) -> Result<(u16, &[u8]), BlockFault>
    requires inside { length rest.now ≤ extent.end }
    requires fits { extent.end < 2 ^ 32 }
    ensures gives { GivesSurely (λ x. (x.0, x.1.now)) result (ruled_at 2 (within low high) extent rest.now) }
    ensures shorter { IfOk result (λ x. length x.1.now ≤ length rest.now) }
{
    let (value, after) = u16_at(extent, rest)?;
    rule(extent, rest, low <= value && value <= high)?;
    Ok((value, after))
}

/// A number of four bytes from `low` to `high`, both included.
pub fn u32_within(
    extent: Extent,
    rest: &[u8],
    low: u32,
    high: u32,
) -> Result<(u32, &[u8]), BlockFault>
    requires inside { length rest.now ≤ extent.end }
    requires fits { extent.end < 2 ^ 32 }
    ensures gives { GivesSurely (λ x. (x.0, x.1.now)) result (ruled_at 4 (within low high) extent rest.now) }
    ensures shorter { IfOk result (λ x. length x.1.now ≤ length rest.now) }
{
    let (value, after) = u32_at(extent, rest)?;
    rule(extent, rest, low <= value && value <= high)?;
    Ok((value, after))
}

/// A number of one byte that is always the same. Gives the bytes after it.
pub fn u8_constant(extent: Extent, rest: &[u8], value: u8) -> Result<&[u8], BlockFault>
    requires inside { length rest.now ≤ extent.end }
    requires fits { extent.end < 2 ^ 32 }
    ensures gives { GivesSurely (λ x. (tt, x.now)) result (constant_at 1 value extent rest.now) }
    ensures shorter { IfOk result (λ x. length x.now ≤ length rest.now) }
{
    let (found, after) = u8_at(extent, rest)?;
    rule(extent, rest, found == value)?;
    Ok(after)
}

/// A number of two bytes that is always the same. Gives the bytes after it.
pub fn u16_constant(extent: Extent, rest: &[u8], value: u16) -> Result<&[u8], BlockFault>
    requires inside { length rest.now ≤ extent.end }
    requires fits { extent.end < 2 ^ 32 }
    ensures gives { GivesSurely (λ x. (tt, x.now)) result (constant_at 2 value extent rest.now) }
    ensures shorter { IfOk result (λ x. length x.now ≤ length rest.now) }
{
    let (found, after) = u16_at(extent, rest)?;
    rule(extent, rest, found == value)?;
    Ok(after)
}

/// A number of four bytes that is always the same. Gives the bytes after it.
pub fn u32_constant(extent: Extent, rest: &[u8], value: u32) -> Result<&[u8], BlockFault>
    requires inside { length rest.now ≤ extent.end }
    requires fits { extent.end < 2 ^ 32 }
    ensures gives { GivesSurely (λ x. (tt, x.now)) result (constant_at 4 value extent rest.now) }
    ensures shorter { IfOk result (λ x. length x.now ≤ length rest.now) }
{
    let (found, after) = u32_at(extent, rest)?;
    rule(extent, rest, found == value)?;
    Ok(after)
}

/// Refuses the first of `count` bytes that is not of the class.
fn all_of_class(
    extent: Extent,
    rest: &[u8],
    count: usize,
    class: ByteClass,
) -> Result<(), BlockFault>
    requires inside { length rest.now ≤ extent.end }
    requires fits { extent.end < 2 ^ 32 }
    requires there { count ≤ length rest.now }
    ensures { GivesSurely (λ _. tt) result (bytes_pass class count extent rest.now) }
{
    for place in 0..count {
        if !class.has(rest[place]) {
            return Err(BlockFault {
                kind: class.fault(),
                offset: (extent.end - rest.len() + place) as u32,
            });
        }
    }
    Ok(())
}

/// So many bytes of a class.
#[tactic(auto, unfolding(crate::specs::Reading::class_at))]
fn of_class(
    extent: Extent,
    rest: &[u8],
    count: usize,
    class: ByteClass,
) -> Result<(&[u8], &[u8]), BlockFault>
    requires inside { length rest.now ≤ extent.end }
    requires fits { extent.end < 2 ^ 32 }
    ensures gives { GivesSurely (λ x. (x.0.now, x.1.now)) result (class_at class count extent rest.now) }
    ensures shorter { IfOk result (λ x. length x.1.now ≤ length rest.now) }
{
    let (bytes, after) = raw(extent, rest, count)?;
    all_of_class(extent, rest, count, class)?;
    Ok((bytes, after))
}

/// So many bytes of padding. Gives the bytes after them.
#[tactic(auto, unfolding(crate::specs::Reading::pad_at))]
pub fn pad(extent: Extent, rest: &[u8], count: usize) -> Result<&[u8], BlockFault>
    requires inside { length rest.now ≤ extent.end }
    requires fits { extent.end < 2 ^ 32 }
    ensures gives { GivesSurely (λ x. (tt, x.now)) result (pad_at count extent rest.now) }
    ensures shorter { IfOk result (λ x. length x.now ≤ length rest.now) }
{
    let (_zeros, after) = of_class(extent, rest, count, ByteClass::Zero)?;
    Ok(after)
}

/// A name of so many letters.
pub fn name(
    alloc: Global,
    extent: Extent,
    rest: &[u8],
    count: usize,
) -> Result<(Items<u8>, &[u8]), BlockFault>
    requires inside { length rest.now ≤ extent.end }
    requires fits { extent.end < 2 ^ 32 }
    ensures gives { Gives (λ x. (x.0, x.1.now)) result (class_at letters count extent rest.now) }
    ensures shorter { IfOk result (λ x. length x.1.now ≤ length rest.now) }
{
    let (letters, after) = of_class(extent, rest, count, ByteClass::Letter)?;
    let name = Vec::from_slice(alloc, letters)?;
    Ok((Items::from_vec(name), after))
}

/// An identifier of sixteen bytes.
pub fn identifier(extent: Extent, rest: &[u8]) -> Result<([u8; 16], &[u8]), BlockFault>
    requires inside { length rest.now ≤ extent.end }
    requires fits { extent.end < 2 ^ 32 }
    ensures gives { GivesSurely (λ x. (x.0, x.1.now)) result (raw_at 16 extent rest.now) }
    ensures shorter { IfOk result (λ x. length x.1.now ≤ length rest.now) }
{
    let (bytes, after) = raw(extent, rest, 16)?;
    let mut id = [0; 16];
    id.copy_from_slice(bytes);
    Ok((id, after))
}

/// Refuses bytes of a block that are left after its last field.
pub fn end_of_block(extent: Extent, rest: &[u8]) -> Result<(), BlockFault>
    requires fits { extent.end < 2 ^ 32 }
    ensures { GivesSurely (λ _. tt) result (ended_at extent rest.now) }
{
    if rest.is_empty() {
        Ok(())
    } else {
        Err(extent.missing())
    }
}

/// Refuses bytes that are left after a whole value.
pub fn end_of_input(bytes: &[u8], rest: &[u8]) -> Result<(), BlockFault>
    requires inside { length rest.now ≤ length bytes.now }
    requires near { length bytes.now - length rest.now < 2 ^ 32 }
    ensures { GivesSurely (λ _. tt) result (finished_at (length bytes.now) rest.now) }
{
    if rest.is_empty() {
        return Ok(());
    }
    Err(BlockFault {
        kind: BlockKind::Trailing,
        offset: (bytes.len() - rest.len()) as u32,
    })
}
