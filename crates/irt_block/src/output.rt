//! Fields, written at the end of a block.

ghost use Rattle.std.specs.Prelude.{◌≡◌, ◌<◌, ◌^◌, ◌+◌, ◌≤◌, ◌-◌, ◌++◌, ◌∷◌, [], length, drop, replicate, IfOk, OnOk};
ghost use Rattle.irt_block.specs.Reading.{spelled};
ghost use Rattle.irt_block.specs.Header.{header_bytes};

use crate::header::{BlockId, HEADER, write_header};
use byteorder::{BigEndian, ByteOrder};
use irt_base::memory::NoMemory;
use std::alloc::Global;

/// Appends a number of one byte.
#[tactic(auto, unfolding(crate::specs::Reading::spelled))]
pub fn put_u8(out: &mut Vec<u8>, value: u8) -> Result<(), NoMemory>
    ensures { OnOk result (out.new.items ≡ out.old.items ++ spelled 1 value) }
{
    out.push(value)?;
    Ok(())
}

/// Appends a number of two bytes.
#[tactic(auto, unfolding(crate::specs::Reading::spelled))]
pub fn put_u16(out: &mut Vec<u8>, value: u16) -> Result<(), NoMemory>
    ensures { OnOk result (out.new.items ≡ out.old.items ++ spelled 2 value) }
{
    let mut bytes = [0; 2];
    BigEndian::write_u16(&mut bytes, value);
    out.extend_from_slice(&bytes)?;
    Ok(())
}

/// Appends a number of four bytes.
#[tactic(auto, unfolding(crate::specs::Reading::spelled))]
pub fn put_u32(out: &mut Vec<u8>, value: u32) -> Result<(), NoMemory>
    ensures { OnOk result (out.new.items ≡ out.old.items ++ spelled 4 value) }
{
    let mut bytes = [0; 4];
    BigEndian::write_u32(&mut bytes, value);
    out.extend_from_slice(&bytes)?;
    Ok(())
}

/// Appends bytes as they are.
pub fn put_bytes(out: &mut Vec<u8>, bytes: &[u8]) -> Result<(), NoMemory>
    ensures { OnOk result (out.new.items ≡ out.old.items ++ bytes.now) }
{
    out.extend_from_slice(bytes)?;
    Ok(())
}

/// Begins a block: the place of its header, which `close_block` fills.
pub fn begin_block(alloc: Global) -> Result<Vec<u8>, NoMemory>
    ensures { IfOk result (λ out. out.items ≡ replicate HEADER 0) }
{
    Ok(Vec::from_slice(alloc, &[0; HEADER])?)
}

/// Writes the header of a block whose fields stand behind the place of the header.
pub fn close_block(out: &mut Vec<u8>, id: BlockId)
    requires least { HEADER ≤ length out.old.items }
    requires most { length out.old.items < 2 ^ 16 + 4 }
    ensures { out.new.items ≡ header_bytes id (length out.old.items - 4) ++ drop HEADER out.old.items }
{
    let length = (out.len() - 4) as u16;
    write_header(out, id.kind, length, id.high, id.low);
}
