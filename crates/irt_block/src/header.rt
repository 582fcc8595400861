//! Block headers.

ghost use Rattle.std.specs.Prelude.{◌≡◌, ◌≤◌, ◌<◌, ◌+◌, ◌-◌, ◌^◌, ◌++◌, length, min, take, drop, IfOk};
ghost use Rattle.irt_block.specs.Reading.{GivesSurely, fault_at, input_of};
ghost use Rattle.irt_block.specs.Header.{header_at, open_at, header_bytes, end_of};

use crate::extent::{Extent, Holder};
use crate::fault::{BlockFault, BlockKind};
use byteorder::{BigEndian, ByteOrder};

/// The bytes of a header: BlockType, BlockLength and two of version.
pub const HEADER: usize = 6;

/// What a header says beside the length: BlockType and the version's two bytes.
#[derive(Clone, Copy, PartialEq, Eq)]
pub struct BlockId {
    pub kind: u16,
    pub high: u8,
    pub low: u8,
}

/// A block whose header was read.
#[derive(Clone, Copy)]
pub struct Opened<'a> {
    /// What its fields may use.
    pub extent: Extent,
    /// The bytes of its fields.
    pub fields: &'a [u8],
    /// The bytes after it.
    pub after: &'a [u8],
}

/// The size of the block whose header stands at the front of `rest`, the bytes left of the extent.
#[tactic(auto, unfolding(crate::specs::Header::header_at, crate::specs::Reading::number_in))]
fn size_of_block(extent: Extent, rest: &[u8], id: BlockId) -> Result<usize, BlockFault>
    requires inside { length rest.now ≤ extent.end }
    requires near { min extent.end (extent.end - length rest.now + 65540) < 2 ^ 32 }
    ensures exact { result ≡ header_at id extent rest.now }
    ensures least { IfOk result (λ n. 6 ≤ n) }
    ensures there { IfOk result (λ n. n ≤ length rest.now) }
    ensures most { IfOk result (λ n. n < 65540) }
{
    if rest.len() < HEADER {
        return Err(extent.missing());
    }
    let offset = (extent.end - rest.len()) as u32;
    if BigEndian::read_u16(rest) != id.kind {
        return Err(fault(BlockKind::BadType, offset));
    }
    if !(rest[4] == id.high && rest[5] == id.low) {
        return Err(fault(BlockKind::BadVersion, offset + 4));
    }
    let length = usize::from(BigEndian::read_u16(&rest[2..]));
    if length < 2 {
        return Err(fault(BlockKind::BadLength, offset + 2));
    }
    if rest.len() < 4 + length {
        return Err(extent.missing());
    }
    Ok(4 + length)
}

fn fault(kind: BlockKind, offset: u32) -> BlockFault
    ensures { result ≡ fault_at kind offset }
{
    BlockFault { kind, offset }
}

/// Opens the block at the front of `rest`, the bytes left of the extent. Where bytes of it are
/// missing, the fault is the extent's.
pub fn open_block<'a>(extent: Extent, rest: &'a [u8], id: BlockId) -> Result<Opened<'a>, BlockFault>
    requires inside { length rest.now ≤ extent.end }
    requires near { min extent.end (extent.end - length rest.now + 65540) < 2 ^ 32 }
    ensures gives { GivesSurely (λ b. (b.extent, (b.fields.now, b.after.now))) result (open_at id extent rest.now) }
    ensures inside { IfOk result (λ b. length b.fields.now ≤ b.extent.end) }
    ensures fits { IfOk result (λ b. b.extent.end < 2 ^ 32) }
    ensures end { IfOk result (λ b. b.extent.end ≤ extent.end) }
    ensures after { IfOk result (λ b. length b.after.now ≤ length rest.now) }
    ensures size { IfOk result (λ b. length rest.now ≤ length b.after.now + 65539) }
{
    let size = size_of_block(extent, rest, id)?;
    let offset = extent.end - rest.len();
    let inner = Extent {
        end: offset + size,
        holder: Holder::Block(offset as u32 + 2),
    };
    Ok(Opened {
        extent: inner,
        fields: &rest[HEADER..size],
        after: &rest[size..],
    })
}

/// Reads the header of the block at `at`, and gives the block's end. Bytes are counted to `end`,
/// which stands for the input's length where they are missing.
pub fn read_header(
    bytes: &[u8],
    at: usize,
    end: usize,
    kind: u16,
    high: u8,
    low: u8,
) -> Result<usize, BlockFault>
    requires order { at ≤ end }
    requires inside { end ≤ length bytes.now }
    requires fits { end < 2 ^ 32 }
    ensures { result ≡ end_of (record { kind = kind; high = high; low = low }) at end bytes.now }
{
    let extent = Extent {
        end,
        holder: Holder::Input,
    };
    let id = BlockId { kind, high, low };
    let size = size_of_block(extent, &bytes[at..end], id)?;
    Ok(at + size)
}

#[tactic(auto, unfolding(crate::specs::Reading::spelled))]
/// Writes a header over the first six bytes. `block_length` is BlockLength, the bytes after that field.
pub fn write_header(out: &mut [u8], kind: u16, block_length: u16, high: u8, low: u8)
    requires { HEADER ≤ length out.old }
    ensures { out.new ≡ header_bytes (record { kind = kind; high = high; low = low }) block_length ++ drop HEADER out.old }
{
    BigEndian::write_u16(out, kind);
    BigEndian::write_u16(&mut out[2..], block_length);
    out[4] = high;
    out[5] = low;
}
