//! Reading a whole block.

ghost use Rattle.std.specs.Prelude.{◌≡◌, ◌≤◌, ◌<◌, ◌+◌, ◌-◌, ◌^◌, Ok, min, length, IfOk};
ghost use Rattle.irt_base.specs.declared.blocks.FrameBlock.{FrameBlock};
ghost use Rattle.irt_base.specs.Valid.{IsFrameBlock};
ghost use Rattle.irt_block.specs.Reading.{Gives};
ghost use Rattle.irt_block.specs.Header.{whole_of};
ghost use Rattle.pdir_frame.specs.Frames.{entries_at, fields_at, frames_in, frame_bytes};

use crate::entry::entry_of;
use irt_base::blocks::{Entry, FrameBlock};
use irt_base::limits::{MAX_DEMANDS, MIN_FRAME};
use irt_base::list::Items;
use irt_block::fields::{end_of_block, end_of_input, pad, u32_within};
use irt_block::{BlockFault, BlockId, Extent, open_block};
use std::alloc::Global;

/// BlockType and version of PDIRFrameData.
pub const FRAMES: BlockId = BlockId {
    kind: 0x0207,
    high: 1,
    low: 1,
};

/// Reads entries while bytes are left and fewer than the most of a block were read.
fn entries(alloc: Global, extent: Extent, rest: &[u8]) -> Result<(Items<Entry>, &[u8]), BlockFault>
    requires inside { length rest.now ≤ extent.end }
    requires fits { extent.end < 2 ^ 32 }
    ensures gives { Gives (λ x. (x.0, x.1.now)) result (entries_at MAX_DEMANDS MIN_FRAME extent rest.now) }
    ensures shorter { IfOk result (λ x. length x.1.now ≤ length rest.now) }
{
    let mut entries = Items::new(alloc);
    let mut left = rest;
    let mut least = MIN_FRAME;
    while !left.is_empty() && entries.len() < MAX_DEMANDS {
        let (entry, after) = entry_of(extent, left, least)?;
        least = entry.frame.0 + 1;
        entries.push(entry)?;
        left = after;
    }
    Ok((entries, left))
}

#[tactic(auto, unfolding(crate::specs::Frames::fields_at))]
fn fields(alloc: Global, extent: Extent, rest: &[u8]) -> Result<(FrameBlock, &[u8]), BlockFault>
    requires inside { length rest.now ≤ extent.end }
    requires fits { extent.end < 2 ^ 32 }
    ensures gives { Gives (λ x. (x.0, x.1.now)) result (fields_at extent rest.now) }
    ensures shorter { IfOk result (λ x. length x.1.now ≤ length rest.now) }
{
    let rest = pad(extent, rest, 2)?;
    let (mode, rest) = u32_within(extent, rest, 0, 1)?;
    let (entries, rest) = entries(alloc, extent, rest)?;
    let block = FrameBlock {
        relative: mode == 1,
        entries,
    };
    Ok((block, rest))
}

/// Reads the block at the front of `rest`, the bytes left of the extent, and gives the bytes after
/// it. Where bytes of it are missing, the fault is the extent's.
pub fn frames_at(
    alloc: Global,
    extent: Extent,
    rest: &[u8],
) -> Result<(FrameBlock, &[u8]), BlockFault>
    requires inside { length rest.now ≤ extent.end }
    requires near { min extent.end (extent.end - length rest.now + 65540) < 2 ^ 32 }
    ensures gives { Gives (λ x. (x.0, x.1.now)) result (frames_in extent rest.now) }
    ensures shorter { IfOk result (λ x. length x.1.now ≤ length rest.now) }
    ensures size { IfOk result (λ x. length rest.now ≤ length x.1.now + 65539) }
{
    let block = open_block(extent, rest, FRAMES)?;
    let (frames, left) = fields(alloc, block.extent, block.fields)?;
    end_of_block(block.extent, left)?;
    Ok((frames, block.after))
}

fn whole(alloc: Global, bytes: &[u8]) -> Result<FrameBlock, BlockFault>
    ensures { Gives (λ x. x) result (whole_of frames_in bytes.now) }
{
    let (frames, after) = frames_at(alloc, Extent::of_input(bytes), bytes)?;
    end_of_input(bytes, after)?;
    Ok(frames)
}

/// The frame block that the bytes spell, all of the bytes. A refusal is the first fault from left to
/// right, with its offset.
pub fn read_frames(alloc: Global, bytes: &[u8]) -> Result<FrameBlock, BlockFault>
    // What is read is valid, and spelled so.
    ensures found { IfOk result (λ v. IsFrameBlock v × (bytes.now ≡ frame_bytes v)) }
    // What is spelled so is read, unless memory runs out.
    ensures only { (v : FrameBlock) → IsFrameBlock v → bytes.now ≡ frame_bytes v → Gives (λ x. x) result (Ok v) }
    // A refusal is that of the reading order.
    ensures exact { Gives (λ x. x) result (whole_of frames_in bytes.now) }
{
    whole(alloc, bytes)
}
