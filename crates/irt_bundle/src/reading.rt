//! Reading a device file.

ghost use Rattle.std.specs.Prelude.{◌≡◌, ◌≤◌, ◌<◌, ◌+◌, ◌-◌, ◌^◌, Ok, min, length, IfOk};
ghost use Rattle.irt_base.specs.declared.blocks.Bundle.{Bundle};
ghost use Rattle.irt_base.specs.Valid.{IsBundle};
ghost use Rattle.irt_block.specs.Reading.{Gives};
ghost use Rattle.irt_block.specs.Header.{whole_of};
ghost use Rattle.irt_bundle.specs.Bundles.{data_fields_at, data_in, bundle_in, bundle_bytes};

use irt_base::blocks::{Bundle, FrameBlock, GlobalBlock, PeriodBlock};
use irt_block::fields::{end_of_block, end_of_input, pad, u16_at};
use irt_block::{BlockFault, BlockId, Extent, open_block};
use pd_blocks::{global_at, sync_at};
use pdir_begin_end::periods_at;
use pdir_frame::frames_at;
use std::alloc::Global;

/// BlockType and version of PDIRData.
pub const DATA: BlockId = BlockId {
    kind: 0x0205,
    high: 1,
    low: 1,
};

/// What PDIRData holds.
#[derive(Drop)]
pub struct Data {
    pub slot: u16,
    pub subslot: u16,
    pub global: GlobalBlock,
    pub frames: FrameBlock,
    pub periods: PeriodBlock,
}

#[tactic(auto, unfolding(crate::specs::Bundles::data_fields_at))]
fn fields(alloc: Global, extent: Extent, rest: &[u8]) -> Result<(Data, &[u8]), BlockFault>
    requires inside { length rest.now ≤ extent.end }
    requires fits { extent.end < 2 ^ 32 }
    ensures gives { Gives (λ x. (x.0, x.1.now)) result (data_fields_at extent rest.now) }
    ensures shorter { IfOk result (λ x. length x.1.now ≤ length rest.now) }
{
    let rest = pad(extent, rest, 2)?;
    let (slot, rest) = u16_at(extent, rest)?;
    let (subslot, rest) = u16_at(extent, rest)?;
    let (global, rest) = global_at(alloc, extent, rest)?;
    let (frames, rest) = frames_at(alloc, extent, rest)?;
    let (periods, rest) = periods_at(alloc, extent, rest)?;
    let inner = Data {
        slot,
        subslot,
        global,
        frames,
        periods,
    };
    Ok((inner, rest))
}

/// Reads PDIRData at the front of `rest`, the bytes left of the extent, and gives the bytes after it.
fn data_at(alloc: Global, extent: Extent, rest: &[u8]) -> Result<(Data, &[u8]), BlockFault>
    requires inside { length rest.now ≤ extent.end }
    requires near { min extent.end (extent.end - length rest.now + 65540) < 2 ^ 32 }
    ensures gives { Gives (λ x. (x.0, x.1.now)) result (data_in extent rest.now) }
    ensures shorter { IfOk result (λ x. length x.1.now ≤ length rest.now) }
    ensures size { IfOk result (λ x. length rest.now ≤ length x.1.now + 65539) }
{
    let block = open_block(extent, rest, DATA)?;
    let (inner, left) = fields(alloc, block.extent, block.fields)?;
    end_of_block(block.extent, left)?;
    Ok((inner, block.after))
}

#[tactic(auto, unfolding(crate::specs::Bundles::bundle_in))]
fn whole(alloc: Global, bytes: &[u8]) -> Result<Bundle, BlockFault>
    ensures { Gives (λ x. x) result (whole_of bundle_in bytes.now) }
{
    let input = Extent::of_input(bytes);
    let (sync, rest) = sync_at(alloc, input, bytes)?;
    let (inner, rest) = data_at(alloc, input, rest)?;
    end_of_input(bytes, rest)?;
    Ok(Bundle {
        sync,
        slot: inner.slot,
        subslot: inner.subslot,
        global: inner.global,
        frames: inner.frames,
        periods: inner.periods,
    })
}

/// The bundle of a device that the bytes spell, all of the bytes. A refusal is the first fault from
/// left to right, with its offset, whatever the input's length. It takes time linear in the bytes.
pub fn read_bundle(alloc: Global, bytes: &[u8]) -> Result<Bundle, BlockFault>
    // What is read is valid, and spelled so.
    ensures found { IfOk result (λ v. IsBundle v × (bytes.now ≡ bundle_bytes v)) }
    // What is spelled so is read, unless memory runs out.
    ensures only { (v : Bundle) → IsBundle v → bytes.now ≡ bundle_bytes v → Gives (λ x. x) result (Ok v) }
    // A refusal is that of the reading order.
    ensures exact { Gives (λ x. x) result (whole_of bundle_in bytes.now) }
{
    whole(alloc, bytes)
}
