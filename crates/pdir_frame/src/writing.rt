//! Writing a block.

ghost use Rattle.std.specs.Prelude.{◌≡◌, ◌++◌, IfOk, OnOk};
ghost use Rattle.std.specs.List.{flat_map};
ghost use Rattle.irt_base.specs.Valid.{IsFrameBlock};
ghost use Rattle.pdir_frame.specs.Frames.{entry_bytes, frame_bytes};

use crate::entry::put_entry;
use crate::reading::FRAMES;
use irt_base::blocks::{Entry, FrameBlock};
use irt_base::memory::NoMemory;
use irt_block::output::{begin_block, close_block, put_bytes, put_u32};
use std::alloc::Global;

fn put_entries(out: &mut Vec<u8>, entries: &[Entry]) -> Result<(), NoMemory>
    ensures { OnOk result (out.new.items ≡ out.old.items ++ flat_map entry_bytes entries.now) }
{
    for entry in entries {
        put_entry(out, *entry)?;
    }
    Ok(())
}

/// The one spelling of a valid frame block.
pub fn write_frames(alloc: Global, value: &FrameBlock) -> Result<Vec<u8>, NoMemory>
    requires { IsFrameBlock value.now }
    ensures { IfOk result (λ v. v.items ≡ frame_bytes value.now) }
{
    let mut out = begin_block(alloc)?;
    put_bytes(&mut out, &[0; 2])?;
    put_u32(&mut out, u32::from(value.relative))?;
    put_entries(&mut out, value.entries.as_slice())?;
    close_block(&mut out, FRAMES);
    Ok(out)
}
