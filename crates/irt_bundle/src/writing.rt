//! Writing a device file.

ghost use Rattle.std.specs.Prelude.{◌≡◌, ◌++◌, IfOk, OnOk};
ghost use Rattle.irt_base.specs.Valid.{IsBundle};
ghost use Rattle.irt_bundle.specs.Bundles.{data_bytes, data_of, bundle_bytes};

use crate::reading::DATA;
use irt_base::blocks::Bundle;
use irt_base::memory::NoMemory;
use irt_block::output::{begin_block, close_block, put_bytes, put_u16};
use pd_blocks::{write_global, write_sync};
use pdir_begin_end::write_periods;
use pdir_frame::write_frames;
use std::alloc::Global;

fn write_data(alloc: Global, value: &Bundle) -> Result<Vec<u8>, NoMemory>
    requires { IsBundle value.now }
    ensures { IfOk result (λ v. v.items ≡ data_bytes (data_of value.now)) }
{
    let mut out = begin_block(alloc)?;
    put_bytes(&mut out, &[0; 2])?;
    put_u16(&mut out, value.slot)?;
    put_u16(&mut out, value.subslot)?;
    put_bytes(&mut out, &write_global(alloc, &value.global)?)?;
    put_bytes(&mut out, &write_frames(alloc, &value.frames)?)?;
    put_bytes(&mut out, &write_periods(alloc, &value.periods)?)?;
    close_block(&mut out, DATA);
    Ok(out)
}

/// The one spelling of a valid bundle.
pub fn write_bundle(alloc: Global, value: &Bundle) -> Result<Vec<u8>, NoMemory>
    requires { IsBundle value.now }
    ensures { IfOk result (λ v. v.items ≡ bundle_bytes value.now) }
{
    let mut out = write_sync(alloc, &value.sync)?;
    put_bytes(&mut out, &write_data(alloc, value)?)?;
    Ok(out)
}
