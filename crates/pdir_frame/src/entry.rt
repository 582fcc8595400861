//! One entry.

ghost use Rattle.std.specs.Prelude.{◌≡◌, ◌≤◌, ◌<◌, ◌^◌, ◌++◌, length, IfOk, OnOk};
ghost use Rattle.irt_block.specs.Reading.{GivesSurely, ruled_at};
ghost use Rattle.pdir_frame.specs.Frames.{is_data_length, is_ratio, entry_at, entry_bytes};

use irt_base::blocks::Entry;
use irt_base::limits::{DATA_STEP, MAX_DATA, MAX_FRAME, MAX_PORTS, MIN_DATA};
use irt_base::memory::NoMemory;
use irt_base::numbers::FrameId;
use irt_block::fields::{
    pad, rule, u8_at, u8_constant, u8_within, u16_at, u16_constant, u16_within, u32_at,
};
use irt_block::output::{put_bytes, put_u8, put_u16, put_u32};
use irt_block::{BlockFault, Extent};

/// The Ethertype of PROFINET.
pub const ETHERTYPE: u16 = 0x8892;

/// The fixed FrameDetails and NumberOfTxPortGroups of an entry.
pub const FRAME_DETAILS: u8 = 0;

pub const TX_PORT_GROUPS: u8 = 1;

fn is_length(bytes: u16) -> bool
    ensures { result ≡ is_data_length bytes }
{
    MIN_DATA <= bytes && bytes <= MAX_DATA && bytes % DATA_STEP == 0
}

fn is_ratio_of(ratio: u16) -> bool
    ensures { result ≡ is_ratio ratio }
{
    matches!(ratio, 1 | 2 | 4 | 8 | 16)
}

fn data_length(extent: Extent, rest: &[u8]) -> Result<(u16, &[u8]), BlockFault>
    requires inside { length rest.now ≤ extent.end }
    requires fits { extent.end < 2 ^ 32 }
    ensures gives { GivesSurely (λ x. (x.0, x.1.now)) result (ruled_at 2 is_data_length extent rest.now) }
    ensures shorter { IfOk result (λ x. length x.1.now ≤ length rest.now) }
{
    let (bytes, after) = u16_at(extent, rest)?;
    rule(extent, rest, is_length(bytes))?;
    Ok((bytes, after))
}

fn ratio(extent: Extent, rest: &[u8]) -> Result<(u16, &[u8]), BlockFault>
    requires inside { length rest.now ≤ extent.end }
    requires fits { extent.end < 2 ^ 32 }
    ensures gives { GivesSurely (λ x. (x.0, x.1.now)) result (ruled_at 2 is_ratio extent rest.now) }
    ensures shorter { IfOk result (λ x. length x.1.now ≤ length rest.now) }
{
    let (ratio, after) = u16_at(extent, rest)?;
    rule(extent, rest, is_ratio_of(ratio))?;
    Ok((ratio, after))
}

/// Reads an entry whose FrameID is `least` or more.
#[tactic(auto, unfolding(crate::specs::Frames::entry_at))]
pub fn entry_of(extent: Extent, rest: &[u8], least: u16) -> Result<(Entry, &[u8]), BlockFault>
    requires inside { length rest.now ≤ extent.end }
    requires fits { extent.end < 2 ^ 32 }
    ensures gives { GivesSurely (λ x. (x.0, x.1.now)) result (entry_at least extent rest.now) }
    ensures shorter { IfOk result (λ x. length x.1.now ≤ length rest.now) }
    ensures frame { IfOk result (λ x. x.0.frame.0 ≤ MAX_FRAME) }
{
    let (send_offset, rest) = u32_at(extent, rest)?;
    let (data_length, rest) = data_length(extent, rest)?;
    let (ratio, rest) = ratio(extent, rest)?;
    let (phase, rest) = u16_within(extent, rest, 1, ratio)?;
    let (frame, rest) = u16_within(extent, rest, least, MAX_FRAME)?;
    let rest = u16_constant(extent, rest, ETHERTYPE)?;
    let (rx_port, rest) = u8_within(extent, rest, 0, MAX_PORTS as u8)?;
    let rest = u8_constant(extent, rest, FRAME_DETAILS)?;
    let rest = u8_constant(extent, rest, TX_PORT_GROUPS)?;
    let (tx, rest) = u8_at(extent, rest)?;
    let rest = pad(extent, rest, 2)?;
    let entry = Entry {
        send_offset,
        data_length,
        ratio,
        phase,
        frame: FrameId(frame),
        rx_port,
        tx,
    };
    Ok((entry, rest))
}

/// Appends an entry.
pub fn put_entry(out: &mut Vec<u8>, entry: Entry) -> Result<(), NoMemory>
    ensures { OnOk result (out.new.items ≡ out.old.items ++ entry_bytes entry) }
{
    put_u32(out, entry.send_offset)?;
    put_u16(out, entry.data_length)?;
    put_u16(out, entry.ratio)?;
    put_u16(out, entry.phase)?;
    put_u16(out, entry.frame.0)?;
    put_u16(out, ETHERTYPE)?;
    put_u8(out, entry.rx_port)?;
    put_u8(out, FRAME_DETAILS)?;
    put_u8(out, TX_PORT_GROUPS)?;
    put_u8(out, entry.tx)?;
    put_bytes(out, &[0; 2])
}
