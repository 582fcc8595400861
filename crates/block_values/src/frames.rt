//! Whether a frame block is valid.

ghost use Rattle.std.specs.Prelude.{◌≡◌, ◌↔◌, ◌%◌, ◌<◌, ◌≤◌, IsTrue, length, slice_index};
ghost use Rattle.std.specs.List.{AllByRecursion};
ghost use Rattle.std.specs.List.Sorted.{IsStrictlyIncreasing};
ghost use Rattle.irt_base.specs.Valid.{IsWithin, IsDataLength, IsRatio, IsRate, IsEntry, IsFrameBlock, frames_of};

use irt_base::blocks::{Entry, FrameBlock};
use irt_base::limits::{
    DATA_STEP, MAX_DATA, MAX_DEMANDS, MAX_FRAME, MAX_PORTS, MIN_DATA, MIN_FRAME,
};

pub fn is_frame_block(b: &FrameBlock) -> bool
    ensures { IsTrue result ↔ IsFrameBlock b.now }
{
    let entries = b.entries.as_slice();
    has_room(entries.len()) && are_entries(entries) && ascends(entries)
}

fn has_room(entries: usize) -> bool
    ensures { IsTrue result ↔ (entries ≤ MAX_DEMANDS) }
{
    entries <= MAX_DEMANDS
}

fn are_entries(entries: &[Entry]) -> bool
    ensures { IsTrue result ↔ AllByRecursion IsEntry entries.now }
{
    for e in entries {
        if !is_entry(*e) {
            return false;
        }
    }
    true
}

/// Whether each FrameID is above the one before.
fn ascends(entries: &[Entry]) -> bool
    ensures { IsTrue result ↔ IsStrictlyIncreasing (frames_of entries.now) }
{
    for index in 1..entries.len() {
        if frame_at(entries, index) <= frame_at(entries, index - 1) {
            return false;
        }
    }
    true
}

fn frame_at(entries: &[Entry], index: usize) -> u16
    requires { index < length entries.now }
    ensures { result ≡ slice_index (frames_of entries.now) index }
{
    entries[index].frame.0
}

fn is_entry(e: Entry) -> bool
    ensures { IsTrue result ↔ IsEntry e }
{
    is_length(e.data_length)
        && is_rate(e.ratio, e.phase)
        && is_frame(e.frame.0)
        && usize::from(e.rx_port) <= MAX_PORTS
}

fn is_length(n: u16) -> bool
    ensures { IsTrue result ↔ IsDataLength n }
{
    MIN_DATA <= n && n <= MAX_DATA && n % DATA_STEP == 0
}

fn is_rate(ratio: u16, phase: u16) -> bool
    ensures { IsTrue result ↔ IsRate ratio phase }
{
    is_ratio(ratio) && 1 <= phase && phase <= ratio
}

fn is_ratio(n: u16) -> bool
    ensures { IsTrue result ↔ IsRatio n }
{
    n == 1 || n == 2 || n == 4 || n == 8 || n == 16
}

fn is_frame(frame: u16) -> bool
    ensures { IsTrue result ↔ IsWithin MIN_FRAME MAX_FRAME frame }
{
    MIN_FRAME <= frame && frame <= MAX_FRAME
}
