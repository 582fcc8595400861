//! The frames that a device provides, in the order of their release.

ghost use Rattle.std.specs.Prelude.{◌≡◌, ◌≤◌, All, length, filter, drop, slice_get, Some, true, IfOk};
ghost use Rattle.std.specs.List.Sorted.{IsStrictlyIncreasing};
ghost use Rattle.irt_base.specs.Valid.{IsEntry, frames_of};
ghost use Rattle.irt_base.specs.declared.blocks.Entry.{Entry};
ghost use Rattle.irt_switch.specs.Order.{IsReleaseOrder, key_of};
ghost use Rattle.irt_switch.specs.Release.{is_due, is_provided, outgoing_of};

use crate::action::Outgoing;
use crate::ports::ports_of;
use irt_base::blocks::Entry;
use irt_base::cycles::due;
use irt_base::memory::NoMemory;
use irt_base::numbers::FrameId;
use std::alloc::Global;

/// Where an entry stands in the order of release.
#[derive(Clone, Copy, PartialEq, Eq, PartialOrd, Ord)]
pub struct ReleaseKey {
    pub offset: u32,
    pub frame: u16,
}

/// The entries of the frames that a device provides, by offset, then FrameID.
pub fn in_release_order(alloc: Global, entries: &[Entry]) -> Result<Vec<Entry>, NoMemory>
    requires { IsStrictlyIncreasing (frames_of entries.now) }
    ensures { IfOk result (λ provided. IsReleaseOrder entries.now provided.items) }
{
    let mut provided = provided_of(alloc, entries)?;
    provided.sort_unstable_by_key(|entry| release_key(entry));
    Ok(provided)
}

/// The entries of the frames that a device provides.
fn provided_of(alloc: Global, entries: &[Entry]) -> Result<Vec<Entry>, NoMemory>
    ensures { IfOk result (λ provided. provided.items ≡ filter is_provided entries.now) }
{
    let mut provided = Vec::new(alloc);
    for entry in entries {
        if entry.rx_port == 0 {
            provided.push(*entry)?;
        }
    }
    Ok(provided)
}

fn release_key(entry: &Entry) -> ReleaseKey
    ensures { result ≡ key_of entry.now }
{
    ReleaseKey {
        offset: entry.send_offset,
        frame: entry.frame.0,
    }
}

/// The place of the first of the entries that is due in cycle `k`, from a place on. It is their number where none is.
pub fn next_due(entries: &[Entry], from: usize, k: u32) -> usize
    requires valid { All IsEntry entries.now }
    requires within { from ≤ length entries.now }
    ensures later { from ≤ result }
    ensures end { result ≤ length entries.now }
    ensures skipped { filter (is_due k) (drop from entries.now) ≡ filter (is_due k) (drop result entries.now) }
    ensures found { (e : Entry) → slice_get entries.now result ≡ Some e → is_due k e ≡ true }
{
    let mut place = from;
    while place < entries.len() {
        let entry = &entries[place];
        if due(k, entry.ratio, entry.phase) {
            return place;
        }
        place += 1;
    }
    place
}

/// What an entry says of the start of its frame.
pub fn outgoing(entry: &Entry) -> Outgoing
    ensures { result ≡ outgoing_of entry.now }
{
    Outgoing {
        frame: entry.frame,
        at: i64::from(entry.send_offset),
        ports: ports_of(entry.tx),
    }
}
