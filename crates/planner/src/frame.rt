//! The plan of a placed frame.

ghost use Rattle.std.specs.Prelude.{◌≡◌, ◌≤◌, IfOk, length};
ghost use Rattle.irt_base.specs.declared.limits.TheConstants.{MAX_DEVICES};
ghost use Rattle.placement.specs.Layouts.{IsLayout, offset_at};
ghost use Rattle.planner.specs.Placed.{placed_entry, AreAnchorOffsets, ArePlacedEntries, IsPlacedPlan};

use fit_rules::frame_plan::FramePlan;
use frame_ways::frame_way::FrameWay;
use irt_base::blocks::Entry;
use irt_base::limits::MAX_DEVICES;
use irt_base::list::Items;
use irt_base::memory::NoMemory;
use placement::layout::{Layout, Offsets, Rate};
use std::alloc::Global;

/// The frame of a way in a rate, by the offsets of its anchors. All else stands as in the way.
pub fn placed_plan(
    alloc: Global,
    way: &FrameWay,
    rate: Rate,
    offsets: &Offsets,
) -> Result<FramePlan, NoMemory>
    requires layout { IsLayout way.now.layout }
    requires few { length way.now.entries ≤ MAX_DEVICES }
    ensures { IfOk result (IsPlacedPlan way.now rate offsets.now) }
{
    let kept = anchor_offsets(&way.layout, offsets);
    let entries = placed_entries(alloc, way.entries.as_slice(), rate, &kept)?;
    Ok(FramePlan {
        frame: way.frame,
        entries,
    })
}

// The offsets of the anchors alone.
fn anchor_offsets(layout: &Layout, offsets: &Offsets) -> Offsets
    requires { IsLayout layout.now }
    ensures { AreAnchorOffsets layout.now.anchors offsets.now result }
{
    let mut kept = [0; MAX_DEVICES];
    for anchor in layout.anchors.as_slice() {
        let device = usize::from(anchor.device.0);
        kept[device] = offsets[device];
    }
    kept
}

fn placed_entries(
    alloc: Global,
    entries: &[Option<Entry>],
    rate: Rate,
    offsets: &Offsets,
) -> Result<Items<Option<Entry>>, NoMemory>
    requires { length entries.now ≤ MAX_DEVICES }
    ensures { IfOk result (ArePlacedEntries rate offsets.now entries.now) }
{
    let mut placed = Items::with_capacity(alloc, entries.len())?;
    for (device, entry) in entries.iter().enumerate() {
        placed.push(placed_entry(*entry, rate, offsets[device]))?;
    }
    Ok(placed)
}

fn placed_entry(entry: Option<Entry>, rate: Rate, offset: u32) -> Option<Entry>
    ensures { result ≡ placed_entry rate offset entry }
{
    match entry {
        None => None,
        Some(mut entry) => {
            entry.ratio = rate.ratio;
            entry.phase = rate.phase;
            entry.send_offset = offset;
            Some(entry)
        }
    }
}
