//! Frames on one link direction: V6.

ghost use Rattle.std.specs.Prelude.{◌≡◌, ◌<◌, length, IfOk};
ghost use Rattle.plan_rules.specs.Frames.{KeepsApart};
ghost use Rattle.plan_rules.specs.Places.{IsScan, IsScanOf, IsOf, IsAt};
ghost use Rattle.way_rules.specs.Placed.{IsWayPlan};
ghost use Rattle.way_rules.specs.Slots.{IsTimed, AreTimed, AreSlots, slot_of};

use crate::scan::row_of;
use irt_base::blocks::{Bundle, Entry};
use irt_base::cycles::wire;
use irt_base::list::Items;
use irt_base::memory::NoMemory;
use irt_base::numbers::{DevId, PortNo};
use irt_base::plants::Plant;
use irt_window::ports::{TX_BITS, leaves_by};
use plan_rules::place::Place;
use plan_rules::way::Way;
use plan_rules::ways::ways_are_one;
use std::alloc::Global;
use window_sweep::slot::SendSlot;
use window_sweep::sweep::first_clash;

/// V6: the least place, by device, port and two frames, at which frames of one link direction that share a
/// cycle may meet. Any call may answer that memory ran out.
pub fn clash_break(
    alloc: Global,
    plant: &Plant,
    bundles: &[Bundle],
    ways: &[Items<Way>],
) -> Result<Option<Place>, NoMemory>
    requires { IsWayPlan plant.now bundles.now ways.now }
    ensures { IfOk result (IsScan (KeepsApart plant.now bundles.now)) }
{
    for device in 0..bundles.len() {
        let found = device_clash(alloc, plant, bundles, ways, DevId(device as u8))?;
        if found.is_some() {
            return Ok(found);
        }
    }
    Ok(None)
}

/// The least place of a device.
fn device_clash(
    alloc: Global,
    plant: &Plant,
    bundles: &[Bundle],
    ways: &[Items<Way>],
    device: DevId,
) -> Result<Option<Place>, NoMemory>
    requires plan { IsWayPlan plant.now bundles.now ways.now }
    requires there { device.0 < length bundles.now }
    ensures { IfOk result (IsScanOf (IsOf device.0) (KeepsApart plant.now bundles.now)) }
{
    for port in 0..TX_BITS {
        let found = port_clash(alloc, plant, bundles, ways, device, PortNo(port))?;
        if found.is_some() {
            return Ok(found);
        }
    }
    Ok(None)
}

/// The least place of a port.
fn port_clash(
    alloc: Global,
    plant: &Plant,
    bundles: &[Bundle],
    ways: &[Items<Way>],
    device: DevId,
    port: PortNo,
) -> Result<Option<Place>, NoMemory>
    requires plan { IsWayPlan plant.now bundles.now ways.now }
    requires there { device.0 < length bundles.now }
    ensures { IfOk result (IsScanOf (IsAt device.0 port.0) (KeepsApart plant.now bundles.now)) }
{
    ways_are_one();
    let (entries, own_ways) = row_of(bundles, ways, device);
    let slots = slots_of(alloc, entries, own_ways, port)?;
    match first_clash(alloc, plant.window, slots.as_slice())? {
        None => Ok(None),
        Some((frame, other)) => Ok(Some(Place {
            device,
            port: port.0,
            frame: frame.0,
            other: other.0,
        })),
    }
}

/// The slots of the entries that leave by a port.
fn slots_of(
    alloc: Global,
    entries: &[Entry],
    own_ways: &[Way],
    port: PortNo,
) -> Result<Items<SendSlot>, NoMemory>
    requires { AreTimed entries.now own_ways.now }
    ensures { IfOk result (AreSlots entries.now own_ways.now port.0 (length entries.now)) }
{
    let mut slots = Items::new(alloc);
    for index in 0..entries.len() {
        let entry = entries[index];
        if leaves_by(entry, port) {
            slots.push(slot_of(entry, own_ways[index]))?;
        }
    }
    Ok(slots)
}

/// From the earliest start until the latest end.
fn slot_of(entry: Entry, way: Way) -> SendSlot
    requires { IsTimed entry way }
    ensures { result ≡ slot_of entry way }
{
    SendSlot {
        lo: way.lo,
        end: way.hi + u64::from(wire(entry.data_length)),
        anchor: way.anchor,
        frame: entry.frame,
        ratio: entry.ratio,
        phase: entry.phase,
    }
}
