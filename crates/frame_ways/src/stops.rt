//! The devices to which a frame comes, each after its parent.

ghost use Rattle.std.specs.Prelude.{◌≡◌, ◌↔◌, ◌+◌, ◌*◌, ◌<◌, ◌≤◌, length, IfOk, OnOk, IsTrue, Some};
ghost use Rattle.irt_base.specs.declared.limits.TheConstants.{MAX_DELAY};
ghost use Rattle.plant_rules.specs.Meets.{MeetsRules};
ghost use Rattle.link_index.specs.Index.{IsIndexOf};
ghost use Rattle.plan_rules.specs.Way.{Leaves, IsAbsolute};
ghost use Rattle.fit_rules.specs.Shape.{entry_of};
ghost use Rattle.frame_ways.specs.Stops.{IsEntryTree, IsProvided, IsStarter, IsListed, IsFirstStop, IsNextStop, IsStopBehind, IsAdded, AreStopsTo};

use crate::frame_way::Arrival;
use fit_rules::frame_plan::FramePlan;
use irt_base::blocks::Entry;
use irt_base::limits::MAX_DEVICES;
use irt_base::list::Items;
use irt_base::memory::NoMemory;
use irt_base::numbers::{DevId, PortNo};
use irt_base::plants::{Mode, Plant};
use irt_window::ports::{TX_BITS, leaves, leaves_by};
use link_index::index::LinkIndex;
use std::alloc::Global;

/// A device to which a frame comes, or which provides it. All times are ns after the offset of the anchor.
#[derive(Clone, Copy)]
pub struct Stop {
    pub device: DevId,
    pub entry: Entry,
    /// Nothing at the provider.
    pub arrival: Option<Arrival>,
    /// The device by whose offset this one starts the frame.
    pub anchor: DevId,
    /// The least and the greatest time from that offset to the start.
    pub least: u32,
    pub greatest: u32,
    /// How many links lead from the provider to the device.
    pub hops: u32,
}

/// The stops of a frame, from its provider on. Each device is looked for once among those listed so far.
pub fn stops_of(
    alloc: Global,
    plant: &Plant,
    index: &LinkIndex,
    base: &FramePlan,
    provider: DevId,
) -> Result<Items<Stop>, NoMemory>
    requires rules { MeetsRules plant.now }
    requires index { IsIndexOf plant.now index.now }
    requires tree { IsEntryTree plant.now base.now }
    requires provided { IsProvided base.now provider.0 }
    ensures { IfOk result (λ stops. AreStopsTo plant.now base.now stops (length stops) 0) }
{
    let mut stops = Items::new(alloc);
    stops.push(first_stop(base, provider))?;
    let mut done = 0;
    while done < stops.len() {
        add_next(plant, index, base, done, &mut stops)?;
        done += 1;
    }
    Ok(stops)
}

/// Adds the devices to which a stop sends, where they have no stop yet.
fn add_next(
    plant: &Plant,
    index: &LinkIndex,
    base: &FramePlan,
    at: usize,
    stops: &mut Items<Stop>,
) -> Result<(), NoMemory>
    requires rules { MeetsRules plant.now }
    requires index { IsIndexOf plant.now index.now }
    requires tree { IsEntryTree plant.now base.now }
    requires there { at < length stops.old }
    requires stops { AreStopsTo plant.now base.now stops.old at 0 }
    ensures there { OnOk result (at < length stops.new) }
    ensures stops { OnOk result (AreStopsTo plant.now base.now stops.new (at + 1) 0) }
{
    for port in 0..TX_BITS {
        add_by(plant, index, base, at, PortNo(port), stops)?;
    }
    Ok(())
}

/// Adds the device to which a stop sends by a port, where it has no stop yet.
fn add_by(
    plant: &Plant,
    index: &LinkIndex,
    base: &FramePlan,
    at: usize,
    port: PortNo,
    stops: &mut Items<Stop>,
) -> Result<(), NoMemory>
    requires rules { MeetsRules plant.now }
    requires index { IsIndexOf plant.now index.now }
    requires tree { IsEntryTree plant.now base.now }
    requires there { at < length stops.old }
    requires stops { AreStopsTo plant.now base.now stops.old at port.0 }
    ensures there { OnOk result (at < length stops.new) }
    ensures stops { OnOk result (AreStopsTo plant.now base.now stops.new at (port.0 + 1)) }
{
    let stop = stops.as_slice()[at];
    if !leaves_by(stop.entry, port) {
        return Ok(());
    }
    let next = next_stop(plant, index, base, stop, port);
    add_stop(stops, next)
}

/// Adds a stop, where its device has none.
fn add_stop(stops: &mut Items<Stop>, stop: Stop) -> Result<(), NoMemory>
    ensures { OnOk result (IsAdded stop stops.old stops.new) }
{
    if is_listed(stops.as_slice(), stop.device) {
        return Ok(());
    }
    stops.push(stop)
}

fn is_listed(stops: &[Stop], device: DevId) -> bool
    ensures { IsTrue result ↔ IsListed stops.now device.0 }
{
    for stop in stops {
        if stop.device.0 == device.0 {
            return true;
        }
    }
    false
}

fn first_stop(base: &FramePlan, provider: DevId) -> Stop
    requires { IsProvided base.now provider.0 }
    ensures { IsFirstStop base.now provider result }
{
    match entry_of(base, provider) {
        None => unreachable!(),
        Some(entry) => Stop {
            device: provider,
            entry,
            arrival: None,
            anchor: provider,
            least: 0,
            greatest: 0,
            hops: 0,
        },
    }
}

/// The stop to which another one sends by a port.
fn next_stop(plant: &Plant, index: &LinkIndex, base: &FramePlan, stop: Stop, port: PortNo) -> Stop
    requires rules { MeetsRules plant.now }
    requires index { IsIndexOf plant.now index.now }
    requires tree { IsEntryTree plant.now base.now }
    requires stands { entry_of base.now stop.device.0 ≡ Some stop.entry }
    requires leaves { Leaves stop.entry port.0 }
    requires small { stop.greatest ≤ MAX_DEVICES * (4 * MAX_DELAY) }
    requires ordered { stop.least ≤ stop.greatest }
    requires few { stop.hops ≤ MAX_DEVICES }
    ensures { IsNextStop plant.now base.now stop port.0 result }
{
    let Some((device, _)) = index.peer(stop.device, port) else {
        unreachable!()
    };
    let Some(hop) = index.hop(stop.device, port) else {
        unreachable!()
    };
    let Some(entry) = entry_of(base, device) else {
        unreachable!()
    };
    let arrival = Arrival {
        device,
        port: PortNo(entry.rx_port),
        anchor: stop.anchor,
        latest: stop.greatest + hop,
    };
    stop_behind(plant, stop, hop, entry, arrival)
}

/// The stop of a device behind the one that sends to it, `hop` ns away.
fn stop_behind(plant: &Plant, from: Stop, hop: u32, entry: Entry, arrival: Arrival) -> Stop
    requires rules { MeetsRules plant.now }
    requires there { arrival.device.0 < length plant.now.devices }
    requires small { from.greatest ≤ MAX_DEVICES * (4 * MAX_DELAY) }
    requires ordered { from.least ≤ from.greatest }
    requires few { from.hops ≤ MAX_DEVICES }
    requires near { hop ≤ 3 * MAX_DELAY }
    ensures { IsStopBehind plant.now from hop entry arrival result }
{
    let device = arrival.device;
    let (anchor, least, greatest) = if is_starter(plant, device, entry) {
        (device, 0, 0)
    } else {
        let bridge = &plant.devices.as_slice()[usize::from(device.0)];
        (
            from.anchor,
            from.least + (hop + bridge.bmin),
            from.greatest + (hop + bridge.bmax),
        )
    };
    Stop {
        device,
        entry,
        arrival: Some(arrival),
        anchor,
        least,
        greatest,
        hops: from.hops + 1,
    }
}

/// Whether a device starts the entry's frame by an offset of its own.
pub fn is_starter(plant: &Plant, device: DevId, entry: Entry) -> bool
    ensures { IsTrue result ↔ IsStarter plant.now device.0 entry }
{
    entry.rx_port == 0 || (is_absolute(plant, device) && leaves(entry))
}

fn is_absolute(plant: &Plant, device: DevId) -> bool
    ensures { IsTrue result ↔ IsAbsolute plant.now device.0 }
{
    match plant.devices.get(usize::from(device.0)) {
        None => false,
        Some(device) => match device.mode {
            Mode::Absolute => true,
            Mode::Relative => false,
        },
    }
}

fn entry_of(base: &FramePlan, device: DevId) -> Option<Entry>
    ensures { result ≡ entry_of base.now device.0 }
{
    match base.entries.get(usize::from(device.0)) {
        None => None,
        Some(entry) => *entry,
    }
}
