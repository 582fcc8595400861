//! The sendings, anchors and arrivals of a frame, by its stops.

ghost use Rattle.std.specs.Prelude.{◌≡◌, ◌+◌, ◌^◌, ◌<◌, ℕ, length, filter_map, slice_get, Some, IfOk, OnOk, IfSome};
ghost use Rattle.plant_rules.specs.Meets.{MeetsRules};
ghost use Rattle.frame_ways.specs.declared.stops.Stop.{Stop};
ghost use Rattle.frame_ways.specs.Layout.{AreSendingsTo, IsUsableStop, HasAfter, IsSmallArrival, AreAnchorsTo, IsMostHops, IsRaised};
ghost use Rattle.frame_ways.specs.Stops.{StopsDiffer};

use crate::frame_way::Arrival;
use crate::stops::{Stop, is_starter};
use irt_base::cycles::guard;
use irt_base::list::Items;
use irt_base::memory::NoMemory;
use irt_base::numbers::PortNo;
use irt_base::plants::Plant;
use irt_window::ports::{TX_BITS, has_bit, leaves_by};
use placement::layout::{After, Anchor, Sending};
use std::alloc::Global;

/// The sendings of all stops.
pub fn sendings_of(alloc: Global, stops: &[Stop]) -> Result<Items<Sending>, NoMemory>
    requires apart { StopsDiffer stops.now }
    requires low { (n : ℕ) (s : Stop) → slice_get stops.now n ≡ Some s → s.entry.tx < 2 ^ 8 }
    ensures { IfOk result (AreSendingsTo stops.now (length stops.now) 0) }
{
    let mut sendings = Items::new(alloc);
    for at in 0..stops.len() {
        add_sendings(stops, at, &mut sendings)?;
    }
    Ok(sendings)
}

/// Adds the sendings of a stop.
fn add_sendings(stops: &[Stop], at: usize, sendings: &mut Items<Sending>) -> Result<(), NoMemory>
    requires apart { StopsDiffer stops.now }
    requires low { (n : ℕ) (s : Stop) → slice_get stops.now n ≡ Some s → s.entry.tx < 2 ^ 8 }
    requires there { at < length stops.now }
    requires sendings { AreSendingsTo stops.now at 0 sendings.old }
    ensures { OnOk result (AreSendingsTo stops.now (at + 1) 0 sendings.new) }
{
    let stop = stops[at];
    for port in 0..TX_BITS {
        if leaves_by(stop.entry, PortNo(port)) {
            sendings.push(Sending {
                anchor: stop.anchor,
                device: stop.device,
                port: PortNo(port),
                least: stop.least,
                greatest: stop.greatest,
            })?;
        }
    }
    Ok(())
}

/// The devices that start the frame by offsets of their own.
pub fn anchors_of(alloc: Global, plant: &Plant, stops: &[Stop]) -> Result<Items<Anchor>, NoMemory>
    requires rules { MeetsRules plant.now }
    requires apart { StopsDiffer stops.now }
    requires usable { (n : ℕ) (s : Stop) → slice_get stops.now n ≡ Some s → IsUsableStop plant.now stops.now n s }
    ensures { IfOk result (AreAnchorsTo plant.now stops.now (length stops.now)) }
{
    let mut anchors = Items::new(alloc);
    for stop in stops {
        if is_starter(plant, stop.device, stop.entry) {
            let after = after_of(plant, *stop);
            anchors.push(Anchor {
                device: stop.device,
                after,
            })?;
        }
    }
    Ok(anchors)
}

/// When a device may start the frame.
fn after_of(plant: &Plant, stop: Stop) -> Option<After>
    requires rules { MeetsRules plant.now }
    requires there { stop.device.0 < length plant.now.devices }
    requires small { IfSome stop.arrival IsSmallArrival }
    ensures { HasAfter plant.now stop result }
{
    match stop.arrival {
        None => None,
        Some(arrival) => {
            let device = &plant.devices.as_slice()[usize::from(stop.device.0)];
            Some(After {
                anchor: arrival.anchor,
                gap: arrival.latest + device.bmax + guard(plant.window),
            })
        }
    }
}

/// The arrivals of all stops.
pub fn arrivals_of(alloc: Global, stops: &[Stop]) -> Result<Items<Arrival>, NoMemory>
    ensures { IfOk result (λ arrivals. arrivals ≡ filter_map (λ (s : Stop). s.arrival) stops.now) }
{
    let mut arrivals = Items::new(alloc);
    for stop in stops {
        match stop.arrival {
            None => {}
            Some(arrival) => arrivals.push(arrival)?,
        }
    }
    Ok(arrivals)
}

/// The greatest number of links to a device that keeps the frame, or 0.
pub fn farthest(stops: &[Stop]) -> u32
    ensures { IsMostHops stops.now result }
{
    let mut most = 0;
    for stop in stops {
        most = raised(most, *stop);
    }
    most
}

/// The greater of a number and that of the links to a device, where it keeps the frame.
fn raised(most: u32, stop: Stop) -> u32
    ensures { IsRaised stop most result }
{
    if has_bit(stop.entry.tx, 0) && most < stop.hops {
        stop.hops
    } else {
        most
    }
}
