//! The plant that a plant file states.

ghost use Rattle.std.specs.Prelude.{◌≡◌, IfOk, bytes_eq, map};
ghost use Rattle.std.specs.List.{position_from};
ghost use Rattle.irt_topo.specs.Stated.{in_byte, in_two_bytes, device_number, stated_device_id, stated_port_no, stated_port, stated_sync, stated_device, stated_link, stated_demand, stated_traffic, stated_app, stated_wired, stated_plant};

use irt_base::blocks::PortDelay;
use irt_base::list::Items;
use irt_base::memory::NoMemory;
use irt_base::numbers::{DevId, FrameId, PortNo};
use irt_base::plants::{App, Demand, Device, Link, Plant, SyncPlan, Traffic};
use plant_shape::raw::{RawApp, RawDemand, RawDevice, RawLink, RawPlant, RawSync, RawTraffic};
use std::alloc::Global;

/// The plant that a plant file states. A number that its field does not hold, a name that no device
/// has, and an entry of `ports` that is no pair become the greatest number of the field, which breaks
/// the rule of that field.
pub fn stated_plant(alloc: Global, raw: RawPlant) -> Result<Plant, NoMemory>
    ensures { IfOk result (λ p. p ≡ stated_plant raw) }
{
    stated_whole(alloc, &raw)
}

/// The plant that a plant file states, whose shape is kept.
fn stated_whole(alloc: Global, raw: &RawPlant) -> Result<Plant, NoMemory>
    ensures { IfOk result (λ p. p ≡ stated_plant raw.now) }
{
    let known = raw.devices.as_slice();
    let links = stated_links(alloc, known, raw.links.as_slice())?;
    let demands = stated_demands(alloc, known, raw.demands.as_slice())?;
    stated_wired(alloc, raw, links, demands)
}

/// The plant of these links and demands, and of what else a plant file states.
fn stated_wired(
    alloc: Global,
    raw: &RawPlant,
    links: Items<Link>,
    demands: Items<Demand>,
) -> Result<Plant, NoMemory>
    ensures { IfOk result (λ p. p ≡ stated_wired raw.now links demands) }
{
    let known = raw.devices.as_slice();
    let traffic = stated_traffics(alloc, known, raw.traffic.as_slice())?;
    let apps = stated_apps(alloc, known, raw.apps.as_slice())?;
    let devices = stated_devices(alloc, known)?;
    Ok(Plant {
        factor: in_byte(raw.factor),
        window: raw.window,
        red_max: raw.red_max,
        orange: raw.orange,
        clocks: raw.clocks,
        sync: stated_sync(raw.sync),
        devices,
        links,
        demands,
        traffic,
        apps,
    })
}

fn in_byte(n: u32) -> u8
    ensures { result ≡ in_byte n }
{
    n.min(255) as u8
}

fn in_two_bytes(n: u32) -> u16
    ensures { result ≡ in_two_bytes n }
{
    n.min(65535) as u16
}

/// The first device of a name, or 255 where there is none below.
fn device_number(devices: &[RawDevice], name: &[u8]) -> DevId
    ensures { result ≡ stated_device_id devices.now name.now }
{
    DevId(place_of(devices, name).unwrap_or(255).min(255) as u8)
}

/// The place of the first device of a name.
fn place_of(devices: &[RawDevice], name: &[u8]) -> Option<usize>
    ensures { result ≡ position_from (λ (d : RawDevice). bytes_eq d.name name.now) 0 devices.now }
{
    for (place, device) in devices.iter().enumerate() {
        if device.name.as_slice() == name {
            return Some(place);
        }
    }
    None
}

fn stated_port(entry: &Items<u32>) -> PortDelay
    ensures { result ≡ stated_port entry.now }
{
    match entry.as_slice() {
        [tx, rx] => PortDelay { tx: *tx, rx: *rx },
        _ => PortDelay {
            tx: u32::MAX,
            rx: u32::MAX,
        },
    }
}

fn stated_ports(alloc: Global, entries: &[Items<u32>]) -> Result<Items<PortDelay>, NoMemory>
    ensures { IfOk result (λ ports. ports ≡ map stated_port entries.now) }
{
    let mut ports = Items::new(alloc);
    for entry in entries {
        ports.push(stated_port(entry))?;
    }
    Ok(ports)
}

fn copy_name(alloc: Global, name: &Items<u8>) -> Result<Items<u8>, NoMemory>
    ensures { IfOk result (λ copy. copy ≡ name.now) }
{
    name.try_copy(alloc)
}

fn stated_sync(raw: RawSync) -> SyncPlan
    ensures { result ≡ stated_sync raw }
{
    SyncPlan {
        send: raw.send,
        timeout: in_two_bytes(raw.timeout),
        drift: raw.drift,
        stamp: raw.stamp,
        loss: raw.loss,
    }
}

fn stated_device(alloc: Global, raw: &RawDevice) -> Result<Device, NoMemory>
    ensures { IfOk result (λ d. d ≡ stated_device raw.now) }
{
    Ok(Device {
        name: copy_name(alloc, &raw.name)?,
        mode: raw.mode,
        bmin: raw.bmin,
        bmax: raw.bmax,
        ports: stated_ports(alloc, raw.ports.as_slice())?,
    })
}

fn stated_devices(alloc: Global, raws: &[RawDevice]) -> Result<Items<Device>, NoMemory>
    ensures { IfOk result (λ ds. ds ≡ map stated_device raws.now) }
{
    let mut devices = Items::new(alloc);
    for raw in raws {
        devices.push(stated_device(alloc, raw)?)?;
    }
    Ok(devices)
}

fn stated_link(devices: &[RawDevice], raw: &RawLink) -> Link
    ensures { result ≡ stated_link devices.now raw.now }
{
    Link {
        a: device_number(devices, raw.from.as_slice()),
        a_port: PortNo(in_byte(raw.from_port)),
        b: device_number(devices, raw.to.as_slice()),
        b_port: PortNo(in_byte(raw.to_port)),
        delay: raw.delay,
    }
}

fn stated_links(
    alloc: Global,
    devices: &[RawDevice],
    raws: &[RawLink],
) -> Result<Items<Link>, NoMemory>
    ensures { IfOk result (λ ls. ls ≡ map (stated_link devices.now) raws.now) }
{
    let mut links = Items::new(alloc);
    for raw in raws {
        links.push(stated_link(devices, raw))?;
    }
    Ok(links)
}

fn stated_consumers(
    alloc: Global,
    devices: &[RawDevice],
    names: &[Items<u8>],
) -> Result<Items<DevId>, NoMemory>
    ensures { IfOk result (λ cs. cs ≡ map (stated_device_id devices.now) names.now) }
{
    let mut consumers = Items::new(alloc);
    for name in names {
        consumers.push(device_number(devices, name.as_slice()))?;
    }
    Ok(consumers)
}

fn stated_demand(alloc: Global, devices: &[RawDevice], raw: &RawDemand) -> Result<Demand, NoMemory>
    ensures { IfOk result (λ d. d ≡ stated_demand devices.now raw.now) }
{
    Ok(Demand {
        frame: FrameId(in_two_bytes(raw.frame)),
        provider: device_number(devices, raw.from.as_slice()),
        consumers: stated_consumers(alloc, devices, raw.to.as_slice())?,
        length: in_two_bytes(raw.length),
        update: raw.update,
    })
}

fn stated_demands(
    alloc: Global,
    devices: &[RawDevice],
    raws: &[RawDemand],
) -> Result<Items<Demand>, NoMemory>
    ensures { IfOk result (λ ds. ds ≡ map (stated_demand devices.now) raws.now) }
{
    let mut demands = Items::new(alloc);
    for raw in raws {
        demands.push(stated_demand(alloc, devices, raw)?)?;
    }
    Ok(demands)
}

fn stated_traffic(devices: &[RawDevice], raw: &RawTraffic) -> Traffic
    ensures { result ≡ stated_traffic devices.now raw.now }
{
    Traffic {
        source: device_number(devices, raw.from.as_slice()),
        target: device_number(devices, raw.to.as_slice()),
        class: raw.class,
        length: in_two_bytes(raw.length),
        every: raw.every,
        count: in_byte(raw.count),
    }
}

fn stated_traffics(
    alloc: Global,
    devices: &[RawDevice],
    raws: &[RawTraffic],
) -> Result<Items<Traffic>, NoMemory>
    ensures { IfOk result (λ ts. ts ≡ map (stated_traffic devices.now) raws.now) }
{
    let mut traffic = Items::new(alloc);
    for raw in raws {
        traffic.push(stated_traffic(devices, raw))?;
    }
    Ok(traffic)
}

fn stated_app(devices: &[RawDevice], raw: &RawApp) -> App
    ensures { result ≡ stated_app devices.now raw.now }
{
    App {
        device: device_number(devices, raw.device.as_slice()),
        kind: raw.kind,
        param: raw.param,
    }
}

fn stated_apps(
    alloc: Global,
    devices: &[RawDevice],
    raws: &[RawApp],
) -> Result<Items<App>, NoMemory>
    ensures { IfOk result (λ rows. rows ≡ map (stated_app devices.now) raws.now) }
{
    let mut apps = Items::new(alloc);
    for raw in raws {
        apps.push(stated_app(devices, raw))?;
    }
    Ok(apps)
}
