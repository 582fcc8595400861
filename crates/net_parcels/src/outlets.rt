//! The ports of a plant.

ghost use Rattle.std.specs.Prelude.{◌≡◌, ◌+◌, ◌<◌, ◌≤◌, ◌++◌, length, map, slice_get, option_and_then, Some, Contains, IfOk, OnOk};
ghost use Rattle.std.specs.List.{range_with_len};
ghost use Rattle.irt_base.specs.Wiring.{peer_of};
ghost use Rattle.irt_base.specs.declared.plants.Device.{Device};
ghost use Rattle.parcel_rules.specs.Cycle.{all_ports};
ghost use Rattle.plant_rules.specs.Meets.{MeetsRules};
ghost use Rattle.net_parcels.specs.Outlets.{AreEndsOf, ends_of, port_of};

use crate::outbox::Outbox;
use irt_base::list::Items;
use irt_base::memory::NoMemory;
use irt_base::numbers::{DevId, PortNo};
use irt_base::plants::Plant;
use net_site::site::Site;
use std::alloc::Global;

/// A port of the plant, with what it sends in a cycle.
#[derive(Drop)]
pub struct Outlet {
    pub at: (DevId, PortNo),
    /// The place, in the list of all ports, of the port at the other end of its link.
    pub far: Option<usize>,
    pub sent: Outbox,
}

/// All ports of a plant, by device and port, which have sent nothing.
///
/// # Errors
/// `NoMemory` where memory runs out.
pub fn outlets(alloc: Global, site: &Site) -> Result<Vec<Outlet>, NoMemory>
    requires { MeetsRules site.now.plant }
    ensures { IfOk result (λ outlets. AreEndsOf site.now.plant (ends_of outlets.items)) }
{
    let ports = ports(alloc, site.plant())?;
    let mut outlets = Vec::with_capacity(alloc, ports.len())?;
    for place in 0..ports.len() {
        let at = port_at(&ports, place);
        let far = far_place(site, ports.as_slice(), at);
        let sent = Outbox::new(alloc)?;
        outlets.push(Outlet { at, far, sent })?;
    }
    Ok(outlets)
}

/// The port of a place.
fn port_at(ports: &Items<(DevId, PortNo)>, place: usize) -> (DevId, PortNo)
    requires { place < length ports.now }
    ensures { slice_get ports.now place ≡ Some result }
{
    ports.as_slice()[place]
}

/// The place of the port at the other end of a port's link, in the list of all ports.
fn far_place(site: &Site, ports: &[(DevId, PortNo)], at: (DevId, PortNo)) -> Option<usize>
    requires rules { MeetsRules site.now.plant }
    requires ports { ports.now ≡ all_ports site.now.plant }
    ensures { option_and_then (slice_get ports.now) result ≡ peer_of site.now.plant at.0.0 at.1.0 }
{
    let far = site.links().peer(at.0, at.1)?;
    place_of(ports, far)
}

/// The place of a port in a list that has it.
fn place_of(ports: &[(DevId, PortNo)], port: (DevId, PortNo)) -> Option<usize>
    requires { Contains ports.now port }
    ensures { option_and_then (slice_get ports.now) result ≡ Some port }
{
    for (place, at) in ports.iter().enumerate() {
        if at.0.0 == port.0.0 && at.1.0 == port.1.0 {
            return Some(place);
        }
    }
    None
}

/// All ports of a plant, by device and port.
fn ports(alloc: Global, plant: &Plant) -> Result<Items<(DevId, PortNo)>, NoMemory>
    requires { MeetsRules plant.now }
    ensures { IfOk result (λ ports. ports ≡ all_ports plant.now) }
{
    let mut ports = Items::new(alloc);
    for device in 0..plant.devices.len() {
        push_ports(&mut ports, device as u8, port_count(plant, device))?;
    }
    Ok(ports)
}

/// How many ports a device has.
fn port_count(plant: &Plant, device: usize) -> u8
    requires rules { MeetsRules plant.now }
    requires there { device < length plant.now.devices }
    ensures { (d : Device) → slice_get plant.now.devices device ≡ Some d → result ≡ length d.ports }
{
    plant.devices.as_slice()[device].ports.len() as u8
}

/// Puts the ports of a device last.
fn push_ports(ports: &mut Items<(DevId, PortNo)>, device: u8, count: u8) -> Result<(), NoMemory>
    ensures { OnOk result (ports.new ≡ ports.old ++ map (port_of device) (range_with_len 1 count)) }
{
    for number in 0..count {
        ports.push((DevId(device), PortNo(number + 1)))?;
    }
    Ok(())
}
