//! Links between ports.

ghost use Rattle.std.specs.Prelude.{◌≡◌, ◌≤◌, ◌*◌, Some, IsSome};
ghost use Rattle.irt_base.specs.Wiring.{touches, begins_at, ends_at, far_end, tx_delay, rx_delay, link_at, peer_of, hop_over, hop_of};
ghost use Rattle.plant_rules.specs.Meets.{MeetsRules};

use irt_base::limits::MAX_DELAY;
use irt_base::numbers::{DevId, PortNo};
use irt_base::plants::{Link, Plant};

/// The device and port at the other end of a port's link. `None` comes exactly at a port without a link.
pub fn peer(plant: &Plant, device: DevId, port: PortNo) -> Option<(DevId, PortNo)>
    ensures { result ≡ peer_of plant.now device.0 port.0 }
{
    match link_at(plant, device, port) {
        None => None,
        Some(link) => Some(far_end(device, port, link)),
    }
}

fn link_at(plant: &Plant, device: DevId, port: PortNo) -> Option<Link>
    ensures { result ≡ link_at plant.now device.0 port.0 }
{
    for link in plant.links.as_slice() {
        if touches(device, port, *link) {
            return Some(*link);
        }
    }
    None
}

fn begins_at(device: DevId, port: PortNo, link: Link) -> bool
    ensures { result ≡ begins_at device.0 port.0 link }
{
    link.a.0 == device.0 && link.a_port.0 == port.0
}

fn ends_at(device: DevId, port: PortNo, link: Link) -> bool
    ensures { result ≡ ends_at device.0 port.0 link }
{
    link.b.0 == device.0 && link.b_port.0 == port.0
}

fn touches(device: DevId, port: PortNo, link: Link) -> bool
    ensures { result ≡ touches device.0 port.0 link }
{
    begins_at(device, port, link) || ends_at(device, port, link)
}

/// The device and port at the end of a link other than this one.
pub fn far_end(device: DevId, port: PortNo, link: Link) -> (DevId, PortNo)
    ensures { result ≡ far_end device.0 port.0 link }
{
    if begins_at(device, port, link) {
        (link.b, link.b_port)
    } else {
        (link.a, link.a_port)
    }
}

/// How long a frame takes from a linked port to the next device, in ns: the port's Tx delay, the link's
/// delay and the other port's Rx delay.
pub fn hop_delay(plant: &Plant, device: DevId, port: PortNo) -> u32
    requires rules { MeetsRules plant.now }
    requires linked { IsSome (link_at plant.now device.0 port.0) }
    ensures value { hop_of plant.now device.0 port.0 ≡ Some result }
    ensures small { result ≤ 3 * MAX_DELAY }
{
    match link_at(plant, device, port) {
        None => unreachable!(),
        Some(link) => hop_over(plant, device, port, link),
    }
}

/// How long a frame takes from a port over its link, in ns.
pub fn hop_over(plant: &Plant, device: DevId, port: PortNo, link: Link) -> u32
    requires rules { MeetsRules plant.now }
    requires delay { link.delay ≤ MAX_DELAY }
    ensures value { result ≡ hop_over plant.now device.0 port.0 link }
    ensures small { result ≤ 3 * MAX_DELAY }
{
    let (peer, peer_port) = far_end(device, port, link);
    let tx = small_tx_delay(plant, device, port);
    let rx = small_rx_delay(plant, peer, peer_port);
    tx + link.delay + rx
}

fn small_tx_delay(plant: &Plant, device: DevId, port: PortNo) -> u32
    requires { MeetsRules plant.now }
    ensures value { result ≡ tx_delay plant.now device.0 port.0 }
    ensures small { result ≤ MAX_DELAY }
{
    tx_delay(plant, device, port)
}

fn small_rx_delay(plant: &Plant, device: DevId, port: PortNo) -> u32
    requires { MeetsRules plant.now }
    ensures value { result ≡ rx_delay plant.now device.0 port.0 }
    ensures small { result ≤ MAX_DELAY }
{
    rx_delay(plant, device, port)
}

/// The Tx delay of a port, 0 where it is not there, in ns.
pub fn tx_delay(plant: &Plant, device: DevId, port: PortNo) -> u32
    ensures { result ≡ tx_delay plant.now device.0 port.0 }
{
    match plant.devices.get(usize::from(device.0)) {
        None => 0,
        Some(found) => match found.ports.get(usize::from(port.0).saturating_sub(1)) {
            None => 0,
            Some(delays) => delays.tx,
        },
    }
}

/// The Rx delay of a port, 0 where it is not there, in ns.
pub fn rx_delay(plant: &Plant, device: DevId, port: PortNo) -> u32
    ensures { result ≡ rx_delay plant.now device.0 port.0 }
{
    match plant.devices.get(usize::from(device.0)) {
        None => 0,
        Some(found) => match found.ports.get(usize::from(port.0).saturating_sub(1)) {
            None => 0,
            Some(delays) => delays.rx,
        },
    }
}
