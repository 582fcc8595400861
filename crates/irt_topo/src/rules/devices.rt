//! The rules of devices.

ghost use Rattle.std.specs.Prelude.{◌≡◌, ◌&&◌, length, take};
ghost use Rattle.std.specs.List.{list_any, list_all};
ghost use Rattle.plant_rules.specs.Words.{is_within, same_name};
ghost use Rattle.irt_topo.specs.Rules.{is_name_byte, is_name, is_port_delay, device_name_holds, device_ports_hold, bridge_holds, passes_at};

use irt_base::blocks::PortDelay;
use irt_base::limits::{MAX_DELAY, MAX_NAME, MAX_PORTS};
use irt_base::plants::{Device, Plant};

/// P6: the name has 1..32 of the characters a-z, 0-9 and `-`, and no earlier device has it.
pub fn device_name_holds(plant: &Plant, index: usize) -> bool
    ensures { result ≡ passes_at device_name_holds plant.now.devices index }
{
    match plant.devices.get(index) {
        None => true,
        Some(device) => {
            is_name(device.name.as_slice()) && !is_taken(plant.devices.as_slice(), index, device)
        }
    }
}

fn is_taken(devices: &[Device], index: usize, device: &Device) -> bool
    ensures { result ≡ list_any (λ e. same_name e device.now) (take index devices.now) }
{
    devices.iter().take(index).any(|earlier| earlier.name.as_slice() == device.name.as_slice())
}

fn is_name(name: &[u8]) -> bool
    ensures { result ≡ is_name name.now }
{
    is_name_length(name.len()) && are_name_bytes(name)
}

fn are_name_bytes(name: &[u8]) -> bool
    ensures { result ≡ list_all is_name_byte name.now }
{
    name.iter().all(|b| is_name_byte(*b))
}

fn is_name_length(length: usize) -> bool
    ensures { result ≡ is_within 1 MAX_NAME length }
{
    1 <= length && length <= MAX_NAME
}

fn is_name_byte(b: u8) -> bool
    ensures { result ≡ is_name_byte b }
{
    (97 <= b && b <= 122) || (48 <= b && b <= 57) || b == 45
}

/// P7: there are 1..7 ports, with delays of 0..100000 ns.
pub fn device_ports_hold(plant: &Plant, index: usize) -> bool
    ensures { result ≡ passes_at device_ports_hold plant.now.devices index }
{
    match plant.devices.get(index) {
        None => true,
        Some(device) => are_ports(device.ports.as_slice()),
    }
}

fn are_ports(ports: &[PortDelay]) -> bool
    ensures { result ≡ (is_within 1 MAX_PORTS (length ports.now) && list_all is_port_delay ports.now) }
{
    is_port_count(ports.len()) && are_port_delays(ports)
}

fn are_port_delays(ports: &[PortDelay]) -> bool
    ensures { result ≡ list_all is_port_delay ports.now }
{
    ports.iter().all(|port| is_port_delay(*port))
}

fn is_port_count(count: usize) -> bool
    ensures { result ≡ is_within 1 MAX_PORTS count }
{
    1 <= count && count <= MAX_PORTS
}

fn is_port_delay(port: PortDelay) -> bool
    ensures { result ≡ is_port_delay port }
{
    port.tx <= MAX_DELAY && port.rx <= MAX_DELAY
}

/// P8: the least bridge delay is at most the greatest, and that is at most 100000 ns.
pub fn bridge_holds(plant: &Plant, index: usize) -> bool
    ensures { result ≡ passes_at bridge_holds plant.now.devices index }
{
    match plant.devices.get(index) {
        None => true,
        Some(device) => device.bmin <= device.bmax && device.bmax <= MAX_DELAY,
    }
}
