//! A plant's links by device and port.

ghost use Rattle.std.specs.Prelude.{◌≡◌, ◌≤◌, ◌*◌, ◌-◌, ◌<◌, IfOk, IfSome, Some, None, [], length, replicate, slice_get, slice_set, slice_index_or};
ghost use Rattle.plant_rules.specs.Meets.{MeetsRules};
ghost use Rattle.link_index.specs.Filling.{AreEntered};
ghost use Rattle.link_index.specs.Index.{IsIndexOf, peer_in, hop_in, number_in, wire_in, wire_over, HasSmallHop};

use irt_base::limits::{MAX_DELAY, MAX_PORTS};
use irt_base::list::Items;
use irt_base::memory::NoMemory;
use irt_base::numbers::{DevId, PortNo};
use irt_base::plants::{Link, Plant};
use plant_rules::wiring::{far_end, hop_over};
use std::alloc::Global;
use std::marker::Model;

/// A row has a place for port 0, which no link uses, so that ports are places.
pub const ROW: usize = MAX_PORTS + 1;

/// The other end of a port's link, how long a hop there takes, in ns, and the number of the link in its plant.
#[derive(Clone, Copy)]
pub struct Wire {
    pub device: DevId,
    pub port: PortNo,
    pub hop: u32,
    pub number: usize,
}

/// The links of a plant by device and port. A clause sees a row for each device, with a place for each
/// port number up to the greatest; `IsIndexOf` says which plant the rows are of.
#[derive(Drop)]
pub struct LinkIndex {
    rows: Items<[Option<Wire>; ROW]>,
}

impl Model for LinkIndex {
    ghost use Rattle.std.specs.Prelude.{List, Option};
    ghost use Rattle.link_index.specs.declared.index.Wire.{Wire};

    ghost Value = { List (List (Option Wire)) };

    ghost use Rattle.link_index.specs.Index.{AreSmallRows};

    ghost view = { λ s. s.rows };

    ghost invariant = { λ s. AreSmallRows s.rows };
}

impl LinkIndex {
    /// The index of a plant. Its time is linear in devices and links.
    pub fn new(alloc: Global, plant: &Plant) -> Result<LinkIndex, NoMemory>
        requires { MeetsRules plant.now }
        ensures { IfOk result (λ index. IsIndexOf plant.now index) }
    {
        let mut rows = no_rows(alloc, plant.devices.len())?;
        let mut number = plant.links.len();
        while number > 0 {
            enter(plant, number, &mut rows);
            number -= 1;
        }
        Ok(LinkIndex { rows })
    }

    /// The device and port at the other end of a port's link. `None` comes exactly at a port without a
    /// link, and off the plant.
    pub fn peer(&self, device: DevId, port: PortNo) -> Option<(DevId, PortNo)>
        ensures { result ≡ peer_in self.now device.0 port.0 }
    {
        match self.wire(device, port) {
            None => None,
            Some(wire) => Some((wire.device, wire.port)),
        }
    }

    /// How long a frame takes from a port to the next device, in ns: the port's Tx delay, the link's delay
    /// and the other port's Rx delay. `None` comes exactly at a port without a link, and off the plant.
    pub fn hop(&self, device: DevId, port: PortNo) -> Option<u32>
        ensures value { result ≡ hop_in self.now device.0 port.0 }
        ensures small { IfSome result (λ hop. hop ≤ 3 * MAX_DELAY) }
    {
        match self.wire(device, port) {
            None => None,
            Some(wire) => Some(wire.hop),
        }
    }

    /// The number of a port's link in its plant. `None` comes exactly at a port without a link, and off the plant.
    pub fn link_number(&self, device: DevId, port: PortNo) -> Option<usize>
        ensures { result ≡ number_in self.now device.0 port.0 }
    {
        match self.wire(device, port) {
            None => None,
            Some(wire) => Some(wire.number),
        }
    }

    fn wire(&self, device: DevId, port: PortNo) -> Option<Wire>
        ensures value { result ≡ wire_in self.now device.0 port.0 }
        ensures small { HasSmallHop result }
    {
        match self.rows.get(usize::from(device.0)) {
            None => None,
            Some(row) => wire_at(row, usize::from(port.0)),
        }
    }
}

fn wire_at(row: &[Option<Wire>; ROW], port: usize) -> Option<Wire>
    ensures { result ≡ slice_index_or row.now port None }
{
    if port < ROW { row[port] } else { None }
}

/// Rows without wires.
fn no_rows(alloc: Global, devices: usize) -> Result<Items<[Option<Wire>; ROW]>, NoMemory>
    ensures { IfOk result (λ rows. rows ≡ replicate devices (replicate ROW None)) }
{
    Ok(Items::from_vec(vec![in alloc; [None; ROW]; devices]?))
}

/// Enters the link before a number, where those from the number on are entered.
fn enter(plant: &Plant, number: usize, rows: &mut Items<[Option<Wire>; ROW]>)
    requires rules { MeetsRules plant.now }
    requires some { 1 ≤ number }
    requires there { number ≤ length plant.now.links }
    requires entered { AreEntered plant.now number rows.old }
    ensures { AreEntered plant.now (number - 1) rows.new }
{
    let link = link_at(plant, number - 1);
    let far = wire_over(plant, link.b, link.b_port, number - 1, link);
    let near = wire_over(plant, link.a, link.a_port, number - 1, link);
    put(rows, link.b, link.b_port, far);
    put(rows, link.a, link.a_port, near);
}

/// The link of a number.
fn link_at(plant: &Plant, number: usize) -> Link
    requires { number < length plant.now.links }
    ensures { slice_get plant.now.links number ≡ Some result }
{
    plant.links.as_slice()[number]
}

/// Writes the wire of a port.
fn put(rows: &mut Items<[Option<Wire>; ROW]>, device: DevId, port: PortNo, wire: Wire)
    requires there { device.0 < length rows.old }
    requires placed { port.0 < ROW }
    ensures { rows.new ≡ slice_set rows.old device.0 (slice_set (slice_index_or rows.old device.0 []) port.0 (Some wire)) }
{
    let place = usize::from(device.0);
    let mut row = rows.as_slice()[place];
    row[usize::from(port.0)] = Some(wire);
    rows.set(place, row);
}

/// A port's end of a link.
fn wire_over(plant: &Plant, device: DevId, port: PortNo, number: usize, link: Link) -> Wire
    requires rules { MeetsRules plant.now }
    requires delay { link.delay ≤ MAX_DELAY }
    ensures value { result ≡ wire_over plant.now device.0 port.0 number link }
    ensures small { result.hop ≤ 3 * MAX_DELAY }
{
    let (peer, peer_port) = far_end(device, port, link);
    Wire {
        device: peer,
        port: peer_port,
        hop: hop_over(plant, device, port, link),
        number,
    }
}
