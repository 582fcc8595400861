//! The first ports of best walks, round by round from the device where the walks end.

ghost use Rattle.std.specs.Prelude.{◌≡◌, ◌<◌, ℕ, None, length, slice_index_or};
ghost use Rattle.link_index.specs.Index.{peer_in};
ghost use Rattle.irt_route.specs.NextHops.{IsWired, AreNextHops, AreNextHopsWithin, leads, IsFirstPort, IsNext, AreNext, unreached, first_table};

use irt_base::limits::MAX_DEVICES;
use irt_base::numbers::{DevId, PortNo};
use link_index::index::{LinkIndex, ROW};

/// How a best walk begins: how many links it has, and by which port it leaves. At its end it has no
/// link, and the port says nothing.
#[derive(Clone, Copy)]
pub struct NextHop {
    pub hops: u8,
    pub port: PortNo,
}

/// The ways of all devices to one.
#[derive(Clone, Copy)]
pub struct NextHops {
    pub target: DevId,
    pub table: [Option<NextHop>; MAX_DEVICES],
}

impl NextHops {
    /// The way of a device, where a walk leads from it to the target.
    pub fn way_of(&self, device: DevId) -> Option<NextHop>
        ensures { result ≡ slice_index_or self.now.table device.0 None }
    {
        way_at(&self.table, device)
    }
}

fn way_at(table: &[Option<NextHop>; MAX_DEVICES], device: DevId) -> Option<NextHop>
    ensures { result ≡ slice_index_or table.now device.0 None }
{
    let place = usize::from(device.0);
    if place < MAX_DEVICES {
        table[place]
    } else {
        None
    }
}

/// The ways of all devices to one.
pub fn next_hops_to(index: &LinkIndex, target: DevId) -> NextHops
    requires wired { IsWired (peer_in index.now) }
    requires there { target.0 < MAX_DEVICES }
    ensures target { result.target ≡ target }
    ensures ways { AreNextHops (peer_in index.now) result }
{
    let mut table = first_table(target);
    for rounds in 0..MAX_DEVICES as u8 {
        let next = spread(index, rounds, &table);
        if unreached(&next) == unreached(&table) {
            return NextHops { target, table };
        }
        table = next;
    }
    NextHops { target, table }
}

/// The target's way alone.
fn first_table(target: DevId) -> [Option<NextHop>; MAX_DEVICES]
    requires { target.0 < MAX_DEVICES }
    ensures { result ≡ first_table target.0 }
{
    let mut table = [None; MAX_DEVICES];
    table[usize::from(target.0)] = Some(NextHop {
        hops: 0,
        port: PortNo(0),
    });
    table
}

fn unreached(table: &[Option<NextHop>; MAX_DEVICES]) -> usize
    ensures { result ≡ unreached table.now }
{
    table.iter().filter(|way| way.is_none()).count()
}

/// The ways after one more round.
fn spread(
    index: &LinkIndex,
    rounds: u8,
    table: &[Option<NextHop>; MAX_DEVICES],
) -> [Option<NextHop>; MAX_DEVICES]
    requires { rounds < MAX_DEVICES }
    ensures length { length result ≡ MAX_DEVICES }
    ensures next { AreNext (peer_in index.now) rounds table.now result }
{
    let mut next = [None; MAX_DEVICES];
    for device in 0..MAX_DEVICES {
        next[device] = next_way(index, rounds, table, device);
    }
    next
}

fn next_way(
    index: &LinkIndex,
    rounds: u8,
    table: &[Option<NextHop>; MAX_DEVICES],
    device: usize,
) -> Option<NextHop>
    requires few { rounds < MAX_DEVICES }
    requires there { device < MAX_DEVICES }
    ensures { IsNext (peer_in index.now) table.now rounds device (slice_index_or table.now device None) result }
{
    match table[device] {
        Some(way) => Some(way),
        None => match first_port(index, table, DevId(device as u8)) {
            None => None,
            Some(port) => Some(NextHop {
                hops: rounds + 1,
                port,
            }),
        },
    }
}

fn first_port(
    index: &LinkIndex,
    table: &[Option<NextHop>; MAX_DEVICES],
    device: DevId,
) -> Option<PortNo>
    ensures { IsFirstPort (leads (peer_in index.now) table.now device.0) result }
{
    for port in 0..ROW as u8 {
        if leads(index, table, device, PortNo(port)) {
            return Some(PortNo(port));
        }
    }
    None
}

fn leads(
    index: &LinkIndex,
    table: &[Option<NextHop>; MAX_DEVICES],
    device: DevId,
    port: PortNo,
) -> bool
    ensures { result ≡ leads (peer_in index.now) table.now device.0 port.0 }
{
    match index.peer(device, port) {
        None => false,
        Some((far, _)) => way_at(table, far).is_some(),
    }
}
