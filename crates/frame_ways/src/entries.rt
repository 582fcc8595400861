//! The entries of a demand's frame.

ghost use Rattle.std.specs.Prelude.{◌≡◌, ◌↔◌, ◌<◌, ℕ, length, IfOk, IsBitSet};
ghost use Rattle.irt_base.specs.declared.plants.Demand.{Demand};
ghost use Rattle.irt_route.specs.Routes.{IsRoutesOf};
ghost use Rattle.link_index.specs.Index.{IsIndexOf, peer_in};
ghost use Rattle.fit_rules.specs.Order.{IsDemandAt, parents_of};
ghost use Rattle.frame_ways.specs.Entries.{IsBase, IsTreeEntryAt, rx_port_of, is_sent_over, IsTxBit};

use fit_rules::frame_plan::FramePlan;
use irt_base::blocks::Entry;
use irt_base::list::Items;
use irt_base::memory::NoMemory;
use irt_base::numbers::{DevId, PortNo};
use irt_base::plants::Plant;
use irt_route::laws::parents_of_trees;
use irt_route::tables::Routes;
use irt_window::demands::consumes;
use irt_window::ports::TX_BITS;
use link_index::index::LinkIndex;
use plan_rules::ways::ways_are_one;
use std::alloc::Global;

/// The entries of a demand's frame, in ratio 1, phase 1 and with offset 0.
pub fn base_plan(
    alloc: Global,
    plant: &Plant,
    index: &LinkIndex,
    routes: &Routes,
    number: u16,
) -> Result<FramePlan, NoMemory>
    requires routes { IsRoutesOf plant.now routes.now }
    requires index { IsIndexOf plant.now index.now }
    requires there { number < length plant.now.demands }
    ensures { IfOk result (λ base. (d : Demand) → IsDemandAt plant.now number d →
        IsBase plant.now (parents_of routes.now number) d base) }
{
    let frame = plant.demands.as_slice()[usize::from(number)].frame;
    let mut entries = Items::new(alloc);
    for device in 0..plant.devices.len() {
        entries.push(entry_at(plant, index, routes, number, DevId(device as u8)))?;
    }
    Ok(FramePlan { frame, entries })
}

/// The entry of a device. `None` comes exactly off the demand's tree.
fn entry_at(
    plant: &Plant,
    index: &LinkIndex,
    routes: &Routes,
    number: u16,
    device: DevId,
) -> Option<Entry>
    requires routes { IsRoutesOf plant.now routes.now }
    requires index { IsIndexOf plant.now index.now }
    requires there { number < length plant.now.demands }
    ensures { (d : Demand) → IsDemandAt plant.now number d →
        IsTreeEntryAt plant.now (parents_of routes.now number) d device.0 result }
{
    ways_are_one();
    parents_of_trees();
    let demand = &plant.demands.as_slice()[usize::from(number)];
    let Some(rx_port) = rx_port_of(index, routes, number, demand.provider, device) else {
        return None;
    };
    let kept = consumes(demand, device);
    Some(Entry {
        send_offset: 0,
        data_length: demand.length,
        ratio: 1,
        phase: 1,
        frame: demand.frame,
        rx_port,
        tx: tx_bits(index, routes, number, device, kept),
    })
}

/// The port by which the frame comes to a device, 0 at the provider. `None` comes exactly off the tree.
fn rx_port_of(
    index: &LinkIndex,
    routes: &Routes,
    number: u16,
    provider: DevId,
    device: DevId,
) -> Option<u8>
    ensures { result ≡ rx_port_of (peer_in index.now) (parents_of routes.now number) provider.0 device.0 }
{
    if device.0 == provider.0 {
        return Some(0);
    }
    match routes.parent(number, device) {
        None => None,
        Some((from, by)) => match index.peer(from, by) {
            None => None,
            Some((_, port)) => Some(port.0),
        },
    }
}

/// Bit 0 where the device keeps the frame, and the bit of each port that leads to a child in the tree.
fn tx_bits(index: &LinkIndex, routes: &Routes, number: u16, device: DevId, kept: bool) -> u8
    ensures { (bit : ℕ) → IsBitSet result bit ↔
        IsTxBit (peer_in index.now) (parents_of routes.now number) device.0 kept bit }
{
    let mut bits = u8::from(kept);
    for port in 1..TX_BITS {
        if is_sent_over(index, routes, number, device, PortNo(port)) {
            bits |= 1 << port;
        }
    }
    bits
}

/// Whether the tree leaves the device by the port.
fn is_sent_over(
    index: &LinkIndex,
    routes: &Routes,
    number: u16,
    device: DevId,
    port: PortNo,
) -> bool
    ensures { result ≡ is_sent_over (peer_in index.now) (parents_of routes.now number) device.0 port.0 }
{
    match index.peer(device, port) {
        None => false,
        Some((far, _)) => match routes.parent(number, far) {
            None => false,
            Some((from, by)) => from.0 == device.0 && by.0 == port.0,
        },
    }
}
