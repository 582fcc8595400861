//! The tree by which clocks follow device 0.

ghost use Rattle.std.specs.Prelude.{◌≡◌, ◌≤◌, ◌<◌, slice_index, IfOk, IfErr};
ghost use Rattle.plant_rules.specs.Meets.{MeetsRules};
ghost use Rattle.link_index.specs.Index.{peer_in, IsIndexOf};
ghost use Rattle.irt_route.specs.Clocks.{IsClockTreeOf, IsClockFault, IsGrownTree, IsGrownFault, clock_parent, hops_in, clock_budget};
ghost use Rattle.irt_route.specs.NextHops.{IsWired};

use crate::fault::ClockFault;
use crate::next_hops::next_hops_to;
use crate::trees::{Parents, add_walk, parent_at};
use irt_base::cycles::budget_over;
use irt_base::limits::{MAX_DEVICES, MAX_SEND, MAX_TIMEOUT};
use irt_base::numbers::{DevId, PortNo};
use irt_base::plants::Plant;
use link_index::index::LinkIndex;
use std::alloc::Global;
use std::marker::Model;

/// The best walks from device 0 to every device, as a tree.
#[derive(Drop)]
pub struct ClockTree {
    parents: Parents,
    hops: [u8; MAX_DEVICES],
}

impl Model for ClockTree {
    ghost use Rattle.irt_route.specs.Clocks.{ClockTable};

    ghost Value = { ClockTable };

    ghost view = { λ s. record { parents = s.parents; hops = s.hops } };
}

impl ClockTree {
    /// The device and port from which the clock comes to a device. `None` comes exactly at device 0, and
    /// past the plant's devices.
    pub fn parent(&self, device: DevId) -> Option<(DevId, PortNo)>
        ensures { result ≡ clock_parent self.now device.0 }
    {
        parent_at(&self.parents, device)
    }

    /// The number of links of the device's walk.
    pub fn hops(&self, device: DevId) -> u32
        ensures { result ≡ hops_in self.now device.0 }
    {
        u32::from(hops_at(&self.hops, device))
    }
}

fn hops_at(hops: &[u8; MAX_DEVICES], device: DevId) -> u8
    ensures { result ≡ slice_index hops.now device.0 }
{
    let place = usize::from(device.0);
    if place < MAX_DEVICES { hops[place] } else { 0 }
}

/// The clock tree of a plant. `NoClock` names the least device to which no walk leads from device 0.
pub fn clock_tree(alloc: Global, plant: &Plant) -> Result<ClockTree, ClockFault>
    requires { MeetsRules plant.now }
    ensures tree { IfOk result (λ tree. IsClockTreeOf plant.now tree) }
    ensures fault { IfErr result (IsClockFault plant.now) }
{
    let index = LinkIndex::new(alloc, plant)?;
    clock_tree_by(alloc, &index, plant)
}

/// The same, by the index of the plant's links.
pub fn clock_tree_by(
    alloc: Global,
    index: &LinkIndex,
    plant: &Plant,
) -> Result<ClockTree, ClockFault>
    requires rules { MeetsRules plant.now }
    requires index { IsIndexOf plant.now index.now }
    ensures tree { IfOk result (λ tree. IsClockTreeOf plant.now tree) }
    ensures fault { IfErr result (IsClockFault plant.now) }
{
    grown_tree(alloc, index, plant.devices.len() as u8)
}

fn grown_tree(alloc: Global, index: &LinkIndex, devices: u8) -> Result<ClockTree, ClockFault>
    requires wired { IsWired (peer_in index.now) }
    requires count { devices ≤ MAX_DEVICES }
    ensures tree { IfOk result (IsGrownTree (peer_in index.now) devices) }
    ensures fault { IfErr result (IsGrownFault (peer_in index.now) devices) }
{
    let mut parents = [None; MAX_DEVICES];
    let mut hops = [0; MAX_DEVICES];
    for device in 0..devices {
        let ways = next_hops_to(index, DevId(device));
        let Some(way) = ways.way_of(DevId(0)) else {
            return Err(ClockFault::NoClock {
                device: DevId(device),
            });
        };
        hops[usize::from(device)] = way.hops;
        add_walk(alloc, index, &ways, DevId(0), &mut parents)?;
    }
    Ok(ClockTree { parents, hops })
}

/// By how much a device's clock may be off, in ns, with so many cycles between two sync messages, of
/// which so many may be lost.
pub fn budget(tree: &ClockTree, plant: &Plant, device: DevId, send: u32, timeout: u16) -> u64
    requires own { IsClockTreeOf plant.now tree.now }
    requires sends { send ≤ MAX_SEND }
    requires timeouts { timeout ≤ MAX_TIMEOUT }
    ensures { result ≡ clock_budget tree.now plant.now.sync device.0 send timeout }
{
    if device.0 == 0 {
        return 0;
    }
    let hops = hops_at(&tree.hops, device);
    budget_over(
        u32::from(hops),
        plant.sync.stamp,
        plant.sync.drift,
        send,
        timeout,
    )
}
