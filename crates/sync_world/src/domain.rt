//! The sync domain of a plant.

ghost use Rattle.std.specs.Prelude.{◌≡◌, ◌≤◌, ◌<◌, IfOk, length, map};
ghost use Rattle.std.specs.List.{range_with_len};
ghost use Rattle.irt_route.specs.Clocks.{IsClockTreeOf, hops_in};
ghost use Rattle.link_index.specs.Index.{IsIndexOf};
ghost use Rattle.plant_rules.specs.Meets.{MeetsRules};
ghost use Rattle.sync_world.specs.Domain.{IsDomain, clock_line, delay_from, delay_of, device_of, domain_of, line_of, link_delay, walk_up};

use irt_base::limits::MAX_SEND;
use irt_base::list::Items;
use irt_base::memory::NoMemory;
use irt_base::numbers::{DevId, PortNo};
use irt_base::plants::Plant;
use irt_route::clocks::ClockTree;
use link_index::index::LinkIndex;
use std::alloc::Global;

/// How a device hears the master.
#[derive(Drop)]
pub struct ClockLine {
    /// The delay of the link to its parent, in ns, 0 at device 0.
    pub delay: u32,
    /// The devices of its walk, the device first, then its parent and so on, without device 0.
    pub walk: Items<DevId>,
}

/// A sync domain.
#[derive(Drop)]
pub struct Domain {
    pub seed: u64,
    /// Cycles between two sync messages.
    pub send: u32,
    /// By how many ns a clock drifts in a cycle.
    pub drift: u32,
    /// By how many ns a time stamp may be wrong.
    pub stamp: u32,
    /// One message in so many is lost on a link, 0 for none.
    pub loss: u32,
    /// By device.
    pub lines: Items<ClockLine>,
}

/// The domain of a plant by a seed, with so many cycles between two sync messages.
///
/// # Errors
/// `NoMemory` where memory runs out.
pub fn domain_of(
    alloc: Global,
    seed: u64,
    plant: &Plant,
    tree: &ClockTree,
    send: u32,
) -> Result<Domain, NoMemory>
    requires own { IsClockTreeOf plant.now tree.now }
    requires some_send { 1 ≤ send }
    requires send { send ≤ MAX_SEND }
    ensures value { IfOk result (λ domain. domain ≡ domain_of seed plant.now tree.now send) }
    ensures valid { IfOk result IsDomain }
{
    let index = LinkIndex::new(alloc, plant)?;
    let lines = clock_lines(alloc, plant, &index, tree)?;
    let sync = plant.sync;
    Ok(Domain {
        seed,
        send,
        drift: sync.drift,
        stamp: sync.stamp,
        loss: sync.loss,
        lines,
    })
}

fn clock_lines(
    alloc: Global,
    plant: &Plant,
    index: &LinkIndex,
    tree: &ClockTree,
) -> Result<Items<ClockLine>, NoMemory>
    requires rules { MeetsRules plant.now }
    requires index { IsIndexOf plant.now index.now }
    ensures { IfOk result (λ lines.
        lines ≡ map (clock_line plant.now tree.now) (range_with_len 0 (length plant.now.devices))) }
{
    let devices = plant.devices.len() as u8;
    let mut lines = Items::with_capacity(alloc, plant.devices.len())?;
    for device in 0..devices {
        lines.push(clock_line(alloc, plant, index, tree, DevId(device))?)?;
    }
    Ok(lines)
}

fn clock_line(
    alloc: Global,
    plant: &Plant,
    index: &LinkIndex,
    tree: &ClockTree,
    device: DevId,
) -> Result<ClockLine, NoMemory>
    requires { IsIndexOf plant.now index.now }
    ensures { IfOk result (λ line. line ≡ clock_line plant.now tree.now device.0) }
{
    let walk = walk_up(alloc, tree, device)?;
    let delay = delay_from(plant, index, tree.parent(device));
    Ok(ClockLine { delay, walk })
}

/// The delay of the link from a parent's port, in ns.
fn delay_from(plant: &Plant, index: &LinkIndex, parent: Option<(DevId, PortNo)>) -> u32
    requires { IsIndexOf plant.now index.now }
    ensures { result ≡ delay_from plant.now parent }
{
    match parent {
        None => 0,
        Some((device, port)) => link_delay(plant, index, device, port),
    }
}

fn link_delay(plant: &Plant, index: &LinkIndex, device: DevId, port: PortNo) -> u32
    requires { IsIndexOf plant.now index.now }
    ensures { result ≡ link_delay plant.now device.0 port.0 }
{
    match index.link_number(device, port) {
        None => 0,
        Some(number) => match plant.links.get(number) {
            None => 0,
            Some(link) => link.delay,
        },
    }
}

/// The devices of a device's walk.
fn walk_up(alloc: Global, tree: &ClockTree, device: DevId) -> Result<Items<DevId>, NoMemory>
    ensures { IfOk result (λ walk. walk ≡ walk_up tree.now (hops_in tree.now device.0) device) }
{
    let mut walk = Items::new(alloc);
    let mut at = device;
    let mut left = tree.hops(device);
    while left > 0 {
        walk.push(at)?;
        at = device_of(tree.parent(at));
        left -= 1;
    }
    Ok(walk)
}

fn device_of(parent: Option<(DevId, PortNo)>) -> DevId
    ensures { result ≡ device_of parent }
{
    match parent {
        None => DevId(0),
        Some((device, _)) => device,
    }
}

impl Domain {
    /// The delay of the link to a device's parent, in ns.
    pub fn delay(&self, device: DevId) -> u32
        ensures { result ≡ delay_of self.now device.0 }
    {
        match self.lines.get(usize::from(device.0)) {
            None => 0,
            Some(line) => line.delay,
        }
    }

    /// The devices of a device's walk.
    pub fn walk(&self, device: DevId) -> &[DevId]
        ensures { result.now ≡ (line_of self.now device.0).walk }
    {
        match self.lines.get(usize::from(device.0)) {
            None => &[],
            Some(line) => line.walk.as_slice(),
        }
    }
}
