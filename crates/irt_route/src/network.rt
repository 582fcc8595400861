//! A plant's links, and the ways of all devices to each.

ghost use Rattle.std.specs.Prelude.{◌≡◌, ◌≤◌, ◌<◌, IfOk, OnOk, length};
ghost use Rattle.std.specs.Option.{option_map};
ghost use Rattle.link_index.specs.Index.{peer_in};
ghost use Rattle.irt_route.specs.Routes.{IsNetwork};
ghost use Rattle.irt_route.specs.Trees.{GrowsBy, IsBestStep};
ghost use Rattle.irt_route.specs.Walks.{IsFoundWalk};
ghost use Rattle.irt_route.specs.NextHops.{IsWired, IsNextHop, AreNextHops};

use crate::next_hops::{NextHop, NextHops, next_hops_to};
use crate::trees::{Parents, add_walk};
use crate::walks::{Walk, walk_to};
use irt_base::limits::MAX_DEVICES;
use irt_base::list::Items;
use irt_base::memory::NoMemory;
use irt_base::numbers::DevId;
use link_index::index::LinkIndex;
use std::alloc::Global;

/// A plant's links, and the ways of all devices to each.
#[derive(Drop)]
pub struct Network {
    pub index: LinkIndex,
    pub ways: Items<NextHops>,
}

/// The network of the first so many devices of an index.
pub fn network_of(alloc: Global, index: LinkIndex, devices: usize) -> Result<Network, NoMemory>
    requires wired { IsWired (peer_in index) }
    requires count { devices ≤ MAX_DEVICES }
    ensures index { IfOk result (λ n. n.index ≡ index) }
    ensures count { IfOk result (λ n. length n.ways ≡ devices) }
    ensures ways { IfOk result (λ n. IsNetwork n.index n.ways) }
{
    let mut ways = Items::new(alloc);
    for device in 0..devices {
        ways.push(next_hops_to(&index, DevId(device as u8)))?;
    }
    Ok(Network { index, ways })
}

impl Network {
    /// The way of a device to a target.
    pub fn way(&self, start: DevId, target: DevId) -> Option<NextHop>
        requires network { IsNetwork self.now.index self.now.ways }
        requires there { target.0 < length self.now.ways }
        ensures { IsNextHop (peer_in self.now.index) target.0 start.0 result }
    {
        self.ways.as_slice()[usize::from(target.0)].way_of(start)
    }

    /// The best walk to a target. `None` comes exactly where no walk leads there.
    pub fn walk(&self, alloc: Global, start: DevId, target: DevId) -> Result<Option<Walk>, NoMemory>
        requires network { IsNetwork self.now.index self.now.ways }
        requires there { target.0 < length self.now.ways }
        ensures { IfOk result (λ walk. IsFoundWalk (peer_in self.now.index) start.0 target.0 (option_map (λ w. w.items) walk)) }
    {
        let ways = &self.ways.as_slice()[usize::from(target.0)];
        walk_to(alloc, &self.index, ways, start)
    }

    /// Adds the steps of the best walk to a target, where there is a walk.
    pub fn add_walk(
        &self,
        alloc: Global,
        start: DevId,
        target: DevId,
        parents: &mut Parents,
    ) -> Result<(), NoMemory>
        requires network { IsNetwork self.now.index self.now.ways }
        requires there { target.0 < length self.now.ways }
        ensures { OnOk result (GrowsBy (IsBestStep (peer_in self.now.index) start.0 target.0) parents.old parents.new) }
    {
        let ways = &self.ways.as_slice()[usize::from(target.0)];
        add_walk(alloc, &self.index, ways, start, parents)
    }
}
