//! Trees of best walks, as tables of parents.

ghost use Rattle.std.specs.Prelude.{◌≡◌, OnOk};
ghost use Rattle.link_index.specs.Index.{peer_in};
ghost use Rattle.irt_route.specs.Trees.{parent_at, GrowsBy, IsBestStep, marked, grown};
ghost use Rattle.irt_route.specs.Walks.{far_of};
ghost use Rattle.irt_route.specs.NextHops.{IsWired, AreNextHops};

use crate::next_hops::NextHops;
use crate::walks::walk_to;
use irt_base::limits::MAX_DEVICES;
use irt_base::memory::NoMemory;
use irt_base::numbers::{DevId, PortNo};
use link_index::index::LinkIndex;
use std::alloc::Global;

/// For each device the device and port from which the tree comes to it.
pub type Parents = [Option<(DevId, PortNo)>; MAX_DEVICES];

/// The parent of a device.
pub fn parent_at(parents: &Parents, device: DevId) -> Option<(DevId, PortNo)>
    ensures { result ≡ parent_at parents.now device.0 }
{
    let place = usize::from(device.0);
    if place < MAX_DEVICES {
        parents[place]
    } else {
        None
    }
}

/// Adds the steps of the best walk to the end of the ways, where there is a walk.
pub fn add_walk(
    alloc: Global,
    index: &LinkIndex,
    ways: &NextHops,
    start: DevId,
    parents: &mut Parents,
) -> Result<(), NoMemory>
    requires wired { IsWired (peer_in index.now) }
    requires ways { AreNextHops (peer_in index.now) ways.now }
    ensures { OnOk result (GrowsBy (IsBestStep (peer_in index.now) start.0 ways.now.target.0) parents.old parents.new) }
{
    let Some(walk) = walk_to(alloc, index, ways, start)? else {
        return Ok(());
    };
    grow(index, start, walk.as_slice(), parents);
    Ok(())
}

fn grow(index: &LinkIndex, start: DevId, walk: &[PortNo], parents: &mut Parents)
    requires { IsWired (peer_in index.now) }
    ensures { parents.new ≡ grown (peer_in index.now) start walk.now parents.old }
{
    let mut at = start;
    for port in walk {
        at = mark(index, at, *port, parents);
    }
}

/// One step on, after which the device there has a parent.
fn mark(index: &LinkIndex, at: DevId, port: PortNo, parents: &mut Parents) -> DevId
    requires { IsWired (peer_in index.now) }
    ensures far { result ≡ far_of at (peer_in index.now at.0 port.0) }
    ensures parents { parents.new ≡ marked at port (peer_in index.now at.0 port.0) parents.old }
{
    match index.peer(at, port) {
        None => at,
        Some((far, _)) => {
            parents[usize::from(far.0)] = Some((at, port));
            far
        }
    }
}
