//! Best walks, followed along the ways to their end.

ghost use Rattle.std.specs.Prelude.{◌≡◌, ◌<◌, IfOk};
ghost use Rattle.std.specs.Option.{option_map};
ghost use Rattle.link_index.specs.Index.{peer_in};
ghost use Rattle.irt_route.specs.Walks.{far_of, IsBestWalk, IsFoundWalk, IsFirstStep, HasHops};
ghost use Rattle.irt_route.specs.NextHops.{port_of, IsWired, AreNextHops};

use crate::next_hops::{NextHop, NextHops};
use irt_base::memory::NoMemory;
use irt_base::numbers::{DevId, PortNo};
use link_index::index::LinkIndex;
use smallvec::SmallVec;
use std::alloc::Global;

/// The ports by which a walk leaves its devices. Most walks are short, and stay in the value.
pub type Walk = SmallVec<PortNo, 8>;

/// The best walk from a device to the end of the ways. `None` comes exactly where no walk leads there.
pub fn walk_to(
    alloc: Global,
    index: &LinkIndex,
    ways: &NextHops,
    start: DevId,
) -> Result<Option<Walk>, NoMemory>
    requires wired { IsWired (peer_in index.now) }
    requires ways { AreNextHops (peer_in index.now) ways.now }
    ensures { IfOk result (λ walk. IsFoundWalk (peer_in index.now) start.0 ways.now.target.0 (option_map (λ w. w.items) walk)) }
{
    match ways.way_of(start) {
        None => Ok(None),
        Some(way) => Ok(Some(follow(alloc, index, ways, start, way.hops)?)),
    }
}

/// The best walk over so many links.
fn follow(
    alloc: Global,
    index: &LinkIndex,
    ways: &NextHops,
    start: DevId,
    hops: u8,
) -> Result<Walk, NoMemory>
    requires ways { AreNextHops (peer_in index.now) ways.now }
    requires hops { HasHops (peer_in index.now) start.0 ways.now.target.0 hops }
    ensures { IfOk result (λ walk. IsBestWalk (peer_in index.now) start.0 walk.items ways.now.target.0) }
{
    let mut walk = SmallVec::new(alloc);
    let mut at = start;
    for _link in 0..hops {
        let (port, next) = first_step(index, ways, at);
        walk.push(port)?;
        at = next;
    }
    Ok(walk)
}

/// The port by which the best walk leaves, and the device to which it comes.
fn first_step(index: &LinkIndex, ways: &NextHops, start: DevId) -> (PortNo, DevId)
    requires ways { AreNextHops (peer_in index.now) ways.now }
    ensures { IsFirstStep (peer_in index.now) start.0 ways.now.target.0 result }
{
    let port = port_of(ways.way_of(start));
    let next = far_of(start, index.peer(start, port));
    (port, next)
}

fn port_of(way: Option<NextHop>) -> PortNo
    ensures { result ≡ port_of way }
{
    match way {
        None => PortNo(0),
        Some(way) => way.port,
    }
}

/// The device at the other end of a port of `at`, which is `at` where the port has no link.
pub fn far_of(at: DevId, peer: Option<(DevId, PortNo)>) -> DevId
    ensures { result ≡ far_of at peer }
{
    match peer {
        None => at,
        Some((far, _)) => far,
    }
}
