//! A way from the parent's.

ghost use Rattle.std.specs.Prelude.{◌≡◌, ◌↔◌, ◌+◌, ◌*◌, ◌<◌, ◌≤◌, ◌^◌, Some, IsSome, IsTrue, length};
ghost use Rattle.irt_base.specs.Wiring.{hop_of, peer_of};
ghost use Rattle.plan_rules.specs.Way.{IsAbsolute, IsAnchor};
ghost use Rattle.irt_window.specs.Plans.{IsNet, setup_in};
ghost use Rattle.irt_window.specs.Parents.{HasParent};
ghost use Rattle.irt_window.specs.Behind.{IsBehind, HasBridge};

use crate::links::Parent;
use crate::net::Net;
use crate::ports::leaves;
use irt_base::blocks::Entry;
use irt_base::limits::MAX_DELAY;
use irt_base::numbers::{DevId, PortNo};
use irt_base::plants::Mode;
use plan_rules::way::Way;

/// The way of an entry at its provider.
pub fn own_way(device: DevId, entry: Entry) -> Way
    ensures { result ≡ record {
      parent = device;
      port = record { 0 = 0 };
      earliest = 0;
      latest = 0;
      lo = entry.send_offset;
      hi = entry.send_offset;
      anchor = device;
    } }
{
    let offset = u64::from(entry.send_offset);
    Way {
        parent: device,
        port: PortNo(0),
        earliest: 0,
        latest: 0,
        lo: offset,
        hi: offset,
        anchor: device,
    }
}

/// The way of an entry behind its parent's.
pub fn way_behind(net: &Net<'_>, device: DevId, entry: Entry, parent: Parent, from: Way) -> Way
    requires net { IsNet net.now }
    requires parent { HasParent net.now device.0 entry parent }
    requires there { device.0 < length net.now.plant.now.devices }
    requires ordered { from.lo ≤ from.hi }
    requires small { from.hi < 2 ^ 40 }
    ensures { IsBehind net.now device.0 entry parent from result }
{
    let hop = hop_from(net, parent);
    let earliest = from.lo + u64::from(hop);
    let latest = from.hi + u64::from(hop);
    if is_anchor(net, device, entry) {
        return Way {
            parent: parent.device,
            port: parent.port,
            earliest,
            latest,
            lo: u64::from(entry.send_offset),
            hi: u64::from(entry.send_offset),
            anchor: device,
        };
    }
    let (least, greatest) = bridge_of(net, device);
    Way {
        parent: parent.device,
        port: parent.port,
        earliest,
        latest,
        lo: earliest + u64::from(least),
        hi: latest + u64::from(greatest),
        anchor: from.anchor,
    }
}

/// How long a frame takes from its parent, in ns.
fn hop_from(net: &Net<'_>, parent: Parent) -> u32
    requires net { IsNet net.now }
    requires linked { IsSome (peer_of net.now.plant.now parent.device.0 parent.port.0) }
    ensures value { hop_of net.now.plant.now parent.device.0 parent.port.0 ≡ Some result }
    ensures small { result ≤ 3 * MAX_DELAY }
{
    match net.links.hop(parent.device, parent.port) {
        None => unreachable!(),
        Some(hop) => hop,
    }
}

/// The least and the greatest bridge delay of a device, in ns.
fn bridge_of(net: &Net<'_>, device: DevId) -> (u32, u32)
    requires net { IsNet net.now }
    requires there { device.0 < length net.now.plant.now.devices }
    ensures value { HasBridge net.now device.0 result.0 result.1 }
    ensures small { result.1 ≤ MAX_DELAY }
    ensures ordered { result.0 ≤ result.1 }
{
    let device = &net.plant.devices.as_slice()[usize::from(device.0)];
    (device.bmin, device.bmax)
}

/// Whether a device starts the entry's frame by its FrameSendOffset.
fn is_anchor(net: &Net<'_>, device: DevId, entry: Entry) -> bool
    requires { IsNet net.now }
    ensures { IsTrue result ↔ IsAnchor (setup_in net.now) device.0 entry }
{
    entry.rx_port == 0 || (is_absolute(net, device) && leaves(entry))
}

fn is_absolute(net: &Net<'_>, device: DevId) -> bool
    ensures { IsTrue result ↔ IsAbsolute net.now.plant.now device.0 }
{
    match net.plant.devices.get(usize::from(device.0)) {
        None => false,
        Some(device) => match device.mode {
            Mode::Absolute => true,
            Mode::Relative => false,
        },
    }
}
