//! Who sends a frame to a device, and who receives it.

ghost use Rattle.std.specs.Prelude.{◌≡◌, ◌≤◌, ◌↔◌, ℕ, IsTrue};
ghost use Rattle.plan_rules.specs.Way.{Leaves};
ghost use Rattle.plan_rules.specs.Tree.{IsReceiver};
ghost use Rattle.irt_window.specs.Plans.{IsNet, setup_in};
ghost use Rattle.irt_window.specs.Parents.{IsSenderAnswer, IsParentAnswer, Receives};

use crate::net::{Net, entry_at, entry_of};
use crate::ports::{TX_BITS, has_bit, leaves_by};
use irt_base::blocks::Entry;
use irt_base::numbers::{DevId, FrameId, PortNo};

/// Who sends a frame to a device, by which port, and at which place of its block it has the frame.
#[derive(Clone, Copy)]
pub struct Parent {
    pub device: DevId,
    pub port: PortNo,
    pub place: usize,
}

/// Who sends an entry's frame to the entry's receiving port. `None` comes exactly where nobody does.
pub fn parent_of(net: &Net<'_>, device: DevId, entry: Entry) -> Option<Parent>
    requires { IsNet net.now }
    ensures { IsParentAnswer net.now device.0 entry result }
{
    if entry.rx_port == 0 {
        return None;
    }
    match net.links.peer(device, PortNo(entry.rx_port)) {
        None => None,
        Some((parent, port)) => sender(net, parent, port, entry.frame),
    }
}

/// A device as the sender of a frame by a port, where it is that.
fn sender(net: &Net<'_>, device: DevId, port: PortNo, frame: FrameId) -> Option<Parent>
    requires { IsNet net.now }
    ensures { IsSenderAnswer net.now device.0 port.0 frame.0 result }
{
    match entry_at(net, device, frame) {
        None => None,
        Some(place) => {
            if leaves_by(entry_of(net, device, place), port) {
                Some(Parent {
                    device,
                    port,
                    place,
                })
            } else {
                None
            }
        }
    }
}

/// Whether somebody receives the frame at the other end of each port by which it leaves.
pub fn all_received(net: &Net<'_>, device: DevId, entry: Entry) -> bool
    requires { IsNet net.now }
    ensures { IsTrue result ↔ ((port : ℕ) → Leaves entry port → IsReceiver (setup_in net.now) entry.frame.0 device.0 port) }
{
    let tx = entry.tx;
    for port in 1..TX_BITS {
        if has_bit(tx, port) && !is_received(net, device, PortNo(port), entry.frame) {
            return false;
        }
    }
    true
}

fn is_received(net: &Net<'_>, device: DevId, port: PortNo, frame: FrameId) -> bool
    requires { IsNet net.now }
    ensures { IsTrue result ↔ IsReceiver (setup_in net.now) frame.0 device.0 port.0 }
{
    match net.links.peer(device, port) {
        None => false,
        Some((receiver, rx_port)) => receives(net, receiver, rx_port, frame),
    }
}

/// Whether a device's entry has the frame come from this port.
fn receives(net: &Net<'_>, device: DevId, port: PortNo, frame: FrameId) -> bool
    requires { IsNet net.now }
    ensures { IsTrue result ↔ Receives (setup_in net.now) device.0 port.0 frame.0 }
{
    match entry_at(net, device, frame) {
        None => false,
        Some(place) => comes_from(entry_of(net, device, place), port),
    }
}

fn comes_from(entry: Entry, port: PortNo) -> bool
    ensures { IsTrue result ↔ ((1 ≤ entry.rx_port) × (entry.rx_port ≡ port.0)) }
{
    1 <= entry.rx_port && entry.rx_port == port.0
}
