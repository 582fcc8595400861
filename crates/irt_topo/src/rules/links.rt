//! The rules of links, and of times in a cycle.

ghost use Rattle.std.specs.Prelude.{◌≡◌, ◌+◌, ◌<◌, ◌^◌, [], take};
ghost use Rattle.std.specs.List.{list_any};
ghost use Rattle.irt_base.specs.Wiring.{tx_delay, rx_delay};
ghost use Rattle.plant_rules.specs.Words.{has_port, same_port, share_port, hop_there, hop_back};
ghost use Rattle.irt_topo.specs.Rules.{fits_cycle, link_ends_hold, link_delay_holds, passes_at};

use irt_base::limits::{FACTOR_TIME, GUARD_WINDOWS, MAX_DELAY};
use irt_base::numbers::{DevId, PortNo};
use irt_base::plants::{Link, Plant};
use plant_rules::wiring::{rx_delay, tx_delay};

/// Whether a time, in ns, and the guard after it fit into a cycle.
pub fn fits_cycle(plant: &Plant, time: u64) -> bool
    requires { time < 2 ^ 40 }
    ensures { result ≡ fits_cycle plant.now time }
{
    let window: u32 = plant.window;
    let factor: u8 = plant.factor;
    time + u64::from(GUARD_WINDOWS) * u64::from(window)
        <= u64::from(factor) * u64::from(FACTOR_TIME)
}

/// P9: both ends are devices, and different ones, their ports are there, and no earlier link uses them.
pub fn link_ends_hold(plant: &Plant, index: usize) -> bool
    ensures { result ≡ passes_at (link_ends_hold plant.now) plant.now.links index }
{
    match plant.links.get(index) {
        None => true,
        Some(link) => {
            has_port(plant, link.a, link.a_port)
                && has_port(plant, link.b, link.b_port)
                && !(link.a.0 == link.b.0)
                && !is_used(plant.links.as_slice(), index, *link)
        }
    }
}

/// Whether the device is there and has a port of this number.
fn has_port(plant: &Plant, device: DevId, port: PortNo) -> bool
    ensures { result ≡ has_port plant.now device.0 port.0 }
{
    match plant.devices.get(usize::from(device.0)) {
        None => false,
        Some(found) => 1 <= port.0 && usize::from(port.0) <= found.ports.len(),
    }
}

fn is_used(links: &[Link], index: usize, link: Link) -> bool
    ensures { result ≡ list_any (λ e. share_port e link) (take index links.now) }
{
    links
        .iter()
        .take(index)
        .any(|earlier| share_port(*earlier, link))
}

fn share_port(l: Link, m: Link) -> bool
    ensures { result ≡ share_port l m }
{
    same_port(l.a, l.a_port, m.a, m.a_port)
        || same_port(l.a, l.a_port, m.b, m.b_port)
        || same_port(l.b, l.b_port, m.a, m.a_port)
        || same_port(l.b, l.b_port, m.b, m.b_port)
}

fn same_port(d: DevId, p: PortNo, e: DevId, q: PortNo) -> bool
    ensures { result ≡ same_port d p e q }
{
    d.0 == e.0 && p.0 == q.0
}

/// P10: the delay is at most 100000 ns, and both ways the red period, a hop and the guard fit into a
/// cycle.
pub fn link_delay_holds(plant: &Plant, index: usize) -> bool
    ensures { result ≡ passes_at (link_delay_holds plant.now) plant.now.links index }
{
    match plant.links.get(index) {
        None => true,
        Some(link) => delay_fits(plant, *link),
    }
}

fn delay_fits(plant: &Plant, link: Link) -> bool
    ensures { result ≡ link_delay_holds plant.now [] link }
{
    let red_max = u64::from(plant.red_max);
    let there = hop(plant, link.a, link.a_port, link.delay, link.b, link.b_port);
    let back = hop(plant, link.b, link.b_port, link.delay, link.a, link.a_port);
    link.delay <= MAX_DELAY
        && fits_cycle(plant, red_max + there)
        && fits_cycle(plant, red_max + back)
}

/// How long a frame takes from one port to another over a link of this delay, in ns.
fn hop(plant: &Plant, from: DevId, from_port: PortNo, delay: u32, to: DevId, to_port: PortNo) -> u64
    ensures value { result ≡ tx_delay plant.now from.0 from_port.0 + delay + rx_delay plant.now to.0 to_port.0 }
    ensures below { result < 2 ^ 34 }
{
    let tx = tx_delay(plant, from, from_port);
    let rx = rx_delay(plant, to, to_port);
    u64::from(tx) + u64::from(delay) + u64::from(rx)
}
