//! The starts of a frame by a set of ports.

ghost use Rattle.std.specs.Prelude.{◌≡◌, ◌+◌, ◌<◌, ◌≤◌, ◌++◌, ◌∷◌, [], All, length, map, filter, IsPermutation};
ghost use Rattle.cycle_events.specs.Events.{event, is_bit};
ghost use Rattle.cycle_events.specs.declared.events.What.TheVariants.{Start};
ghost use Rattle.switch_events.specs.Answered.{starts_of};

use cycle_events::events::{Event, What};
use event_queue::queue::Queue;
use irt_base::numbers::PortNo;
use irt_switch::PortSet;

const PORTS: [u8; 7] = [1, 2, 3, 4, 5, 6, 7];

/// Puts the starts of a frame by each of a set of ports into a queue: at the time and the device of `start`, whose port
/// does not matter. It takes no memory.
pub fn push_starts(queue: &mut Queue, start: Event, ports: PortSet)
    requires { length (starts_of start.at start.device.0 start.frame.0 ports) ≤ queue.old.room }
    ensures put { IsPermutation
        (starts_of start.at start.device.0 start.frame.0 ports ++ queue.old.events) queue.new.events }
    ensures room { queue.old.room ≤ queue.new.room + length (starts_of start.at start.device.0 start.frame.0 ports) }
{
    push_ports(queue, start, ports, &PORTS);
}

/// Puts a start by each of these ports that are in the set into a queue.
fn push_ports(queue: &mut Queue, start: Event, ports: PortSet, among: &[u8])
    requires small { All (λ port. port < 8) among.now }
    requires room { length (filter (is_bit ports) among.now) ≤ queue.old.room }
    ensures put { IsPermutation
        (map (λ port. event start.at start.device.0 port start.frame.0 Start) (filter (is_bit ports) among.now)
        ++ queue.old.events) queue.new.events }
    ensures room { queue.old.room ≤ queue.new.room + length (filter (is_bit ports) among.now) }
{
    for port in among {
        push_port(queue, start, ports, *port);
    }
}

/// Puts a start by a port, where it is in the set, into a queue.
fn push_port(queue: &mut Queue, start: Event, ports: PortSet, port: u8)
    requires small { port < 8 }
    requires room { length (filter (is_bit ports) (port ∷ [])) ≤ queue.old.room }
    ensures put { IsPermutation
        (map (λ port. event start.at start.device.0 port start.frame.0 Start) (filter (is_bit ports) (port ∷ []))
        ++ queue.old.events) queue.new.events }
    ensures room { queue.old.room ≤ queue.new.room + length (filter (is_bit ports) (port ∷ [])) }
{
    if has_port(ports, port) {
        queue.push(by_port(start, port));
    }
}

fn has_port(ports: PortSet, port: u8) -> bool
    requires { port < 8 }
    ensures { result ≡ is_bit ports port }
{
    ports & (1 << port) != 0
}

fn by_port(start: Event, port: u8) -> Event
    ensures { result ≡ event start.at start.device.0 port start.frame.0 Start }
{
    Event {
        port: PortNo(port),
        what: What::Start,
        ..start
    }
}
