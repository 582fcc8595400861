//! What a device releases, as starts.

ghost use Rattle.std.specs.Prelude.{◌≡◌, ◌+◌, ◌+ℤ◌, ◌≤◌, ◌++◌, [], All, length, IsPermutation};
ghost use Rattle.irt_switch.specs.declared.action.Outgoing.{Outgoing};
ghost use Rattle.cycle_events.specs.Events.{event};
ghost use Rattle.cycle_events.specs.declared.events.What.TheVariants.{Start};
ghost use Rattle.net_starts.specs.Released.{IsSmallTime, starts_from};

use crate::starts::push_starts;
use cycle_events::events::{Event, What};
use event_queue::queue::Queue;
use irt_base::numbers::PortNo;
use irt_switch::{Outgoing, Switch};

/// Releases all that a device still has to in the cycle, and puts the starts into a queue. It takes no memory. `begin`
/// is an event at the device at the time at which the device's cycle begins, in true ns.
pub fn push_released(queue: &mut Queue, switch: &mut Switch, begin: Event)
    requires begin { IsSmallTime 60 begin.at }
    requires times { All (λ (o : Outgoing). IsSmallTime 60 o.at) switch.old.left }
    requires room { length (starts_from begin.at begin.device.0 switch.old.left) ≤ queue.old.room }
    ensures put { IsPermutation
        (starts_from begin.at begin.device.0 switch.old.left ++ queue.old.events) queue.new.events }
    ensures room { queue.old.room ≤ queue.new.room + length (starts_from begin.at begin.device.0 switch.old.left) }
    ensures released { switch.new ≡ record switch.old { left = [] } }
{
    while let Some(out) = switch.release() {
        push_starts(queue, released_start(begin, out), out.ports);
    }
}

/// The start of a frame that is released, by no port yet.
fn released_start(begin: Event, out: Outgoing) -> Event
    requires begin { IsSmallTime 60 begin.at }
    requires time { IsSmallTime 60 out.at }
    ensures { result ≡ event (begin.at +ℤ out.at) begin.device.0 0 out.frame.0 Start }
{
    Event {
        at: begin.at + out.at,
        port: PortNo(0),
        frame: out.frame,
        what: What::Start,
        ..begin
    }
}
