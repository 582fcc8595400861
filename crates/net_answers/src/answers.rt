//! The starts that an answer brings about.

ghost use Rattle.std.specs.Prelude.{◌≡◌, ◌+◌, ◌+ℤ◌, ◌≤◌, ◌++◌, length, IsPermutation};
ghost use Rattle.cycle_events.specs.Events.{event};
ghost use Rattle.cycle_events.specs.declared.events.What.TheVariants.{Start};
ghost use Rattle.net_answers.specs.Answer.{IsSmallAnswer, answer_starts};
ghost use Rattle.net_starts.specs.Released.{IsSmallTime};

use cycle_events::events::{Event, What};
use event_queue::queue::Queue;
use irt_base::numbers::{FrameId, Ns, PortNo};
use irt_switch::Action;
use net_starts::starts::push_starts;

/// Puts the starts that an answer to the arrival of a frame brings about into a queue. It takes no memory. `begin` is
/// an event at the device at the time at which the device's cycle begins, in true ns.
pub fn push_answer(queue: &mut Queue, begin: Event, frame: FrameId, action: Action)
    requires begin { IsSmallTime 60 begin.at }
    requires time { IsSmallAnswer action }
    requires room { length (answer_starts begin.at begin.device.0 frame.0 action) ≤ queue.old.room }
    ensures put { IsPermutation
        (answer_starts begin.at begin.device.0 frame.0 action ++ queue.old.events) queue.new.events }
    ensures room { queue.old.room ≤ queue.new.room + length (answer_starts begin.at begin.device.0 frame.0 action) }
{
    match action {
        Action::Forward { at, ports, .. } => push_starts(
            queue,
            answer_start(begin, frame, at),
            ports,
        ),
        Action::Dropped { .. } => {}
    }
}

/// The start that follows an arrival, by no port yet. `at` is in local ns.
fn answer_start(begin: Event, frame: FrameId, at: Ns) -> Event
    requires begin { IsSmallTime 60 begin.at }
    requires time { IsSmallTime 60 at }
    ensures { result ≡ event (begin.at +ℤ at) begin.device.0 0 frame.0 Start }
{
    Event {
        at: begin.at + at,
        port: PortNo(0),
        frame,
        what: What::Start,
        ..begin
    }
}
