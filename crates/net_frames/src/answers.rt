//! Answers to arrivals.

ghost use Rattle.std.specs.Prelude.{◌≡◌, ◌-ℤ◌};
ghost use Rattle.irt_base.specs.Valid.{IsBundle};
ghost use Rattle.irt_switch.specs.Arrive.{action_of};
ghost use Rattle.irt_switch.specs.State.{HasPort};
ghost use Rattle.cycle_events.specs.Run.{IsNearEvent};
ghost use Rattle.cycle_events.specs.declared.events.What.TheVariants.{Arrive};
ghost use Rattle.switch_events.specs.Answered.{IsAnswer};
ghost use Rattle.net_answers.specs.Answer.{IsSmallAnswer};
ghost use Rattle.net_frames.specs.Playing.{IsPlaying, play_by, told_of};
ghost use Rattle.net_starts.specs.Released.{IsSmallTime};
ghost use Rattle.net_turns.specs.Bytes.{bytes_of};

use cycle_events::events::Event;
use irt_base::numbers::Ns;
use irt_switch::law::answers_are_by_cause;
use irt_switch::{Action, Switch};
use irt_world::rows::Row;
use net_begin::clocks::begin_event;
use net_site::site::Site;
use net_turns::law::events_are_demanded;
use rtc3_frame::frames::Frames;
use switch_events::law::answers_are_events;

/// What the device at which a frame arrives answers, by its own blocks and the frame's bytes.
pub fn answer_to(
    site: &Site,
    row: &Row,
    k: u32,
    arrival: Event,
    switches: &[Switch],
    frames: &Frames,
) -> Action
    requires playing { IsPlaying site.now row.now k switches.now frames.now }
    requires what { arrival.what ≡ Arrive }
    requires near { IsNearEvent (play_by site.now.plant switches.now row.now k) arrival }
    ensures answer { IsAnswer (play_by site.now.plant switches.now row.now k) arrival
        (bytes_of site.now.plant arrival.frame.0) result }
    ensures time { IsSmallAnswer result }
{
    events_are_demanded();
    answers_are_events();
    let bytes = frames.bytes(site.demand_number(arrival.frame));
    let switch = &switches[usize::from(arrival.device.0)];
    let begin = begin_event(site.plant(), row, k, arrival.device);
    let bridge = site.bridge(row, arrival.device, arrival.frame);
    answer_from(switch, arrival, begin, bytes, bridge)
}

/// What a switch answers, where `begin` is an event at the device at the time at which its cycle begins, in true ns.
fn answer_from(switch: &Switch, arrival: Event, begin: Event, bytes: &[u8], bridge: u32) -> Action
    requires valid { IsBundle switch.now.bundle }
    requires port { HasPort switch.now.bundle arrival.port.0 }
    requires arrival { IsSmallTime 58 arrival.at }
    requires begin { IsSmallTime 58 begin.at }
    ensures answer { result ≡ action_of switch.now.bundle switch.now.cycle switch.now.in_step
        (told_of begin.at arrival bytes.now) bridge }
    ensures time { IsSmallAnswer result }
{
    answers_are_by_cause();
    switch.arrive(local_time(arrival, begin), arrival.port, bytes, bridge)
}

/// The time of an event from another on.
fn local_time(event: Event, begin: Event) -> Ns
    requires event { IsSmallTime 58 event.at }
    requires begin { IsSmallTime 58 begin.at }
    ensures { result ≡ (event.at -ℤ begin.at) }
{
    event.at - begin.at
}
