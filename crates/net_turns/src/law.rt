//! What the blocks of accepted plans say of an event that happens.

ghost use Rattle.switch_events.specs.Answered.{ForSwitches};
ghost use Rattle.net_turns.specs.Known.{EventsAreDemanded, StartsAreKnown, ArrivalsHavePorts};

use plan_rules::law::accepted_plans_can_be_played;
use switch_events::law::answers_are_events;

/// Whatever happens is of a frame that is demanded. A start gives the occupation of its port, for as long as a frame of
/// the demanded length takes. An arrival is at a device that has blocks, by a port that it has.
pub fn events_are_demanded()
    ensures demanded { ForSwitches EventsAreDemanded }
    ensures starts { ForSwitches StartsAreKnown }
    ensures ports { ForSwitches ArrivalsHavePorts }
{
    accepted_plans_can_be_played();
    answers_are_events();
}
