//! The laws of a cycle's events, over accepted plans.

ghost use Rattle.cycle_events.specs.Run.{CausesHappen, CausesFollow, ForPlays, RunsBegin, RunsGoOn, RunsAreShort, RowsDiffer, RowsAreSegment, TurnsFit, TurnsGiveRows, TurnsHappen};

use plan_rules::law::{accepted_plans_are_safe, accepted_plans_can_be_played};
use plan_rules::ways::ways_are_one;

/// What an event causes happens, and does not lie before it.
pub fn causes_happen()
    ensures happen { ForPlays CausesHappen }
    ensures follow { ForPlays CausesFollow }
{
    accepted_plans_can_be_played();
    ways_are_one();
}

/// A run begins when nothing is handled. It goes on when an event is taken out of those that wait, in whatever order
/// they stand, and what it causes is put in. At any time no more events were handled and wait than the plan has places.
pub fn runs_go_on()
    ensures begin { ForPlays RunsBegin }
    ensures goes_on { ForPlays RunsGoOn }
    ensures short { ForPlays RunsAreShort }
{
    accepted_plans_can_be_played();
    ways_are_one();
}

/// An event that is taken out of those that wait happens, and its time is near the cycle. With it and what it causes no
/// more events are handled and wait than the plan has places. It gives one row at most.
pub fn turns_fit()
    ensures happen { ForPlays TurnsHappen }
    ensures fit { ForPlays TurnsFit }
    ensures rows { ForPlays TurnsGiveRows }
{
    accepted_plans_can_be_played();
    ways_are_one();
}

/// When nothing waits any more, the rows that the handled events gave have different keys. In order they are the rows
/// of the cycle's frames.
pub fn runs_give_segments()
    ensures differ { ForPlays RowsDiffer }
    ensures segment { ForPlays RowsAreSegment }
{
    accepted_plans_are_safe();
    accepted_plans_can_be_played();
    ways_are_one();
}
