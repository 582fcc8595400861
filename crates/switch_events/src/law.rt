//! The laws that join switches and events.

ghost use Rattle.switch_events.specs.Answered.{AnswersAreEvents, ForSwitches, StartsOccupy};
ghost use Rattle.switch_events.specs.Released.{ReleasesAreFirst};

use cycle_events::law::causes_happen;
use irt_switch::law::accepted_plans_are_switched;
use plan_rules::law::accepted_plans_can_be_played;

/// A device that is told of an arrival brings about what the arrival causes, and gives its rows: starts by the ports of
/// its answer, a delivery where it keeps the frame, and a drop where it is not in step. A start gives an occupation.
pub fn answers_are_events()
    ensures answers { ForSwitches AnswersAreEvents }
    ensures starts { ForSwitches StartsOccupy }
{
    causes_happen();
    accepted_plans_are_switched();
    accepted_plans_can_be_played();
}

/// What the devices release in a cycle is what a run begins with.
pub fn releases_are_first()
    ensures { ForSwitches ReleasesAreFirst }
{
    accepted_plans_are_switched();
    accepted_plans_can_be_played();
}
