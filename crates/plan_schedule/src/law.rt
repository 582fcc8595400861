//! A plan has one text.

ghost use Rattle.std.specs.Prelude.{◌≡◌, ℕ, List};
ghost use Rattle.irt_base.specs.declared.blocks.Bundle.{Bundle};
ghost use Rattle.irt_base.specs.declared.plants.Plant.{Plant};
ghost use Rattle.plan_schedule.specs.Schedules.{AreSchedules};
ghost use Rattle.plan_schedule.specs.Text.{IsPlanText};
ghost use Rattle.plan_schedule.specs.declared.frames.Schedule.{Schedule};

use fit_rules::law::printed_values_are_one;

/// The demands of a plan have one list of schedules, and so a plan has one text.
pub fn plan_texts_are_one()
    ensures schedules { (plant : Plant) (bundles : List Bundle) (rows others : List Schedule) →
        AreSchedules plant bundles rows → AreSchedules plant bundles others → rows ≡ others }
    ensures texts { (plant : Plant) (bundles : List Bundle) (text other : List ℕ) →
        IsPlanText plant bundles text → IsPlanText plant bundles other → text ≡ other }
{
    printed_values_are_one();
}
