//! The laws of domains.

ghost use Rattle.std.specs.Prelude.{ℕ, ◌*◌, ◌≤◌, ◌<◌, ◌↔◌, ◌≡◌, pos, length, true, List, Some, map, slice_get};
ghost use Rattle.irt_base.specs.Cycle.{IsNear, budget_time};
ghost use Rattle.irt_base.specs.declared.blocks.Bundle.{Bundle};
ghost use Rattle.irt_base.specs.declared.plants.Clocks.TheVariants as clocks;
ghost use Rattle.irt_base.specs.declared.plants.Plant.{Plant};
ghost use Rattle.irt_route.specs.Clocks.{ClockTable, IsClockTreeOf};
ghost use Rattle.plan_rules.specs.Places.{IsAccepted};
ghost use Rattle.plan_rules.specs.World.{IsWithinWindow};
ghost use Rattle.ptcp_core.specs.Clocks.{fresh_slave, state_of};
ghost use Rattle.ptcp_core.specs.Honest.{after_all};
ghost use Rattle.ptcp_core.specs.declared.slave.SyncState.TheVariants as states;
ghost use Rattle.sync_world.specs.Clocks.{age_of, clock_at, is_mute};
ghost use Rattle.sync_world.specs.Domain.{IsDomain, delay_of, walk_of};
ghost use Rattle.sync_world.specs.Events.{AreInTurn, Deliveries, events_to};
ghost use Rattle.sync_world.specs.Lines.{measured};
ghost use Rattle.sync_world.specs.Report.{report_lines};
ghost use Rattle.sync_world.specs.World.{HasBudgets, ptcp_rows};
ghost use Rattle.sync_world.specs.declared.domain.Domain.{Domain};

use irt_route::laws::{fronts_of_best_walks, parents_of_trees};
use line_delay::honest::honest_law;
use ptcp_core::honest::slave_law;

/// What is known of a link's delay after one exchange or more is wrong by at most twice the error of a stamp. A clock
/// is wrong by at most what the errors of stamps make on its walk, and a drift for each cycle since it was last set.
pub fn domains_have_bounds()
    ensures known { (domain : Domain) (device count : ℕ) → IsDomain domain → 1 ≤ count →
        IsNear (2 * domain.stamp) (measured domain device count) (delay_of domain device) }
    ensures clock { (domain : Domain) (device cycle : ℕ) → IsDomain domain →
        IsWithinWindow (clock_at domain device cycle).error
        (pos (budget_time (length (walk_of domain device)) domain.stamp domain.drift 1
        (age_of (clock_at domain device cycle) cycle))) }
{
    honest_law();
}

/// A device other than device 0 is muted in a cycle exactly where a slave with the same send and timeout is, once it
/// was given the sync messages that reached the device in the cycles before, and the ticks up to this one, in their
/// order. What the messages say beside their number and cycle may be anything.
pub fn devices_mute_as_slaves()
    ensures { (domain : Domain) (deliveries : Deliveries) (timeout device cycle : ℕ) → 0 < device →
        AreInTurn domain.send deliveries →
        ((is_mute domain timeout device cycle ≡ true) ↔
        (state_of (after_all (fresh_slave domain.send timeout) (events_to domain deliveries device cycle)) ≡
        states.Muted)) }
{
    slave_law();
}

/// A plant has one report: any two clock trees of it give the same lines.
pub fn reports_are_one()
    ensures { (seed : ℕ) (plant : Plant) (tree other : ClockTable) (cycles : ℕ) → IsClockTreeOf plant tree →
        IsClockTreeOf plant other → report_lines seed plant tree cycles ≡ report_lines seed plant other cycles }
{
    fronts_of_best_walks();
    parents_of_trees();
}

/// A plant has one world by PTCP for a seed: any two clock trees of it give the same rows.
pub fn ptcp_worlds_are_one()
    ensures { (seed : ℕ) (plant : Plant) (bundles : List Bundle) (tree other : ClockTable) (send : ℕ) (timeouts : List ℕ)
        (cycles : ℕ) → IsClockTreeOf plant tree → IsClockTreeOf plant other →
        ptcp_rows seed plant bundles tree send timeouts cycles ≡ ptcp_rows seed plant bundles other send timeouts cycles }
{
    fronts_of_best_walks();
    parents_of_trees();
}

/// In an accepted plan whose clocks are by PTCP each budget is at most the window, with the first device's send and
/// each device's own timeout. So the worlds that PTCP makes of it fit, and a device is in step exactly where it isn't
/// muted.
pub fn accepted_plans_have_budgets()
    ensures { (plant : Plant) (bundles : List Bundle) (tree : ClockTable) (first : Bundle) → IsClockTreeOf plant tree →
        plant.clocks ≡ clocks.Ptcp → length bundles ≡ length plant.devices → slice_get bundles 0 ≡ Some first →
        IsAccepted plant bundles →
        HasBudgets plant tree first.sync.send (map (λ (b : Bundle). b.sync.timeout) bundles) }
{}
