//! What the answers of a switch mean, by itself and over accepted plans.

ghost use Rattle.std.specs.Prelude.{◌≡◌, ℕ, ℤ, List, Bool, true, false, Some, All, IsBitSet, slice_get};
ghost use Rattle.irt_base.specs.Valid.{IsBundle};
ghost use Rattle.irt_base.specs.declared.blocks.Bundle.{Bundle};
ghost use Rattle.irt_base.specs.declared.blocks.Entry.{Entry};
ghost use Rattle.irt_base.specs.declared.plants.Plant.{Plant};
ghost use Rattle.plan_rules.specs.Arrival.{Arrival, IsArrival};
ghost use Rattle.plan_rules.specs.Network.{IsSentAt};
ghost use Rattle.plan_rules.specs.Places.{IsAccepted};
ghost use Rattle.plan_rules.specs.Plan.{IsPlan, setup_of};
ghost use Rattle.plan_rules.specs.Way.{IsInRange};
ghost use Rattle.plan_rules.specs.World.{WorldRow, IsInStep};
ghost use Rattle.irt_switch.specs.Arrive.{Reception, action_of};
ghost use Rattle.irt_switch.specs.Causes.{IsAnswer};
ghost use Rattle.irt_switch.specs.Release.{IsReleased, outgoing_of};
ghost use Rattle.irt_switch.specs.declared.action.Outgoing.{Outgoing};
ghost use Rattle.irt_switch.specs.Played.{IsToldOf, IsPlayed, TakesBridge, true_time};

use crate::action::{Action, Cause};
use plan_rules::law::{accepted_plans_are_safe, accepted_plans_can_be_played};

/// An arrival is answered by what holds of it: dropped for the first cause that applies, or sent on where none does.
pub fn answers_are_by_cause()
    ensures { (bundle : Bundle) (k : ℕ) (in_step : Bool) (r : Reception) (bridge : ℕ) → IsBundle bundle →
        IsAnswer bundle k in_step r bridge (action_of bundle k in_step r bridge) }
{}

/// Over accepted plans, any clock errors and cut links, and bridge delays in their ranges: what arrives at a device in
/// step is never dropped, and goes on as the blocks and the world say; a device that is not in step drops it for that.
/// What a device in step releases is what it starts itself, then and by those ports.
pub fn accepted_plans_are_switched()
    ensures sent_on { (plant : Plant) (bundles : List Bundle) → IsPlan plant bundles → IsAccepted plant bundles →
        (world : List WorldRow) → All (IsInRange (setup_of plant bundles)) world →
        (row : WorldRow) (from : Entry) (a : Arrival) → slice_get world a.cycle ≡ Some row →
        IsArrival (setup_of plant bundles) row from a → IsInStep plant row a.device →
        (bundle : Bundle) (r : Reception) (bridge : ℕ) → slice_get bundles a.device ≡ Some bundle →
        IsToldOf plant row from a r → TakesBridge (setup_of plant bundles) row a bridge →
        IsPlayed (setup_of plant bundles) row a (action_of bundle a.cycle true r bridge) }
    ensures started { (plant : Plant) (bundles : List Bundle) → IsPlan plant bundles →
        (row : WorldRow) (k device port : ℕ) (bundle : Bundle) (o : Outgoing) → slice_get bundles device ≡ Some bundle → IsInStep plant row device →
        IsReleased bundle k o → IsBitSet o.ports port →
        IsSentAt (setup_of plant bundles) row k device port o.frame.0 (true_time plant row k device o.at) }
    ensures all_started { (plant : Plant) (bundles : List Bundle) (row : WorldRow) (k device port frame : ℕ) (start : ℤ)
        (bundle : Bundle) → slice_get bundles device ≡ Some bundle →
        (s : IsSentAt (setup_of plant bundles) row k device port frame start) → s.entry.rx_port ≡ 0 →
        IsReleased bundle k (outgoing_of s.entry) }
    ensures dropped { (bundle : Bundle) (k : ℕ) (r : Reception) (bridge : ℕ) →
        action_of bundle k false r bridge ≡ Action.Dropped Cause.NotInStep }
{
    accepted_plans_are_safe();
    accepted_plans_can_be_played();
}
