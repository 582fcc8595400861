//! The laws of plans and their rules.

ghost use Rattle.std.specs.Prelude.{◌≡◌, ℕ, ◌+◌, List, length};
ghost use Rattle.irt_base.specs.declared.blocks.Bundle.{Bundle};
ghost use Rattle.irt_base.specs.declared.plants.Plant.{Plant};
ghost use Rattle.plan_rules.specs.Network.{EntriesAreDemanded, EntriesAreAlike, ArrivesOnce, MeetsArrivals, SendsOn, DeliversArrivals, AllNear, ForAccepted};
ghost use Rattle.plan_rules.specs.Once.{StartsOnce};
ghost use Rattle.plan_rules.specs.Plan.{IsPlan};
ghost use Rattle.plan_rules.specs.Places.{KeepsBelow, IsAccepted, IsReject};
ghost use Rattle.plan_rules.specs.Rules.{rule_table, KeepsRule};
ghost use Rattle.plan_rules.specs.Expected.{IsSafe};
ghost use Rattle.plan_rules.specs.World.{WorldRow};
ghost use Rattle.plan_rules.specs.declared.place.Place.{Place};
ghost use Rattle.plan_rules.specs.declared.place.Reject.{Reject};

/// Where the rules of a plan hold, then over every list of world rows, with any clock errors and cut links and
/// with bridge delays in their ranges: no two frames occupy a link direction at once, none meets what is left to
/// parcels, every delivery comes by its planned time, and a device in step drops nothing. Each due frame is sent
/// once by each port that has to, reaches once each consumer with a live route, and goes nowhere else. In a cycle
/// without disturbance every route is live.
pub fn accepted_plans_are_safe()
    ensures { (plant : Plant) (bundles : List Bundle) → IsPlan plant bundles → IsAccepted plant bundles →
        IsSafe plant bundles }
{}

/// What a network that plays accepted blocks rests on, in each cycle: what its entries are, what a start leads to and
/// an arrival, that neither comes before its cause, and near which cycle all of it is.
pub fn accepted_plans_can_be_played()
    ensures entries { ForAccepted EntriesAreDemanded }
    ensures alike { ForAccepted EntriesAreAlike }
    ensures starts { ForAccepted (λ setup. (row : WorldRow) (k : ℕ) → StartsOnce setup row k) }
    ensures arrives { ForAccepted ArrivesOnce }
    ensures met { ForAccepted MeetsArrivals }
    ensures sent_on { ForAccepted SendsOn }
    ensures delivered { ForAccepted (λ setup. (world : List WorldRow) → DeliversArrivals setup world) }
    ensures near { ForAccepted AllNear }
{}

/// A plan has one verdict: one first failure at most, and none where it is accepted. Rules that are found to hold
/// one after the other are in the end all.
pub fn verdicts_are_one()
    ensures reject { (plant : Plant) (bundles : List Bundle) (r s : Reject) → IsReject plant bundles r →
        IsReject plant bundles s → r ≡ s }
    ensures either { (plant : Plant) (bundles : List Bundle) (r : Reject) → IsReject plant bundles r →
        ¬ IsAccepted plant bundles }
    ensures next { (plant : Plant) (bundles : List Bundle) (number : ℕ) → KeepsBelow plant bundles number →
        ((at : Place) → KeepsRule plant bundles number at) → KeepsBelow plant bundles (number + 1) }
    ensures all { (plant : Plant) (bundles : List Bundle) →
        KeepsBelow plant bundles (length (rule_table plant bundles) + 1) → IsAccepted plant bundles }
{}
