//! The laws of runs.

ghost use Rattle.std.specs.Prelude.{◌≡◌, ℕ, ◌≤◌, List, length};
ghost use Rattle.irt_base.specs.Wiring.{peer_of};
ghost use Rattle.irt_base.specs.declared.blocks.Bundle.{Bundle};
ghost use Rattle.irt_base.specs.declared.numbers.PortNo.{PortNo};
ghost use Rattle.irt_base.specs.declared.plants.Plant.{Plant};
ghost use Rattle.irt_route.specs.Routes.{AreReached, AreTrafficWalks, IsUnreached};
ghost use Rattle.irt_world.specs.Rows.{Fits};
ghost use Rattle.irt_world.specs.declared.rows.World.{World};
ghost use Rattle.plan_rules.specs.Places.{IsAccepted};
ghost use Rattle.plan_rules.specs.Plan.{IsPlan};
ghost use Rattle.plan_run.specs.Run.{IsRecordBy, IsRecordOf, IsRunText, Pace, in_lockstep, text_of};
ghost use Rattle.plan_run.specs.Safe.{IsSafeRun};
ghost use Rattle.plan_run.specs.World.{IsSeedWorld};
ghost use Rattle.plant_rules.specs.Meets.{MeetsRules};
ghost use Rattle.record_fits.specs.Fits.{FitsPlant};
ghost use Rattle.record_text.specs.Text.{run_of};
ghost use Rattle.record_text.specs.declared.record.Record.{Record};

use irt_route::laws::fronts_of_best_walks;
use irt_world::law::fitting_worlds_are_in_range;
use iso_app::kinds::AppKind;
use iso_rules::law::{lockstep_records_are_legal, lockstep_runs_are_one};
use parcel_rules::law::parcels_of_accepted_plans_are_apart;
use record_laws::law::texts_determine_records;
use sync_world::law::ptcp_worlds_are_one;

/// The record of a run of accepted blocks over any world in range is safe, at either pace.
pub fn runs_of_accepted_plans_are_safe()
    ensures { (plant : Plant) (bundles : List Bundle) → IsPlan plant bundles → IsAccepted plant bundles →
        (pace : Pace) (walks : List (List PortNo)) (world : World) (r : Record) → Fits plant bundles world →
        1 ≤ length world.rows → IsRecordBy pace plant bundles walks world r →
        IsSafeRun pace plant bundles walks world r }
{
    fitting_worlds_are_in_range();
    parcels_of_accepted_plans_are_apart();
    lockstep_records_are_legal::<AppKind>();
}

/// A lockstep run has one record, and so one text.
pub fn run_texts_are_one()
    ensures records { (plant : Plant) (bundles : List Bundle) (walks : List (List PortNo)) (world : World)
        (r s : Record) → IsRecordOf plant bundles walks world r → IsRecordOf plant bundles walks world s →
        (r.cycles ≡ s.cycles) × (run_of r ≡ run_of s) }
    ensures texts { (plant : Plant) (bundles : List Bundle) (walks : List (List PortNo)) (world : World)
        (text other : List ℕ) → IsRunText in_lockstep plant bundles walks world text →
        IsRunText in_lockstep plant bundles walks world other → text ≡ other }
{
    lockstep_runs_are_one::<AppKind>();
}

/// A text is that of one record alone: no other that fits the plant has it.
pub fn texts_are_of_one_record()
    ensures { (plant : Plant) → MeetsRules plant → (r s : Record) → FitsPlant plant r → FitsPlant plant s →
        text_of plant r ≡ text_of plant s → r ≡ s }
{
    texts_determine_records();
}

/// A seed has one world, with as many cycles as were asked for, and a plant's traffic one list of walks.
pub fn worlds_and_walks_are_one()
    ensures worlds { (plant : Plant) (bundles : List Bundle) (seed cycles : ℕ) (world other : World) →
        IsSeedWorld plant bundles seed cycles world → IsSeedWorld plant bundles seed cycles other → world ≡ other }
    ensures cycles { (plant : Plant) (bundles : List Bundle) (seed cycles : ℕ) (world : World) →
        IsSeedWorld plant bundles seed cycles world → length world.rows ≡ cycles }
    ensures walks { (plant : Plant) (walks others : List (List PortNo)) →
        AreTrafficWalks (peer_of plant) plant.traffic walks → AreTrafficWalks (peer_of plant) plant.traffic others →
        walks ≡ others }
{
    fronts_of_best_walks();
    ptcp_worlds_are_one();
}

/// In an accepted plan a walk leads to every consumer.
pub fn accepted_plans_reach_consumers()
    ensures { (plant : Plant) (bundles : List Bundle) → IsPlan plant bundles → IsAccepted plant bundles →
        (frame device : ℕ) → ¬ IsUnreached (peer_of plant) plant.demands frame device }
{}
