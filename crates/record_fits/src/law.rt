//! A law of the records of runs.

ghost use Rattle.std.specs.Prelude.{◌≡◌, ℕ, List, length};
ghost use Rattle.cycle_rows.specs.Journal.{IsJournal};
ghost use Rattle.irt_base.specs.declared.blocks.Bundle.{Bundle};
ghost use Rattle.irt_base.specs.declared.numbers.PortNo.{PortNo};
ghost use Rattle.irt_base.specs.declared.plants.Plant.{Plant};
ghost use Rattle.iso_rules.specs.Legal.{IsLegal};
ghost use Rattle.parcel_rules.specs.Rows.{parcel_rows};
ghost use Rattle.plan_rules.specs.Places.{IsAccepted};
ghost use Rattle.plan_rules.specs.Plan.{IsPlan, setup_of};
ghost use Rattle.plan_rules.specs.World.{WorldRow};
ghost use Rattle.record_fits.specs.Fits.{FitsPlant};
ghost use Rattle.record_numbers.specs.Numbers.{HasNumbers};
ghost use Rattle.record_text.specs.Text.{run_of};
ghost use Rattle.record_text.specs.declared.record.Record.{Record};

use iso_app::apps::IsoApp;
use parcel_rules::law::parcels_of_accepted_plans_are_apart;
use record_text::law::journals_stand_by_cycle;

/// A legal record of accepted blocks over a world, whose numbers are of the types that hold them, fits the plant.
pub fn legal_records_fit<A: IsoApp>()
    ensures { (plant : Plant) (bundles : List Bundle) → IsPlan plant bundles → IsAccepted plant bundles →
        (walks : List (List PortNo)) (world : List WorldRow) (firsts : List A) (r : Record) →
        r.cycles ≡ length world →
        IsLegal A.reply A.next_state (setup_of plant bundles) world firsts
        (IsJournal (setup_of plant bundles) world (parcel_rows plant bundles walks world) (length world)) (run_of r) →
        HasNumbers r → FitsPlant plant r }
{
    journals_stand_by_cycle();
    parcels_of_accepted_plans_are_apart();
}
