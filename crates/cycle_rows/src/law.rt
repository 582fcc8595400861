//! The laws of journals.

ghost use Rattle.std.specs.Prelude.{◌≡◌, ◌↔◌, ℕ, List, All, Contains};
ghost use Rattle.irt_base.specs.declared.blocks.Bundle.{Bundle};
ghost use Rattle.irt_base.specs.declared.plants.Plant.{Plant};
ghost use Rattle.plan_rules.specs.Places.{IsAccepted};
ghost use Rattle.plan_rules.specs.Plan.{IsPlan, setup_of};
ghost use Rattle.plan_rules.specs.Way.{Setup, IsInRange};
ghost use Rattle.plan_rules.specs.World.{WorldRow};
ghost use Rattle.cycle_rows.specs.Order.{AreInOrder};
ghost use Rattle.cycle_rows.specs.Journal.{IsSegment, IsJournal, no_parcels};
ghost use Rattle.cycle_rows.specs.Parcels.{AreParcelRows};
ghost use Rattle.cycle_rows.specs.Safe.{IsSafeJournal};
ghost use Rattle.cycle_rows.specs.declared.rows.JournalRow.{JournalRow};

use plan_rules::law::accepted_plans_are_safe;

/// Rows that stand in order are one list where they are the same rows. So the frames of a cycle have one list of rows,
/// and a run has one journal.
pub fn journals_are_one()
    ensures rows { (rows others : List JournalRow) → AreInOrder rows → AreInOrder others →
        ((r : JournalRow) → Contains rows r ↔ Contains others r) → rows ≡ others }
    ensures segments { (setup : Setup) (world : List WorldRow) (k : ℕ) (rows others : List JournalRow) →
        IsSegment setup world k rows → IsSegment setup world k others → rows ≡ others }
    ensures journals { (setup : Setup) (world : List WorldRow) (parcels : ℕ → List JournalRow) (cycles : ℕ)
        (rows others : List JournalRow) → IsJournal setup world parcels cycles rows →
        IsJournal setup world parcels cycles others → rows ≡ others }
{}

/// Over accepted plans, any clock errors and cut links, and bridge delays in their ranges: in the journal of any number
/// of cycles no link direction is used by two at once, be they frames or parcels, as long as parcels are sent in what
/// is left to them, one after the other. Each due frame is sent once by each port that has to, and delivered once and
/// in time to exactly those of its consumers that have a live route. The only drops are by devices that are not in
/// step.
pub fn journals_of_accepted_plans_are_safe()
    ensures parcels { (plant : Plant) (bundles : List Bundle) → IsPlan plant bundles → IsAccepted plant bundles →
        (world : List WorldRow) → All (IsInRange (setup_of plant bundles)) world →
        (parcels : ℕ → List JournalRow) → ((k : ℕ) → AreParcelRows plant bundles world k (parcels k)) →
        (cycles : ℕ) (rows : List JournalRow) → IsJournal (setup_of plant bundles) world parcels cycles rows →
        IsSafeJournal (setup_of plant bundles) world cycles rows }
    ensures frames { (plant : Plant) (bundles : List Bundle) → IsPlan plant bundles → IsAccepted plant bundles →
        (world : List WorldRow) → All (IsInRange (setup_of plant bundles)) world →
        (cycles : ℕ) (rows : List JournalRow) → IsJournal (setup_of plant bundles) world no_parcels cycles rows →
        IsSafeJournal (setup_of plant bundles) world cycles rows }
{
    accepted_plans_are_safe();
}
