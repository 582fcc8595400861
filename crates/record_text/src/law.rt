//! Laws of journals.

ghost use Rattle.std.specs.Prelude.{◌≡◌, ℕ, List, All};
ghost use Rattle.cycle_rows.specs.Journal.{IsJournal};
ghost use Rattle.cycle_rows.specs.Rows.{cycle_of};
ghost use Rattle.cycle_rows.specs.declared.rows.JournalRow.{JournalRow};
ghost use Rattle.plan_rules.specs.Way.{Setup};
ghost use Rattle.plan_rules.specs.World.{WorldRow};
ghost use Rattle.record_text.specs.Text.{StandByCycle};

/// The rows of a journal stand by cycle, where the parcels' rows of a cycle are of that cycle.
pub fn journals_stand_by_cycle()
    ensures { (setup : Setup) (world : List WorldRow) (parcels : ℕ → List JournalRow) (cycles : ℕ)
        (rows : List JournalRow) → ((k : ℕ) → All (λ (r : JournalRow). cycle_of r ≡ k) (parcels k)) →
        IsJournal setup world parcels cycles rows → StandByCycle rows }
{}
