//! A law of texts.

ghost use Rattle.std.specs.Prelude.{◌≡◌, ℕ};
ghost use Rattle.cycle_rows.specs.declared.rows.JournalRow.{JournalRow};
ghost use Rattle.irt_base.specs.declared.plants.Plant.{Plant};
ghost use Rattle.iso_rules.specs.Lockstep.{RunRecord};
ghost use Rattle.plant_rules.specs.Meets.{MeetsRules};
ghost use Rattle.record_laws.specs.Fitting.{IsRecordOf};
ghost use Rattle.record_text.specs.Text.{record_text};

/// No two records of one plant have the same text: neither of as many cycles, nor of others.
pub fn texts_determine_records()
    ensures { (plant : Plant) (cycles others : ℕ) (r s : RunRecord JournalRow) → MeetsRules plant →
        IsRecordOf plant cycles r → IsRecordOf plant others s →
        record_text plant cycles r ≡ record_text plant others s → (cycles ≡ others) × (r ≡ s) }
{}
