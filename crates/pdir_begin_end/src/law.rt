//! Reading and spelling are one.

ghost use Rattle.std.specs.Prelude.{List, ℕ};
ghost use Rattle.byte_laws.specs.Spelling.{ReadingIsSpelling};
ghost use Rattle.irt_block.specs.Reading.{IsSure};
ghost use Rattle.irt_block.specs.Header.{whole_of};
ghost use Rattle.irt_base.specs.Valid.{IsPeriodBlock};
ghost use Rattle.pdir_begin_end.specs.Periods.{periods_in, periods_bytes};

/// The law of period blocks, said of lists without memory: they are read exactly where they
/// are spelled, and a refusal is of the bytes.
pub fn reading_is_spelling()
    ensures one { ReadingIsSpelling (whole_of periods_in) IsPeriodBlock periods_bytes }
    ensures sure { (bytes : List ℕ) → IsSure (whole_of periods_in bytes) }
{}
