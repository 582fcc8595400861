//! Reading and spelling are one.

ghost use Rattle.std.specs.Prelude.{List, ℕ};
ghost use Rattle.byte_laws.specs.Spelling.{ReadingIsSpelling};
ghost use Rattle.irt_block.specs.Reading.{IsSure};
ghost use Rattle.irt_block.specs.Header.{whole_of};
ghost use Rattle.irt_base.specs.Valid.{IsSyncBlock, IsGlobalBlock};
ghost use Rattle.pd_blocks.specs.Sync.{sync_in, sync_bytes};
ghost use Rattle.pd_blocks.specs.Global.{global_in, global_bytes};

/// The law of both blocks, said of lists without memory: they are read exactly where they are
/// spelled, and a refusal is of the bytes.
pub fn reading_is_spelling()
    ensures sync { ReadingIsSpelling (whole_of sync_in) IsSyncBlock sync_bytes }
    ensures global { ReadingIsSpelling (whole_of global_in) IsGlobalBlock global_bytes }
    ensures sure_sync { (bytes : List ℕ) → IsSure (whole_of sync_in bytes) }
    ensures sure_global { (bytes : List ℕ) → IsSure (whole_of global_in bytes) }
{}
