//! How many takes and images there are.

ghost use Rattle.std.specs.Prelude.{◌↔◌, IsTrue};
ghost use Rattle.iso_rules.specs.Legal.{HasEachCycle};

use record_text::record::AppRecord;

/// Whether there is one take of the output and one image for each cycle of a run.
pub fn has_each_cycle(log: &AppRecord, cycles: usize) -> bool
    ensures { IsTrue result ↔ HasEachCycle cycles log.now }
{
    log.takes().len() == cycles && log.images().len() == cycles
}
