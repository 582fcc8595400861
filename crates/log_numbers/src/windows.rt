//! Whether takes that were not in their windows are not of the last publication.

ghost use Rattle.std.specs.Prelude.{◌↔◌, IsTrue, All};
ghost use Rattle.iso_rules.specs.Legal.{HasWindows, IsLateBefore};

use crate::answer::HasTaken;
use io_buffers::taken::Taken;
use record_text::record::AppRecord;

/// Whether each take that was not in its window is of a number below the last publication's. The output has as many
/// publications as there are turns, the input as many as there are cycles.
pub fn has_windows(log: &AppRecord, cycles: usize) -> bool
    ensures { IsTrue result ↔ HasWindows cycles log.now }
{
    are_late_before(log.takes(), log.turns().len()) && are_late_before(log.turns(), cycles)
}

fn are_late_before<T: HasTaken>(items: &[T], last: usize) -> bool
    ensures { IsTrue result ↔ All (λ t. IsLateBefore last (T.taken_of t)) items.now }
{
    items.iter().all(|item| is_late_before(item.taken(), last))
}

/// Whether a take was in its window, or is of a number below the last one.
fn is_late_before(taken: Taken, last: usize) -> bool
    ensures { IsTrue result ↔ IsLateBefore last taken }
{
    taken.in_window || taken.number < last as u64
}
