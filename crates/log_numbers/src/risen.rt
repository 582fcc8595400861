//! Whether the numbers of takes never fall.

ghost use Rattle.std.specs.Prelude.{◌≡◌, ◌↔◌, ◌≤◌, nat_lt, IsTrue, map};
ghost use Rattle.iso_rules.specs.Legal.{NeverFall, NeverFallsBack};

use crate::answer::HasTaken;
use io_buffers::taken::Taken;
use record_text::record::AppRecord;

/// Whether the numbers of takes never fall below one before, on neither side, from 0 on, and a take is fresh exactly
/// where its number is greater.
pub fn never_falls_back(log: &AppRecord) -> bool
    ensures { IsTrue result ↔ NeverFallsBack log.now }
{
    never_fall(log.takes()) && never_fall(log.turns())
}

fn never_fall<T: HasTaken>(items: &[T]) -> bool
    ensures { IsTrue result ↔ NeverFall 0 (map T.taken_of items.now) }
{
    let mut before = 0;
    for item in items {
        let taken = item.taken();
        if !follows(before, taken) {
            return false;
        }
        before = taken.number;
    }
    true
}

fn follows(before: u64, taken: Taken) -> bool
    ensures { IsTrue result ↔ (before ≤ taken.number) × (taken.fresh ≡ nat_lt before taken.number) }
{
    before <= taken.number && taken.fresh == (before < taken.number)
}
