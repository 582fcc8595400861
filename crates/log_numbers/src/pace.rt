//! Whether an app keeps up with its plant.

ghost use Rattle.std.specs.Prelude.{◌≡◌, ◌↔◌, ◌<◌, ◌≤◌, IsTrue, All, AllPairs, Some, None, option_map};
ghost use Rattle.std.specs.List.{last_or};
ghost use Rattle.iso_rules.specs.Legal.{FindsAll, KeepsUp};
ghost use Rattle.iso_rules.specs.declared.turn.Turn.{Turn};

use crate::near::are_taken_near;
use iso_rules::turn::Turn;
use record_text::record::AppRecord;

/// Whether an app keeps up with the plant over so many cycles: each turn finds more cycles done than the one before,
/// the last one all of them, and its input is at least as new; each output taken is of a turn whose input is near, and
/// the zeros of the beginning are taken in the first cycles alone.
pub fn keeps_up(log: &AppRecord, cycles: usize) -> bool
    ensures { IsTrue result ↔ KeepsUp cycles log.now }
{
    let turns = log.turns();
    find_all(turns, cycles) && take_newest(turns) && are_taken_near(log.takes(), turns)
}

fn find_all(turns: &[Turn], cycles: usize) -> bool
    ensures { IsTrue result ↔ FindsAll cycles turns.now }
{
    find_some(turns) && rise(turns) && ends_with(turns, cycles)
}

fn find_some(turns: &[Turn]) -> bool
    ensures { IsTrue result ↔ All (λ (t : Turn). 1 ≤ t.found) turns.now }
{
    turns.iter().all(|turn| 1 <= turn.found)
}

/// Whether each turn finds more than the one before. So it finds more than each one before.
fn rise(turns: &[Turn]) -> bool
    ensures { IsTrue result ↔ AllPairs (λ (a b : Turn). a.found < b.found) turns.now }
{
    turns.windows(2).all(|pair| pair[0].found < pair[1].found)
}

/// Whether the last turn finds so many cycles.
#[tactic(auto, using(crate::proofs::LastItem::last_got))]
fn ends_with(turns: &[Turn], cycles: usize) -> bool
    ensures { IsTrue result ↔ (option_map (λ (t : Turn). t.found) (last_or None turns.now) ≡ Some cycles) }
{
    match turns.last() {
        None => false,
        Some(turn) => turn.found as usize == cycles,
    }
}

fn take_newest(turns: &[Turn]) -> bool
    ensures { IsTrue result ↔ All (λ (t : Turn). t.found ≤ t.taken.number) turns.now }
{
    turns
        .iter()
        .all(|turn| u64::from(turn.found) <= turn.taken.number)
}
