//! Whether the inputs behind what is taken are near.

ghost use Rattle.std.specs.Prelude.{◌↔◌, IsTrue};
ghost use Rattle.iso_rules.specs.Legal.{IsNear};
ghost use Rattle.log_numbers.specs.Near.{AreTakenNear, IsTakenNear};

use irt_base::limits::MAX_SLIP;
use iso_rules::turn::Turn;
use record_text::record::Take;

/// Whether each take of an output, by its cycle, is of a near input.
pub fn are_taken_near(takes: &[Take], turns: &[Turn]) -> bool
    ensures { IsTrue result ↔ AreTakenNear takes.now turns.now }
{
    takes.iter().enumerate().all(|(k, take)| is_taken_near(k as u64, take.taken().number, turns))
}

/// Whether a take of cycle `k`, of this number, is of a near input. Number 0 is the zeros of the beginning, and number
/// N + 1 is what turn N put out; where there is no such turn nothing is asked.
fn is_taken_near(k: u64, number: u64, turns: &[Turn]) -> bool
    ensures { IsTrue result ↔ IsTakenNear k number turns.now }
{
    if number == 0 {
        return k <= u64::from(MAX_SLIP);
    }
    match turns.get((number - 1) as usize) {
        None => true,
        Some(turn) => is_near(k, turn),
    }
}

fn is_near(k: u64, turn: &Turn) -> bool
    ensures { IsTrue result ↔ IsNear k turn.now }
{
    let number = turn.taken.number;
    number <= k && k - number <= u64::from(MAX_SLIP)
}
