//! A link's delay.

ghost use Rattle.std.specs.Prelude.{◌≡◌, ◌+◌, ◌-◌, ◌/◌, ◌≤◌, [], ◌∷◌, ◌++◌, length, IfOk, IfErr, IsOk, MatchOption};
ghost use Rattle.line_delay.specs.Line.{IsLowerMedian, half_round, accepted, newest, are_in_order};

use std::marker::Model;
use thiserror::Error;

/// How many half rounds count.
pub const WINDOW: usize = 8;

/// Greatest half round that is accepted, in ns.
pub const MAX_HALF_ROUND: u64 = 1000000;

/// Why a response is refused.
#[derive(Clone, Copy, Debug, PartialEq, Eq, Error)]
pub enum LineFault {
    /// A stamp is before an earlier one of its clock, or the second device had the exchange for
    /// longer than the first.
    #[error("the time stamps are out of order")]
    TimesOutOfOrder,
    /// The half round exceeds `MAX_HALF_ROUND`.
    #[error("the half round is too long")]
    TooLong,
}

/// The newest half rounds of a link. A clause sees the list of them, the oldest first.
#[derive(Drop)]
pub struct LineDelay {
    halves: [u32; WINDOW],
    count: usize,
}

impl Model for LineDelay {
    ghost use Rattle.std.specs.Prelude.{List, ℕ, ◌≤◌, take};
    ghost use Rattle.line_delay.specs.declared.line.TheConstants.{WINDOW};

    ghost Value = { List ℕ };

    ghost view = { λ l. take l.count l.halves };

    ghost invariant = { λ l. l.count ≤ WINDOW };
}

impl LineDelay {
    /// A link of which nothing is known yet.
    pub fn new() -> LineDelay
        ensures { result ≡ [] }
    {
        LineDelay {
            halves: [0; WINDOW],
            count: 0,
        }
    }

    /// Takes a response with its stamps, and gives the median with it. A response that is refused
    /// changes nothing.
    pub fn response(&mut self, t1: u64, t2: u64, t3: u64, t4: u64) -> Result<u32, LineFault>
        ensures fault { IfErr result (λ e. half_round t1 t2 t3 t4 ≡ Err e) }
        ensures line { self.new ≡ accepted self.old (half_round t1 t2 t3 t4) }
        ensures median { IfOk result (IsLowerMedian self.new) }
        ensures heard { IfOk result (λ _. IsOk (half_round t1 t2 t3 t4)) }
    {
        let half = half(t1, t2, t3, t4)?;
        self.push(half);
        Ok(self.lower_median())
    }

    /// The lower median of the half rounds, or `None` before the first one is accepted.
    pub fn median(&self) -> Option<u32>
        ensures { MatchOption result (self.now ≡ []) (IsLowerMedian self.now) }
    {
        if self.count == 0 {
            None
        } else {
            Some(self.lower_median())
        }
    }

    /// Puts a half round last. The oldest one leaves a full window.
    fn push(&mut self, half: u32)
        ensures { self.new ≡ newest (self.old ++ half ∷ []) }
    {
        if self.count < WINDOW {
            self.halves[self.count] = half;
            self.count += 1;
        } else {
            self.halves.rotate_left(1);
            self.halves[WINDOW - 1] = half;
        }
    }

    fn lower_median(&self) -> u32
        requires { 1 ≤ length self.now }
        ensures { IsLowerMedian self.now result }
    {
        let mut halves = self.halves;
        lower_median_of(&mut halves[..self.count])
    }
}

/// Half of the round without the time at the second device, rounded down.
fn half(t1: u64, t2: u64, t3: u64, t4: u64) -> Result<u32, LineFault>
    ensures { result ≡ half_round t1 t2 t3 t4 }
{
    if !in_order(t1, t2, t3, t4) {
        return Err(LineFault::TimesOutOfOrder);
    }
    let half = ((t4 - t1) - (t3 - t2)) / 2;
    if half > MAX_HALF_ROUND {
        return Err(LineFault::TooLong);
    }
    Ok(half as u32)
}

fn in_order(t1: u64, t2: u64, t3: u64, t4: u64) -> bool
    ensures { result ≡ are_in_order t1 t2 t3 t4 }
{
    t1 <= t4 && t2 <= t3 && t3 - t2 <= t4 - t1
}

/// Sorts the numbers, and gives their lower median.
fn lower_median_of(numbers: &mut [u32]) -> u32
    requires { 1 ≤ length numbers.old }
    ensures { IsLowerMedian numbers.old result }
{
    numbers.sort_unstable();
    numbers[(numbers.len() - 1) / 2]
}
