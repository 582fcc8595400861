//! The control word.

ghost use Rattle.std.specs.Prelude.{◌≡◌, ◌<◌, ◌≤◌, ◌^◌};
ghost use Rattle.io_buffers.specs.Steps.{middle_in, fresh_in, number_in, fresh_word};

// The number of slots that two bits name.
const SLOT_NAMES: u64 = 4;

// The bit fresh, and the step of the number behind it.
const FRESH: u64 = 4;

const NUMBER_STEP: u64 = 8;

/// The middle slot.
pub fn middle_of(word: u64) -> usize
    ensures { result ≡ middle_in word }
{
    (word % SLOT_NAMES) as usize
}

/// Whether the middle row was not taken yet.
pub fn is_fresh(word: u64) -> bool
    ensures { result ≡ fresh_in word }
{
    word / FRESH % 2 == 1
}

/// The number of the middle row's publication, where it is fresh.
pub fn number_of(word: u64) -> u64
    ensures { result ≡ number_in word }
{
    word / NUMBER_STEP
}

/// The control word of a middle row that is this publication.
pub fn fresh_control(middle: usize, number: u64) -> u64
    requires slot { middle < 3 }
    requires room { number ≤ 2 ^ 60 }
    ensures { result ≡ fresh_word middle number }
{
    middle as u64 + FRESH + NUMBER_STEP * number
}
