//! Whether the takes and the inputs of an app are publications.

ghost use Rattle.std.specs.Prelude.{◌≡◌, ◌↔◌, ℕ, All, IsTrue, length, map};
ghost use Rattle.io_buffers.specs.Given.{Given};
ghost use Rattle.iso_rules.specs.Legal.{HasWholeInputs, HasWholeOutputs, IsPublished, input_of};
ghost use Rattle.iso_rules.specs.Station.{input_count, output_count};
ghost use Rattle.iso_rules.specs.declared.turn.Turn.{Turn};
ghost use Rattle.log_words.specs.Published.{after_zeros};
ghost use Rattle.plan_rules.specs.Way.{Setup};

use crate::published::{is_input, is_output};
use irt_base::list::Items;
use iso_rules::turn::Turn;
use record_text::record::{AppRecord, Take};

/// Whether each take of an app's output, of so many words, gave a publication whole: number 0 is zeros, and number
/// N + 1 is what turn N put out. It takes no memory.
pub fn has_whole_outputs(log: &AppRecord, output_words: usize) -> bool
    ensures exact { (setup : Setup) (device : ℕ) → output_words ≡ output_count setup device →
        IsTrue result ↔ HasWholeOutputs setup device log.now }
    ensures widths { IsTrue result → All (λ (t : Turn). length t.output ≡ output_words) log.now.turns →
        All (λ (g : Given). length g.words ≡ output_words) log.now.takes }
{
    takes_are_whole(log.takes(), log.turns(), output_words)
}

/// Whether the input of each of its turns, of so many words, is a publication whole: number 0 is zeros, and number
/// N + 1 is image N. It takes no memory.
pub fn has_whole_inputs(log: &AppRecord, input_words: usize) -> bool
    ensures { (setup : Setup) (device : ℕ) → input_words ≡ input_count setup device →
        IsTrue result ↔ HasWholeInputs setup device log.now }
{
    inputs_are_whole(log.turns(), log.images(), input_words)
}

fn takes_are_whole(takes: &[Take], turns: &[Turn], count: usize) -> bool
    ensures { IsTrue result ↔ All (IsPublished (after_zeros count (map (λ (t : Turn). t.output) turns.now))) takes.now }
{
    for take in takes {
        if !is_output(turns, count, take.taken(), take.words()) {
            return false;
        }
    }
    true
}

fn inputs_are_whole(turns: &[Turn], images: &[Items<u64>], count: usize) -> bool
    ensures { IsTrue result ↔ All (λ (t : Turn). IsPublished (after_zeros count images.now) (input_of t)) turns.now }
{
    for turn in turns {
        if !is_input(images, count, turn.taken, turn.input.as_slice()) {
            return false;
        }
    }
    true
}
