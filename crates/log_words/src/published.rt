//! Whether words are the publication of a number.

ghost use Rattle.std.specs.Prelude.{◌≡◌, ◌↔◌, ◌-◌, IsTrue, map, option_map, replicate, slice_get};
ghost use Rattle.io_buffers.specs.Given.{given};
ghost use Rattle.iso_rules.specs.Legal.{IsPublished};
ghost use Rattle.iso_rules.specs.declared.turn.Turn.{Turn};
ghost use Rattle.log_words.specs.Published.{after_zeros, IsZerosOrLater};

use io_buffers::taken::Taken;
use irt_base::list::Items;
use iso_rules::turn::Turn;

/// Whether these words are the publication of an output that a take names: number 0 is zeros, of `count` words, and
/// number N + 1 is what turn N put out.
pub fn is_output(turns: &[Turn], count: usize, taken: Taken, words: &[u64]) -> bool
    ensures { IsTrue result ↔ IsPublished (after_zeros count (map (λ (t : Turn). t.output) turns.now))
        (given taken words.now) }
{
    let later = output_at(turns, place_behind(taken.number));
    is_publication(count, taken.number, later, words)
}

/// The same of an input, where number N + 1 is image N.
pub fn is_input(images: &[Items<u64>], count: usize, taken: Taken, words: &[u64]) -> bool
    ensures { IsTrue result ↔ IsPublished (after_zeros count images.now) (given taken words.now) }
{
    let later = image_at(images, place_behind(taken.number));
    is_publication(count, taken.number, later, words)
}

/// What the turn at a place put out, where there is one.
fn output_at(turns: &[Turn], place: usize) -> Option<&[u64]>
    ensures { option_map (λ s. s.now) result ≡ slice_get (map (λ (t : Turn). t.output) turns.now) place }
{
    match turns.get(place) {
        Some(turn) => Some(turn.output.as_slice()),
        None => None,
    }
}

/// The image at a place, where there is one.
fn image_at(images: &[Items<u64>], place: usize) -> Option<&[u64]>
    ensures { option_map (λ s. s.now) result ≡ slice_get images.now place }
{
    match images.get(place) {
        Some(image) => Some(image.as_slice()),
        None => None,
    }
}

/// The place of a publication among those behind number 0.
fn place_behind(number: u64) -> usize
    ensures { result ≡ number - 1 }
{
    number.saturating_sub(1) as usize
}

/// Whether these words are so many zeros, for number 0, or else the later publication, where there is one.
fn is_publication(count: usize, number: u64, later: Option<&[u64]>, words: &[u64]) -> bool
    ensures { IsTrue result ↔ IsZerosOrLater count number (option_map (λ s. s.now) later.entry) words.now }
{
    if number == 0 {
        return are_zeros(count, words);
    }
    match later {
        Some(publication) => publication == words,
        None => false,
    }
}

/// Whether these words are so many zeros.
fn are_zeros(count: usize, words: &[u64]) -> bool
    ensures { IsTrue result ↔ (words.now ≡ replicate count 0) }
{
    words.len() == count && words.iter().all(|word| *word == 0)
}
