//! What is taken from the apps of a record in a cycle, and what is published to them.

ghost use Rattle.std.specs.Prelude.{◌≡◌, ◌<◌, length};
ghost use Rattle.io_buffers.specs.Given.{given};
ghost use Rattle.iso_run.specs.Ends.{end_at, published_to, takes_from, with_image, with_take};
ghost use Rattle.run_replay.specs.Cycle.{fresh_end};

use io_buffers::ends::Ends;
use io_buffers::taken::Taken;
use record_text::record::Take;
use std::marker::Model;

/// An app in a cycle: the take that the record has of it, and room for the image. A clause sees these, and which of the
/// two was used.
#[derive(Drop)]
pub struct PlayedEnd<'a> {
    take: &'a Take,
    image: Vec<u64>,
    is_taken: bool,
    is_shown: bool,
}

impl<'a> Model for PlayedEnd<'a> {
    ghost use Rattle.iso_run.specs.Ends.{EndView};

    ghost Value = { EndView };

    ghost view = { λ e. record {
      offer = e.take.now;
      image = e.image.items;
      is_taken = e.is_taken;
      is_shown = e.is_shown;
    } };
}

impl<'a> PlayedEnd<'a> {
    /// An app before the cycle. `image` has as many words as its input.
    pub fn new(take: &'a Take, image: Vec<u64>) -> PlayedEnd<'a>
        ensures { result ≡ fresh_end take.now image.items }
    {
        PlayedEnd {
            take,
            image,
            is_taken: false,
            is_shown: false,
        }
    }

    /// Takes what the record has.
    fn take(&mut self, out: &mut [u64]) -> Taken
        requires { length out.old ≡ length self.old.offer.words }
        ensures given { given result out.new ≡ self.old.offer }
        ensures taken { self.new ≡ with_take self.old }
    {
        out.copy_from_slice(self.take.words());
        self.is_taken = true;
        self.take.taken()
    }

    /// Keeps the image.
    fn publish(&mut self, words: &[u64])
        requires { length words.now ≡ length self.old.image }
        ensures { self.new ≡ with_image words.now self.old }
    {
        self.image.copy_from_slice(words);
        self.is_shown = true;
    }
}

/// The apps of a record in a cycle, in the plant's order.
#[derive(Drop)]
pub struct CycleEnds<'a> {
    pub(crate) ends: Vec<PlayedEnd<'a>>,
}

impl<'a> Ends for CycleEnds<'a> {
    ghost apps = { λ s. length s.ends.items };

    ghost output_words = { λ s n. length (end_at s.ends.items n).offer.words };

    ghost input_words = { λ s n. length (end_at s.ends.items n).image };

    ghost offers = { λ s n. (end_at s.ends.items n).offer };

    ghost takes = { λ s n. takes_from (end_at s.ends.items n) };

    ghost published = { λ s n. published_to (end_at s.ends.items n) };

    fn take(&mut self, app: usize, out: &mut [u64]) -> Taken {
        self.ends[app].take(out)
    }

    fn publish(&mut self, app: usize, words: &[u64]) {
        self.ends[app].publish(words);
    }
}
