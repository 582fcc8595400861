//! What a cycle takes from each app, and publishes to it.

ghost use Rattle.std.specs.Prelude.{◌≡◌, ◌<◌, ◌^◌, length, slice_set, IfOk};
ghost use Rattle.io_buffers.specs.Given.{given};
ghost use Rattle.io_buffers.specs.Plain.{after_publish, after_take};
ghost use Rattle.iso_run.specs.Ends.{end_at, new_end, offered_from, published_to, takes_from, with_image, with_take};

use io_buffers::ends::Ends;
use io_buffers::plain::PlainExchange;
use io_buffers::taken::Taken;
use irt_base::memory::NoMemory;
use std::alloc::Global;
use std::marker::Model;

/// What an app hands over in a cycle: what a take of its output gives, and the image that was last published to it. A
/// clause sees these, and which of the two was used in the cycle.
#[derive(Drop)]
pub struct AppEnd {
    taken: Taken,
    words: Vec<u64>,
    image: Vec<u64>,
    is_taken: bool,
    is_shown: bool,
}

impl Model for AppEnd {
    ghost use Rattle.io_buffers.specs.Given.{given};
    ghost use Rattle.iso_run.specs.Ends.{EndView};

    ghost Value = { EndView };

    ghost view = { λ e. record {
      offer = given e.taken e.words.items;
      image = e.image.items;
      is_taken = e.is_taken;
      is_shown = e.is_shown;
    } };
}

impl AppEnd {
    /// For an app with so many output and input words. It takes all the memory that it will use.
    pub fn new(alloc: Global, output_words: u16, input_words: u16) -> Result<AppEnd, NoMemory>
        ensures { IfOk result (λ e. e ≡ new_end output_words input_words) }
    {
        Ok(AppEnd {
            taken: Taken {
                number: 0,
                fresh: false,
                in_window: true,
            },
            words: vec![in alloc; 0u64; usize::from(output_words)]?,
            image: vec![in alloc; 0u64; usize::from(input_words)]?,
            is_taken: false,
            is_shown: false,
        })
    }

    /// Offers what the app's output exchange gives, before a cycle.
    pub fn offer(&mut self, output: &mut PlainExchange)
        requires { length self.old.offer.words ≡ length output.old.newest_words }
        ensures offer { self.new ≡ offered_from output.old self.old }
        ensures held { output.new ≡ after_take output.old }
    {
        self.taken = output.take(self.words.as_mut_slice());
        self.is_taken = false;
        self.is_shown = false;
    }

    /// Takes what is offered.
    fn take(&mut self, out: &mut [u64]) -> Taken
        requires { length out.old ≡ length self.old.offer.words }
        ensures given { given result out.new ≡ self.old.offer }
        ensures taken { self.new ≡ with_take self.old }
    {
        out.copy_from_slice(self.words.as_slice());
        self.is_taken = true;
        self.taken
    }

    /// Keeps an image that is published.
    fn publish(&mut self, words: &[u64])
        requires { length words.now ≡ length self.old.image }
        ensures { self.new ≡ with_image words.now self.old }
    {
        self.image.copy_from_slice(words);
        self.is_shown = true;
    }

    /// Publishes the image to the app's input exchange, after a cycle.
    pub fn show(&self, input: &mut PlainExchange)
        requires words { length self.now.image ≡ length input.old.newest_words }
        requires room { input.old.newest < 2 ^ 60 }
        ensures { input.new ≡ after_publish input.old self.now.image }
    {
        input.publish(self.image.as_slice());
    }
}

/// The ends of all apps, in the plant's order.
#[derive(Drop)]
pub struct PlainEnds {
    pub(crate) ends: Vec<AppEnd>,
}

impl Ends for PlainEnds {
    ghost apps = { λ s. length s.ends.items };

    ghost output_words = { λ s n. length (end_at s.ends.items n).offer.words };

    ghost input_words = { λ s n. length (end_at s.ends.items n).image };

    ghost offers = { λ s n. (end_at s.ends.items n).offer };

    ghost takes = { λ s n. takes_from (end_at s.ends.items n) };

    ghost published = { λ s n. published_to (end_at s.ends.items n) };

    fn take(&mut self, app: usize, out: &mut [u64]) -> Taken {
        self.ends[app].take(out)
    }

    fn publish(&mut self, app: usize, words: &[u64]) {
        self.ends[app].publish(words);
    }
}
