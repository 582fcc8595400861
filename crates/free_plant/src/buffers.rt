//! What a cycle takes from each app, and publishes to it.

ghost use Rattle.std.specs.Prelude.{◌≡◌, ◌+◌, ◌<◌, IsTrue, length, IfOk};
ghost use Rattle.io_buffers.specs.Given.{given};
ghost use Rattle.free_plant.specs.Buffers.{IsFilled, as_shown, as_taken, buffer_at, new_buffer, published_to, takes_from, whole_take};
ghost use Rattle.free_plant.specs.Named.{output_width};
ghost use Rattle.take_lists.specs.Takes.{IsNearTake};

use crate::naming::Naming;
use crate::ports::Port;
use crate::wires::Wire;
use io_buffers::ends::Ends;
use io_buffers::taken::Taken;
use irt_base::limits::MAX_SLIP;
use irt_base::memory::NoMemory;
use std::alloc::Global;
use std::marker::Model;

/// What an app hands over in a cycle, and what is published to it. A clause sees the take without its further word, that word,
/// the image, and which of the two was used.
#[derive(Drop)]
pub struct Buffer {
    taken: Taken,
    row: Vec<u64>,
    image: Vec<u64>,
    is_taken: bool,
    is_shown: bool,
}

impl Model for Buffer {
    ghost use Rattle.std.specs.Prelude.{◌≤◌, length};
    ghost use Rattle.io_buffers.specs.Given.{given};
    ghost use Rattle.take_lists.specs.Takes.{front_words, last_word};
    ghost use Rattle.free_plant.specs.Buffers.{BufferView};

    ghost Value = { BufferView };

    ghost view = { λ b. record {
      offer = given b.taken (front_words b.row.items);
      further = last_word b.row.items;
      image = b.image.items;
      is_taken = b.is_taken;
      is_shown = b.is_shown;
    } };

    ghost invariant = { λ b. 1 ≤ length b.row.items };
}

impl Buffer {
    /// For an app with so many output and input words. It takes all the memory that it will use.
    ///
    /// # Errors
    /// `NoMemory` where memory runs out.
    pub fn new(alloc: Global, output_words: u16, input_words: u16) -> Result<Buffer, NoMemory>
        ensures { IfOk result (λ b. b ≡ new_buffer output_words input_words) }
    {
        Ok(Buffer {
            taken: Taken {
                number: 0,
                fresh: false,
                in_window: true,
            },
            row: vec![in alloc; 0u64; usize::from(output_words) + 1]?,
            image: vec![in alloc; 0u64; usize::from(input_words)]?,
            is_taken: false,
            is_shown: false,
        })
    }

    /// Takes from the app's output, and keeps what is to be recorded of the take.
    pub fn fill<N: Naming>(&mut self, port: &mut Port<N>, wire: &Wire<N>)
        requires app { port.old.number ≡ wire.now }
        requires words { length self.old.offer.words ≡ output_width N.start wire.now }
        ensures { IsFilled port.old port.new self.old self.new }
    {
        let taken = port.take(wire, self.row.as_mut_slice());
        self.taken = Taken {
            number: taken.number,
            fresh: port.last() < taken.number,
            in_window: taken.in_window,
        };
        self.is_taken = false;
        self.is_shown = false;
    }

    /// Whether the take may be recorded in cycle `k`.
    pub fn is_near(&self, k: u32) -> bool
        ensures { IsTrue result → IsNearTake k (whole_take self.now) }
    {
        let k = u64::from(k);
        let slip = u64::from(MAX_SLIP);
        if self.taken.number == 0 {
            k <= slip
        } else {
            let further = self.row[self.row.len() - 1];
            further <= k && k - further <= slip
        }
    }

    /// The number of the take.
    pub fn number(&self) -> u64
        ensures { result ≡ self.now.offer.taken.number }
    {
        self.taken.number
    }

    /// The words of the image.
    pub fn image(&self) -> &[u64]
        ensures { result.now ≡ self.now.image }
    {
        self.image.as_slice()
    }

    /// Hands the take over.
    fn take(&mut self, out: &mut [u64]) -> Taken
        requires { length out.old ≡ length self.old.offer.words }
        ensures given { given result out.new ≡ self.old.offer }
        ensures taken { self.new ≡ as_taken self.old }
    {
        out.copy_from_slice(&self.row[..out.len()]);
        self.is_taken = true;
        self.taken
    }

    /// Keeps an image that is published.
    fn publish(&mut self, words: &[u64])
        requires { length words.now ≡ length self.old.image }
        ensures { self.new ≡ as_shown words.now self.old }
    {
        self.image.copy_from_slice(words);
        self.is_shown = true;
    }
}

/// Those of all apps, in the plant's order.
#[derive(Drop)]
pub struct Buffers {
    pub(crate) apps: Vec<Buffer>,
}

impl Ends for Buffers {
    ghost apps = { λ s. length s.apps.items };

    ghost output_words = { λ s n. length (buffer_at s.apps.items n).offer.words };

    ghost input_words = { λ s n. length (buffer_at s.apps.items n).image };

    ghost offers = { λ s n. (buffer_at s.apps.items n).offer };

    ghost takes = { λ s n. takes_from (buffer_at s.apps.items n) };

    ghost published = { λ s n. published_to (buffer_at s.apps.items n) };

    fn take(&mut self, app: usize, out: &mut [u64]) -> Taken {
        self.apps[app].take(out)
    }

    fn publish(&mut self, app: usize, words: &[u64]) {
        self.apps[app].publish(words);
    }
}
