//! The exchange on one thread.

ghost use Rattle.std.specs.Prelude.{◌≡◌, ◌<◌, ◌^◌, length, IfOk};

use crate::taken::Taken;
use irt_base::memory::NoMemory;
use std::alloc::Global;
use std::marker::Model;

/// An exchange whose producer and consumer take turns. It keeps two publications, the one held and the
/// newest one; contracts see it as its `Plain`.
#[derive(Drop)]
pub struct PlainExchange {
    held_words: Vec<u64>,
    newest_words: Vec<u64>,
    held: u64,
    newest: u64,
}

impl Model for PlainExchange {
    ghost use Rattle.io_buffers.specs.Plain.{Plain, IsKept};

    ghost Value = { Plain };

    ghost view = { λ e.
        record {
          held = e.held;
          held_words = e.held_words.items;
          newest = e.newest;
          newest_words = e.newest_words.items;
        } };

    ghost invariant = { λ e. IsKept e.held e.held_words.items e.newest e.newest_words.items };
}

impl PlainExchange {
    ghost use Rattle.io_buffers.specs.Plain.{first_plain, after_publish, after_take, taken_from};

    /// An exchange of so many words. Publication 0, all zeros, is held.
    pub fn new(alloc: Global, words: u16) -> Result<PlainExchange, NoMemory>
        ensures { IfOk result (λ exchange. exchange ≡ first_plain words) }
    {
        let held_words = vec![in alloc; 0u64; usize::from(words)]?;
        let newest_words = vec![in alloc; 0u64; usize::from(words)]?;
        Ok(PlainExchange {
            held_words,
            newest_words,
            held: 0,
            newest: 0,
        })
    }

    /// Makes the words the newest publication. It takes no memory.
    pub fn publish(&mut self, words: &[u64])
        requires words { length words.now ≡ length self.old.newest_words }
        requires room { self.old.newest < 2 ^ 60 }
        ensures { self.new ≡ after_publish self.old words.now }
    {
        self.newest_words.copy_from_slice(words);
        self.newest += 1;
    }

    /// Takes the newest publication and writes its words into `out`. It takes no memory.
    pub fn take(&mut self, out: &mut [u64]) -> Taken
        requires { length out.old ≡ length self.old.newest_words }
        ensures words { out.new ≡ self.old.newest_words }
        ensures taken { result ≡ taken_from self.old }
        ensures held { self.new ≡ after_take self.old }
    {
        out.copy_from_slice(self.newest_words.as_slice());
        self.held_words
            .copy_from_slice(self.newest_words.as_slice());
        let fresh = self.held < self.newest;
        self.held = self.newest;
        Taken {
            number: self.held,
            fresh,
            in_window: true,
        }
    }
}
