//! What a consumer keeps of one frame.

ghost use Rattle.std.specs.Prelude.{◌≡◌, ◌*◌, ◌<◌, ◌≤◌, length, IfOk};
ghost use Rattle.irt_base.specs.Valid.{IsEntry};
ghost use Rattle.irt_base.specs.Words.{words_of};
ghost use Rattle.irt_base.specs.declared.limits.TheConstants.{WORD_BYTES};
ghost use Rattle.iso_rules.specs.Station.{data_words};
ghost use Rattle.iso_station.specs.Held.{new_held, wants, with_words, ended, shown};

use byteorder::{BigEndian, ByteOrder};
use irt_base::blocks::Entry;
use irt_base::cycles::due;
use irt_base::limits::{HOLD_CYCLES, WORD_BYTES};
use irt_base::memory::NoMemory;
use irt_base::numbers::FrameId;
use std::alloc::Global;
use std::marker::Model;

/// A frame that the device consumes, with what came of it. A clause sees all of it.
#[derive(Drop)]
pub struct HeldFrame {
    entry: Entry,
    words: Vec<u64>,
    misses: u32,
    came: bool,
}

impl Model for HeldFrame {
    ghost use Rattle.std.specs.Prelude.{◌≡◌, ◌≤◌, length};
    ghost use Rattle.irt_base.specs.Valid.{IsEntry};
    ghost use Rattle.irt_base.specs.declared.limits.TheConstants.{HOLD_CYCLES};
    ghost use Rattle.iso_rules.specs.Station.{data_words};
    ghost use Rattle.iso_station.specs.Held.{Held};
    ghost use Rattle.iso_station.specs.Kept.{IsKept};

    ghost Value = { Held };

    ghost view = { λ s. record { entry = s.entry; words = s.words.items; misses = s.misses; came = s.came } };

    ghost invariant = { λ s. IsKept s.entry s.words.items s.misses };
}

impl HeldFrame {
    /// The frame of an entry, of which nothing came yet. It takes all the memory that it will use.
    pub fn new(alloc: Global, entry: &Entry) -> Result<HeldFrame, NoMemory>
        requires { IsEntry entry.now }
        ensures { IfOk result (λ held. held ≡ new_held entry.now) }
    {
        let words = vec![in alloc; 0u64; words_of_data(entry)]?;
        Ok(HeldFrame {
            entry: *entry,
            words,
            misses: HOLD_CYCLES,
            came: false,
        })
    }

    /// Whether it is the frame of this FrameID, with so many bytes of data, and due in cycle `k`.
    pub fn wants(&self, k: u32, frame: FrameId, count: usize) -> bool
        ensures { result ≡ wants k frame.0 count self.now }
    {
        self.entry.frame.0 == frame.0
            && usize::from(self.entry.data_length) == count
            && due(k, self.entry.ratio, self.entry.phase)
    }

    /// The number of its words.
    pub fn count(&self) -> usize
        ensures { result ≡ data_words self.now.entry }
    {
        self.words.len()
    }

    /// Keeps the words of a frame's data, which came in the cycle.
    pub fn put(&mut self, csdu: &[u8])
        requires { length csdu.now ≡ self.old.entry.data_length }
        ensures { self.new ≡ with_words (words_of csdu.now) self.old }
    {
        BigEndian::read_u64_into(csdu, self.words.as_mut_slice());
        self.came = true;
    }

    /// Ends cycle `k`.
    pub fn end(&mut self, k: u32)
        ensures { self.new ≡ ended k self.old }
    {
        if self.came {
            self.misses = 0;
            self.came = false;
        } else if due(k, self.entry.ratio, self.entry.phase) {
            self.misses = (self.misses + 1).min(HOLD_CYCLES);
        }
    }

    /// Writes the words that it gives.
    pub fn show(&self, out: &mut [u64])
        requires { length out.old ≡ data_words self.now.entry }
        ensures { out.new ≡ shown self.now }
    {
        if self.misses < HOLD_CYCLES {
            out.copy_from_slice(self.words.as_slice());
        } else {
            out.fill(0);
        }
    }
}

/// The words of a frame's data.
pub fn words_of_data(entry: &Entry) -> usize
    ensures { result ≡ data_words entry.now }
{
    usize::from(entry.data_length) / WORD_BYTES
}
