//! What a run leaves behind.

ghost use Rattle.std.specs.Prelude.{◌≡◌, OnOk};
ghost use Rattle.record_text.specs.Grown.{with_image, with_take, with_turn};

use cycle_rows::rows::JournalRow;
use io_buffers::taken::Taken;
use irt_base::list::Items;
use irt_base::memory::NoMemory;
use iso_rules::turn::Turn;
use std::marker::Model;

/// What was taken from an app's output exchange, with the words. A clause sees both.
#[derive(Drop)]
pub struct Take {
    taken: Taken,
    words: Items<u64>,
}

impl Model for Take {
    ghost use Rattle.io_buffers.specs.Given.{Given};

    ghost Value = { Given };

    ghost view = { λ t. record { taken = t.taken; words = t.words } };
}

impl Take {
    pub fn new(taken: Taken, words: Items<u64>) -> Take
        ensures { result ≡ record { taken = taken; words = words } }
    {
        Take { taken, words }
    }

    /// The answer of the take.
    pub fn taken(&self) -> Taken
        ensures { result ≡ self.now.taken }
    {
        self.taken
    }

    /// The words taken.
    pub fn words(&self) -> &[u64]
        ensures { result.now ≡ self.now.words }
    {
        self.words.as_slice()
    }
}

/// What a record has of an app: takes of its output and images published to its input, each by cycle, and its turns by
/// number. A clause sees the three lists.
#[derive(Drop)]
pub struct AppRecord {
    takes: Items<Take>,
    images: Items<Items<u64>>,
    turns: Items<Turn>,
}

impl Model for AppRecord {
    ghost use Rattle.iso_rules.specs.Lockstep.{AppLog};

    ghost Value = { AppLog };

    ghost view = { λ a. record { takes = a.takes; images = a.images; turns = a.turns } };
}

impl AppRecord {
    pub fn new(takes: Items<Take>, images: Items<Items<u64>>, turns: Items<Turn>) -> AppRecord
        ensures { result ≡ record { takes = takes; images = images; turns = turns } }
    {
        AppRecord {
            takes,
            images,
            turns,
        }
    }

    /// Adds a take.
    pub fn push_take(&mut self, take: Take) -> Result<(), NoMemory>
        ensures { OnOk result (self.new ≡ with_take self.old take) }
    {
        self.takes.push(take)?;
        Ok(())
    }

    /// Adds an image.
    pub fn push_image(&mut self, words: Items<u64>) -> Result<(), NoMemory>
        ensures { OnOk result (self.new ≡ with_image self.old words) }
    {
        self.images.push(words)?;
        Ok(())
    }

    /// Adds a turn.
    pub fn push_turn(&mut self, turn: Turn) -> Result<(), NoMemory>
        ensures { OnOk result (self.new ≡ with_turn self.old turn) }
    {
        self.turns.push(turn)?;
        Ok(())
    }

    /// The takes of its output, by cycle.
    pub fn takes(&self) -> &[Take]
        ensures { result.now ≡ self.now.takes }
    {
        self.takes.as_slice()
    }

    /// The images published to its input, by cycle.
    pub fn images(&self) -> &[Items<u64>]
        ensures { result.now ≡ self.now.images }
    {
        self.images.as_slice()
    }

    /// Its turns, by number.
    pub fn turns(&self) -> &[Turn]
        ensures { result.now ≡ self.now.turns }
    {
        self.turns.as_slice()
    }
}

/// The record of a run over so many cycles: of each app, in the plant's order, and the journal.
#[derive(Drop)]
pub struct Record {
    pub cycles: u32,
    pub apps: Items<AppRecord>,
    pub journal: Items<JournalRow>,
}
