//! The core: three rows of words, which of them each side uses, and two numbers.

ghost use Rattle.std.specs.Prelude.{◌≡◌, ◌<◌, ◌^◌, ◌↔◌, IfOk};

use crate::steps::{Seen, Step};
use irt_base::memory::NoMemory;
use std::alloc::Global;
use std::marker::Model;

/// The state of an exchange between two steps. It keeps no publication but the rows themselves; contracts
/// see it as its `Slots`.
#[derive(Drop)]
pub struct Core {
    words: u16,
    cells: Vec<u64>,
    front: usize,
    middle: usize,
    draft: usize,
    fresh: bool,
    ready: bool,
    held: u64,
    newest: u64,
}

impl Model for Core {
    ghost use Rattle.swap_core.specs.Machine.{Slots, IsWhole};

    ghost Value = { Slots };

    ghost view = { λ c.
        record {
          words = c.words;
          cells = c.cells.items;
          front = c.front;
          middle = c.middle;
          draft = c.draft;
          fresh = c.fresh;
          ready = c.ready;
          held = c.held;
          newest = c.newest;
        } };

    ghost invariant = { λ c. IsWhole c.words c.cells.items c.front c.middle c.draft };
}

impl Core {
    ghost use Rattle.swap_core.specs.Machine.{first_slots, after, seen_by, IsRefused};
    ghost use Rattle.swap_core.specs.declared.steps.Seen.TheVariants.{Nothing};
    ghost use Rattle.swap_core.specs.declared.steps.Step.TheVariants.{Store, Publish, Probe, Take, Load};

    /// A core whose rows have so many words. All words are 0, and publication 0 is held.
    pub fn new(alloc: Global, words: u16) -> Result<Core, NoMemory>
        ensures { IfOk result (λ core. core ≡ first_slots words) }
    {
        let cells = vec![in alloc; 0u64; 3 * usize::from(words)]?;
        Ok(Core {
            words,
            cells,
            front: 0,
            middle: 1,
            draft: 2,
            fresh: false,
            ready: false,
            held: 0,
            newest: 0,
        })
    }

    /// Makes one step. It takes no memory.
    pub fn step(&mut self, step: Step) -> Seen
        requires { self.old.newest < 2 ^ 60 }
        ensures slots { self.new ≡ after self.old step }
        ensures seen { result ≡ seen_by self.old step }
        ensures refused { (result ≡ Nothing) ↔ IsRefused self.old step }
        ensures unchanged { result ≡ Nothing → self.new ≡ self.old }
    {
        match step {
            Step::Store { place, word } => self.store(place, word),
            Step::Publish => self.publish(),
            Step::Probe => self.probe(),
            Step::Take => self.take(),
            Step::Load { place } => self.load(place),
        }
    }

    /// The number of the last publication.
    pub fn published(&self) -> u64
        ensures { result ≡ self.now.newest }
    {
        self.newest
    }

    // Writes a word of the draft row.
    fn store(&mut self, place: u16, word: u64) -> Seen
        ensures slots { self.new ≡ after self.old (Store place word) }
        ensures seen { result ≡ seen_by self.old (Store place word) }
    {
        if place >= self.words {
            return Seen::Nothing;
        }
        let index = usize::from(self.words) * self.draft + usize::from(place);
        self.cells[index] = word;
        Seen::Stored
    }

    // Makes the draft row the middle one.
    fn publish(&mut self) -> Seen
        requires { self.old.newest < 2 ^ 60 }
        ensures slots { self.new ≡ after self.old Publish }
        ensures seen { result ≡ seen_by self.old Publish }
    {
        let published = self.draft;
        self.draft = self.middle;
        self.middle = published;
        self.fresh = true;
        self.newest += 1;
        Seen::Published {
            number: self.newest,
        }
    }

    // Says whether the middle row was not taken yet.
    fn probe(&mut self) -> Seen
        ensures slots { self.new ≡ after self.old Probe }
        ensures seen { result ≡ seen_by self.old Probe }
    {
        self.ready = self.fresh;
        Seen::Probed { fresh: self.fresh }
    }

    // Makes the middle row the front one, where a probe announced it.
    fn take(&mut self) -> Seen
        ensures slots { self.new ≡ after self.old Take }
        ensures seen { result ≡ seen_by self.old Take }
    {
        if !self.ready {
            return Seen::Nothing;
        }
        let taken = self.middle;
        self.middle = self.front;
        self.front = taken;
        self.fresh = false;
        self.ready = false;
        self.held = self.newest;
        Seen::Took { number: self.held }
    }

    // Reads a word of the front row.
    fn load(&self, place: u16) -> Seen
        ensures { result ≡ seen_by self.now (Load place) }
    {
        if place >= self.words {
            return Seen::Nothing;
        }
        let index = usize::from(self.words) * self.front + usize::from(place);
        Seen::Word {
            word: self.cells[index],
        }
    }
}
