//! An application of a lockstep run.

ghost use Rattle.std.specs.Prelude.{◌≡◌, ◌<◌, ◌^◌, length, IfOk, OnOk};
ghost use Rattle.iso_run.specs.Apps.{new_app, with_offer, with_input, IsReady, IsTurned, IsTurnedUnlessFailed};
ghost use Rattle.iso_run.specs.Ends.{offered_from};

use crate::ends::AppEnd;
use io_buffers::plain::PlainExchange;
use irt_base::list::Items;
use irt_base::memory::NoMemory;
use iso_app::IsoApp;
use iso_app::seal::seal;
use iso_rules::turn::Turn;
use std::alloc::Global;

/// An application with its exchanges and its turns so far.
#[derive(Drop)]
pub struct LockstepApp<A> {
    pub(crate) app: A,
    /// The words of each frame that its device provides.
    pub(crate) lengths: Items<u16>,
    pub(crate) output: PlainExchange,
    pub(crate) input: PlainExchange,
    pub(crate) output_words: u16,
    pub(crate) input_words: u16,
    pub(crate) turns: Items<Turn>,
    /// Memory ran out in its last turn.
    pub(crate) failed: bool,
}

impl<A: Drop> LockstepApp<A> {
    /// An application before its first turn.
    pub fn new(
        alloc: Global,
        app: A,
        lengths: Items<u16>,
        output_words: u16,
        input_words: u16,
    ) -> Result<LockstepApp<A>, NoMemory>
        ensures { IfOk result (λ a. a ≡ new_app app lengths output_words input_words) }
    {
        Ok(LockstepApp {
            app,
            lengths,
            output: PlainExchange::new(alloc, output_words)?,
            input: PlainExchange::new(alloc, input_words)?,
            output_words,
            input_words,
            turns: Items::new(alloc),
            failed: false,
        })
    }

    /// Offers its output, before a cycle.
    pub fn offer(&mut self, end: &mut AppEnd)
        requires { length end.old.offer.words ≡ length self.old.output.newest_words }
        ensures app { self.new ≡ with_offer self.old }
        ensures end { end.new ≡ offered_from self.old.output end.old }
    {
        end.offer(&mut self.output);
    }

    /// Publishes an image to its input, after a cycle.
    pub fn show(&mut self, end: &AppEnd)
        requires words { length end.now.image ≡ length self.old.input.newest_words }
        requires room { self.old.input.newest < 2 ^ 60 }
        ensures { self.new ≡ with_input end.now.image self.old }
    {
        end.show(&mut self.input);
    }
}

impl<A: IsoApp> LockstepApp<A> {
    /// Makes a turn, which finds so many cycles done: takes from its input, and publishes the reply, sealed, to its
    /// output.
    fn turn(&mut self, alloc: Global, found: u32) -> Result<(), NoMemory>
        requires { IsReady self.old }
        ensures { OnOk result (IsTurned A.reply A.next_state found self.old self.new) }
    {
        let mut input = vec![in alloc; 0u64; usize::from(self.input_words)]?;
        let mut output = vec![in alloc; 0u64; usize::from(self.output_words)]?;
        let taken = self.input.take(input.as_mut_slice());
        self.app.turn(input.as_slice(), output.as_mut_slice());
        seal(output.as_mut_slice(), self.lengths.as_slice());
        self.output.publish(output.as_slice());
        self.turns.push(Turn {
            found,
            taken,
            input: Items::from_vec(input),
            output: Items::from_vec(output),
        })?;
        self.failed = false;
        Ok(())
    }

    /// The same. Want of memory is kept.
    pub fn turn_kept(&mut self, alloc: Global, found: u32)
        requires { IsReady self.old }
        ensures { IsTurnedUnlessFailed A.reply A.next_state found self.old self.new }
    {
        if self.turn(alloc, found).is_err() {
            self.failed = true;
        }
    }
}
