//! What a run leaves of an app.

ghost use Rattle.std.specs.Prelude.{◌≡◌, ℕ, ◌<◌, [], length, vec_len, IfOk};
ghost use Rattle.iso_plant.specs.History.{PublishesTo, TakesFrom, with_image, with_take};
ghost use Rattle.iso_plant.specs.Room.{HaveWords};
ghost use Rattle.iso_plant.specs.Step.{ends_of};

use io_buffers::ends::Ends;
use irt_base::list::Items;
use irt_base::memory::NoMemory;
use record_text::record::Take;
use std::alloc::Global;
use std::marker::Model;

/// What a run leaves of an app: takes of its output and images published to its input, by cycle. Words for further ones
/// are made beforehand. A clause sees the takes and the images, their widths, and for how many more there is room.
#[derive(Drop)]
pub struct AppHistory {
    takes: Vec<Take>,
    images: Vec<Items<u64>>,
    output_words: u16,
    input_words: u16,
    outputs: Vec<Vec<u64>>,
    inputs: Vec<Vec<u64>>,
}

impl Model for AppHistory {
    ghost use Rattle.std.specs.Prelude.{◌≡◌, ◌≤◌, ◌+◌, vec_len, vec_capacity};
    ghost use Rattle.iso_plant.specs.History.{AppCycles};
    ghost use Rattle.iso_plant.specs.Room.{HaveWords};

    ghost Value = { AppCycles };

    ghost view = { λ s. record {
      takes = s.takes.items;
      images = s.images.items;
      output_words = s.output_words;
      input_words = s.input_words;
      take_room = vec_len s.outputs;
      image_room = vec_len s.inputs;
    } };

    ghost invariant = { λ s.
        HaveWords s.output_words s.outputs.items
        × HaveWords s.input_words s.inputs.items
        × (vec_len s.takes + vec_len s.outputs ≤ vec_capacity s.takes)
        × (vec_len s.images + vec_len s.inputs ≤ vec_capacity s.images) };
}

impl AppHistory {
    /// Of an app, before cycle 0, with room for so many cycles.
    ///
    /// # Errors
    /// `NoMemory` where memory runs out.
    pub(crate) fn new(
        alloc: Global,
        output_words: u16,
        input_words: u16,
        cycles: usize,
    ) -> Result<AppHistory, NoMemory>
        ensures { IfOk result (λ h. h ≡ record {
          takes = [];
          images = [];
          output_words = output_words;
          input_words = input_words;
          take_room = cycles;
          image_room = cycles;
        }) }
    {
        Ok(AppHistory {
            takes: Vec::with_capacity(alloc, cycles)?,
            images: Vec::with_capacity(alloc, cycles)?,
            output_words,
            input_words,
            outputs: zero_words(alloc, output_words, cycles)?,
            inputs: zero_words(alloc, input_words, cycles)?,
        })
    }

    /// The words of the app's output.
    pub fn output_words(&self) -> u16
        ensures { result ≡ self.now.output_words }
    {
        self.output_words
    }

    /// The words of the app's input.
    pub fn input_words(&self) -> u16
        ensures { result ≡ self.now.input_words }
    {
        self.input_words
    }

    /// Takes from the app's exchange, and writes the words taken over `out` too. It takes no memory.
    pub(crate) fn take<E: Ends>(&mut self, app: usize, ends: &mut E, out: &mut Items<u64>)
        requires room { 0 < self.old.take_room }
        requires out { length out.old ≡ self.old.output_words }
        requires app { app < E.apps ends.old }
        requires words { E.output_words ends.old app ≡ self.old.output_words }
        requires fresh { E.takes ends.old app ≡ [] }
        ensures history { self.new ≡ with_take (E.offers ends.old app) self.old }
        ensures width { length (E.offers ends.old app).words ≡ self.old.output_words }
        ensures words { out.new ≡ (E.offers ends.old app).words }
        ensures ends { TakesFrom app
            (ends_of E.apps E.output_words E.input_words E.offers E.takes E.published ends.old)
            (ends_of E.apps E.output_words E.input_words E.offers E.takes E.published ends.new) }
    {
        if let Some(mut words) = self.outputs.pop() {
            let taken = ends.take(app, words.as_mut_slice());
            copy_words(words.as_slice(), out);
            self.takes
                .push_reserved(Take::new(taken, Items::from_vec(words)));
        }
    }

    /// Publishes an image to the app's exchange. It takes no memory.
    pub(crate) fn publish<E: Ends>(&mut self, app: usize, ends: &mut E, image: &[u64])
        requires room { 0 < self.old.image_room }
        requires image { length image.now ≡ self.old.input_words }
        requires app { app < E.apps ends.old }
        requires words { E.input_words ends.old app ≡ self.old.input_words }
        requires fresh { E.published ends.old app ≡ [] }
        ensures history { self.new ≡ with_image image.now self.old }
        ensures ends { PublishesTo app image.now
            (ends_of E.apps E.output_words E.input_words E.offers E.takes E.published ends.old)
            (ends_of E.apps E.output_words E.input_words E.offers E.takes E.published ends.new) }
    {
        if let Some(mut words) = self.inputs.pop() {
            ends.publish(app, image);
            words.copy_from_slice(image);
            self.images.push_reserved(Items::from_vec(words));
        }
    }

    /// The takes and the images. It takes no memory.
    pub fn into_lists(self) -> (Items<Take>, Items<Items<u64>>)
        ensures takes { result.0 ≡ self.takes }
        ensures images { result.1 ≡ self.images }
    {
        let AppHistory { takes, images, .. } = self;
        (Items::from_vec(takes), Items::from_vec(images))
    }
}

/// So many lists of so many zeros.
fn zero_words(alloc: Global, words: u16, count: usize) -> Result<Vec<Vec<u64>>, NoMemory>
    ensures words { IfOk result (λ lists. HaveWords words lists.items) }
    ensures count { IfOk result (λ lists. vec_len lists ≡ count) }
{
    let mut lists = Vec::with_capacity(alloc, count)?;
    for _ in 0..count {
        let zeros = vec![in alloc; 0u64; usize::from(words)]?;
        lists.push(zeros)?;
    }
    Ok(lists)
}

/// Writes words over a list of as many.
fn copy_words(words: &[u64], out: &mut Items<u64>)
    requires { length out.old ≡ length words.now }
    ensures { out.new ≡ words.now }
{
    for index in 0..words.len() {
        out.set(index, words[index]);
    }
}
