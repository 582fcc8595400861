//! The exchange of two threads, over single atomic steps on words.
//!
//! Word 0 is the control word: the middle slot in its two lowest bits, then the bit fresh, and from bit 3
//! the number of the middle row's publication where it is fresh, else 0. The rows of the slots 0, 1 and 2
//! stand behind it. The producer alone writes the draft row and the consumer alone reads the front row; each
//! changes its slot for the middle one by one swap of the control word, so neither ever waits.

ghost use Rattle.std.specs.Prelude.{◌≡◌, ◌+◌, ◌*◌, ◌-◌, ◌<◌, ◌≤◌, ◌^◌, [], length, min};
ghost use Rattle.io_buffers.specs.Steps.{steps_in, draft_of, part_of, published_in, front_of, held_in, takes_in};
ghost use Rattle.io_buffers.specs.declared.views.View.TheVariants.{Producer, Consumer};
ghost use Rattle.irt_base.specs.declared.limits.TheConstants.{MAX_WORDS};

use crate::control::{fresh_control, is_fresh, middle_of, number_of};
use crate::rows::{load_words, store_words};
use crate::taken::Taken;
use crate::views::{Cut, End, Glue, Probe, Publish, Take, ThreeSlots, View};
use atomic_table::{Seat, Table};
use irt_base::memory::NoMemory;
use std::alloc::Global;

/// An exchange that two threads share. Rows have at most one word more than a device's input or output.
#[derive(Drop)]
pub struct Exchange {
    table: Table<u8, View, u16, ThreeSlots, Global>,
    words: usize,
    ghost sized: { table.shared.table_id.words ≡ 1 + 3 * words },
    ghost slotless: { table.shared.table_id.slots ≡ 0 },
    ghost keyed: { table.shared.key ≡ words },
    ghost small: { words ≤ MAX_WORDS + 1 },
}

/// The right to publish. It has no bytes on the table, and may go to another thread.
#[derive(Drop)]
pub struct ProducerPass {
    seat: Seat<u8, View>,
    draft: usize,
    count: u64,
    ghost seated: { seat.me ≡ (Producer (steps_in seat.me.0), []) },
    ghost drafted: { draft ≡ draft_of (steps_in seat.me.0) },
    ghost slot: { draft < 3 },
    ghost counted: { count ≡ length (published_in (steps_in seat.me.0)) },
    ghost empty: { part_of (steps_in seat.me.0) ≡ [] },
}

/// The right to take. It may go to another thread.
#[derive(Drop)]
pub struct ConsumerPass {
    seat: Seat<u8, View>,
    front: usize,
    held: u64,
    taken: u64,
    ghost seated: { seat.me ≡ (Consumer (steps_in seat.me.0), []) },
    ghost fronted: { front ≡ front_of (steps_in seat.me.0) },
    ghost slot: { front < 3 },
    ghost holds: { held ≡ held_in (steps_in seat.me.0) },
    ghost counted: { taken ≡ min (length (takes_in (steps_in seat.me.0))) (2 ^ 64 - 1) },
}

/// What an exchange has seen in all.
#[derive(Clone, Copy, Debug, PartialEq, Eq)]
pub struct Closed {
    /// The number of publications, zeros not counted.
    pub published: u64,
    /// The number of takes; a count past the type's end stands there.
    pub taken: u64,
}

impl Exchange {
    ghost use Rattle.std.specs.Prelude.{IfOk, ◌++◌, ◌∷◌, ℕ, nat_lt};
    ghost use Rattle.std.specs.List.{AllByRecursion};
    ghost use Rattle.io_buffers.specs.Given.{given};
    ghost use Rattle.io_buffers.specs.Steps.{with_stores, with_look, fresh_in, NeverFell};
    ghost use Rattle.io_buffers.specs.declared.views.Made.TheVariants.{Published};
    ghost use Rattle.io_buffers.specs.Passes.{width_of, producer_steps, consumer_steps, published_by, taken_by, publications, IsTake, IsOfPublication, IsProducerOf, IsConsumerOf, IsSameProducer, IsSameConsumer};

    // As `exchange` says.
    pub(crate) fn open(
        alloc: Global,
        words: u16,
    ) -> Result<(Exchange, ProducerPass, ConsumerPass), NoMemory>
        requires { words ≤ MAX_WORDS + 1 }
        ensures width { IfOk result (λ made. width_of made.0 ≡ words) }
        ensures producer { IfOk result (λ made. IsProducerOf made.0 made.1 × (producer_steps made.1 ≡ [])) }
        ensures consumer { IfOk result (λ made. IsConsumerOf made.0 made.2 × (consumer_steps made.2 ≡ [])) }
    {
        let mut opening = vec![in alloc; 0u64; 1 + 3 * usize::from(words)]?;
        opening[0] = 1;
        let (table, mut seat) = Table::of_words(alloc, opening.as_slice(), &words)?;
        let other = table.shared.split_seat::<Cut>(&mut seat);
        Ok((
            Exchange {
                table,
                words: usize::from(words),
            },
            ProducerPass {
                seat,
                draft: 2,
                count: 0,
            },
            ConsumerPass {
                seat: other,
                front: 0,
                held: 0,
                taken: 0,
            },
        ))
    }

    /// The number of words of a publication.
    pub fn width(&self) -> usize
        ensures { result ≡ width_of self.now }
    {
        self.words
    }

    /// Stores each word, and makes them the newest publication by one swap: one step more than there are
    /// words. It takes no memory and waits for nobody.
    pub fn publish(&self, pass: &mut ProducerPass, words: &[u64])
        requires own { IsProducerOf self.now pass.old }
        requires words { length words.now ≡ width_of self.now }
        requires room { length (published_by pass.old) < 2 ^ 60 }
        ensures own { IsSameProducer pass.old pass.new }
        ensures steps { (found : ℕ)
            × (producer_steps pass.new ≡ Published found ∷ with_stores 0 words.now (producer_steps pass.old)) }
        ensures count { length (producer_steps pass.new)
            ≡ length (producer_steps pass.old) + (length words.now + 1) }
        ensures published { published_by pass.new ≡ published_by pass.old ++ words.now ∷ [] }
    {
        store_words(&self.table.shared, &mut pass.seat, pass.draft, words);
        let new = fresh_control(pass.draft, pass.count + 1);
        let found = self.table.shared.swap::<Publish>(&mut pass.seat, 0, new);
        pass.draft = middle_of(found);
        pass.count += 1;
    }

    /// Looks for a newer publication than the one held and takes it by one swap where there is one, loads
    /// the words held into `out`, and looks once more: at most three steps more than there are words. It is
    /// fresh exactly where the first look found a newer one, and then its number is greater than the one held;
    /// it is in its window exactly where the last look found none. It takes no memory and waits for nobody.
    pub fn take(&self, pass: &mut ConsumerPass, out: &mut [u64]) -> Taken
        requires own { IsConsumerOf self.now pass.old }
        requires words { length out.old ≡ width_of self.now }
        ensures own { IsSameConsumer pass.old pass.new }
        ensures steps { IsTake (consumer_steps pass.old) (consumer_steps pass.new) (given result out.new) }
        ensures count { length (consumer_steps pass.new)
            ≤ length (consumer_steps pass.old) + (length out.old + 3) }
        ensures number { result.number ≡ held_in (consumer_steps pass.new) }
        ensures rises { result.fresh ≡ nat_lt (held_in (consumer_steps pass.old)) result.number }
        ensures taken { taken_by pass.new ≡ taken_by pass.old ++ given result out.new ∷ [] }
    {
        let fresh = self.look(pass);
        load_words(&self.table.shared, &mut pass.seat, pass.front, out);
        let last = self.table.shared.load::<End>(&mut pass.seat, 0);
        pass.taken = pass.taken.saturating_add(1);
        Taken {
            number: pass.held,
            fresh,
            in_window: !is_fresh(last),
        }
    }

    // Looks for a newer publication and takes it where there is one, and says whether there was.
    fn look(&self, pass: &mut ConsumerPass) -> bool
        requires { IsConsumerOf self.now pass.old }
        ensures own { IsSameConsumer pass.old pass.new }
        ensures steps { (first old : ℕ)
            × (result ≡ fresh_in first)
            × (consumer_steps pass.new ≡ with_look first old (consumer_steps pass.old)) }
        ensures rises { result
            ≡ nat_lt (held_in (consumer_steps pass.old)) (held_in (consumer_steps pass.new)) }
    {
        let found = self.table.shared.load::<Probe>(&mut pass.seat, 0);
        if !is_fresh(found) {
            return false;
        }
        let old = self
            .table
            .shared
            .swap::<Take>(&mut pass.seat, 0, pass.front as u64);
        pass.front = middle_of(old);
        pass.held = number_of(old);
        true
    }

    /// Ends the exchange, and tells what joins both sides: every take was the publication of its number,
    /// whole, numbers never fell, and a take that was not in its window has a number below the last one.
    pub fn close(self, producer: ProducerPass, consumer: ConsumerPass) -> Closed
        requires producer { IsProducerOf self producer }
        requires consumer { IsConsumerOf self consumer }
        ensures published { result.published ≡ length (published_by producer) }
        ensures taken { result.taken ≡ min (length (taken_by consumer)) (2 ^ 64 - 1) }
        ensures each { AllByRecursion
            (IsOfPublication (publications (width_of self) (producer_steps producer)))
            (taken_by consumer) }
        ensures risen { NeverFell (taken_by consumer) }
    {
        let Exchange { table, words: _ } = self;
        let ProducerPass {
            mut seat,
            draft: _,
            count,
        } = producer;
        let ConsumerPass {
            seat: other,
            front: _,
            held: _,
            taken,
        } = consumer;
        table.shared.join_seat::<Glue>(&mut seat, other);
        let closed = table.close_with(seat);
        closed.free();
        Closed {
            published: count,
            taken,
        }
    }
}

impl ProducerPass {
    ghost use Rattle.io_buffers.specs.Passes.{published_by};

    /// The number of publications made with this pass.
    pub fn count(&self) -> u64
        ensures { result ≡ length (published_by self.now) }
    {
        self.count
    }
}

impl ConsumerPass {
    ghost use Rattle.io_buffers.specs.Passes.{consumer_steps};

    /// The number of the publication held, which the last take gave.
    pub fn held(&self) -> u64
        ensures { result ≡ held_in (consumer_steps self.now) }
    {
        self.held
    }
}
