//! An app of a free run, with its turns.

ghost use Rattle.std.specs.Prelude.{◌≡◌, ◌+◌, ◌++◌, ◌∷◌, ◌<◌, ◌≤◌, ℕ, List, [], Some, OnOk, map, slice_get, vec_capacity, vec_len};
ghost use Rattle.io_buffers.specs.Given.{given};
ghost use Rattle.io_buffers.specs.Passes.{IsSameConsumer, consumer_table, published_by, taken_by};
ghost use Rattle.irt_base.specs.declared.limits.TheConstants.{MAX_CYCLES};
ghost use Rattle.iso_app.specs.Sealed.{sealed};
ghost use Rattle.iso_rules.specs.Legal.{input_of};
ghost use Rattle.free_plant.specs.Named.{IsAppSide, app_count, cycles_of, frame_widths, input_width};
ghost use Rattle.free_jobs.specs.Jobs.{HasTurned, TakesUpTo, new_job};
ghost use Rattle.take_lists.specs.Rows.{output_row};
ghost use Rattle.take_lists.specs.Takes.{AreSomeOf};

use crate::firsts::Firsts;
use free_plant::naming::Naming;
use free_plant::wires::Wire;
use io_buffers::shared::{ConsumerPass, ProducerPass};
use io_buffers::taken::Taken;
use irt_base::list::Items;
use irt_base::memory::NoMemory;
use iso_app::IsoApp;
use iso_app::seal::seal;
use iso_rules::turn::Turn;
use std::alloc::Global;
use std::marker::{Model, PhantomData};
use std::sync::Wait;

/// An app with the consumer of its input, the producer of its output, and its turns so far. A clause sees its number, how
/// many cycles its last turn found, and the turns.
#[derive(Drop)]
pub struct Job<A: IsoApp, N: Naming + Firsts<A>> {
    number: usize,
    app: A,
    /// The words of each frame that its device provides.
    lengths: Items<u16>,
    taker: ConsumerPass,
    giver: ProducerPass,
    turns: Vec<Turn>,
    found: u32,
    last: u64,
    of: PhantomData<N>,
}

impl<A: IsoApp, N: Naming + Firsts<A>> Model for Job<A, N> {
    ghost use Rattle.free_jobs.specs.Jobs.{IsJob, JobView};

    ghost Value = { JobView };

    ghost view = { λ j. record { number = j.number; found = j.found; turns = j.turns.items } };

    ghost invariant = { λ j. IsJob A.IsoApp.reply A.IsoApp.next_state N.firsts N.inputs N.outputs N.start
        j.number j.app j.lengths j.taker j.giver j.turns.items j.found j.last };
}

impl<A: IsoApp, N: Naming + Firsts<A>> Job<A, N> {
    /// An app before its first turn. `lengths` has the words of each frame that its device provides.
    pub fn new(
        alloc: Global,
        number: usize,
        app: A,
        lengths: Items<u16>,
        taker: ConsumerPass,
        giver: ProducerPass,
    ) -> Job<A, N>
        requires first { slice_get N.firsts number ≡ Some app }
        requires below { number < app_count N.start }
        requires few { cycles_of N.start ≤ MAX_CYCLES }
        requires lengths { lengths ≡ frame_widths N.start number }
        requires side { IsAppSide N.inputs N.outputs number taker giver }
        requires untaken { taken_by taker ≡ [] }
        requires unpublished { published_by giver ≡ [] }
        ensures { result ≡ new_job number }
    {
        Job {
            number,
            app,
            lengths,
            taker,
            giver,
            turns: Vec::new(alloc),
            found: 0,
            last: 0,
            of: PhantomData,
        }
    }

    /// The app's number.
    pub fn number(&self) -> usize
        ensures number { result ≡ self.now.number }
        ensures below { result < app_count N.start }
    {
        self.number
    }

    /// How many cycles the last turn found done.
    pub fn found(&self) -> u32
        ensures { result ≡ self.now.found }
    {
        self.found
    }

    /// Makes a turn, which finds so many cycles done: takes from the app's input until it is as new, and publishes the
    /// reply, sealed, with the number of the input as a further word.
    ///
    /// # Errors
    /// `NoMemory` where memory runs out. Then the app made no turn.
    pub fn turn<R: Wait>(
        &mut self,
        rt: &R,
        alloc: Global,
        wire: &Wire<N>,
        found: u32,
    ) -> Result<(), NoMemory>
        requires app { self.old.number ≡ wire.now }
        requires later { self.old.found < found }
        requires within { found ≤ cycles_of N.start }
        ensures number { self.new.number ≡ self.old.number }
        ensures found { OnOk result (self.new.found ≡ found) }
    {
        self.turns.reserve(1)?;
        let mut input = vec![in alloc; 0u64; wire.input_words()]?;
        let mut row = vec![in alloc; 0u64; wire.row_words() - 1]?;
        row.reserve(1)?;
        let taken = take_late(rt, wire, &mut self.taker, u64::from(found), &mut input);
        put_reply(
            &mut self.app,
            input.as_slice(),
            self.lengths.as_slice(),
            taken.number,
            &mut row,
        );
        wire.publish_output(&mut self.giver, row.as_slice());
        self.turns.push_reserved(Turn {
            found,
            taken: Taken {
                number: taken.number,
                fresh: self.last < taken.number,
                in_window: taken.in_window,
            },
            input: Items::from_vec(input),
            output: front(row),
        });
        self.found = found;
        self.last = taken.number;
        Ok(())
    }

    /// The turns, and the two passes, of which the first one takes and the second one publishes.
    pub fn into_passes(self) -> (Items<Turn>, ConsumerPass, ProducerPass)
        ensures turns { result.0 ≡ self.turns }
        ensures side { IsAppSide N.inputs N.outputs self.number result.1 result.2 }
        ensures takes { AreSomeOf (map input_of self.turns) (taken_by result.1) }
        ensures published { published_by result.2 ≡ map output_row self.turns }
        ensures turned { (after : A) × (last : ℕ)
            × HasTurned A.reply A.next_state N.firsts N.start self.number self.found self.turns after last }
    {
        let Job {
            number: _,
            app,
            lengths,
            taker,
            giver,
            turns,
            found: _,
            last: _,
            of: _,
        } = self;
        drop(app);
        drop(lengths);
        (Items::from_vec(turns), taker, giver)
    }
}

/// Takes from the app's input until the number is at least `found`.
fn take_late<N: Naming, R: Wait>(
    rt: &R,
    wire: &Wire<N>,
    pass: &mut ConsumerPass,
    found: u64,
    out: &mut Vec<u64>,
) -> Taken
    requires pass { slice_get N.inputs wire.now ≡ Some (consumer_table pass.old) }
    requires words { vec_len out.old ≡ input_width N.start wire.now }
    ensures pass { IsSameConsumer pass.old pass.new }
    ensures taken { TakesUpTo (taken_by pass.old) (taken_by pass.new) (given result out.new.items) }
    ensures late { found ≤ result.number }
{
    for _ in rt.forever() {
        let taken = wire.take_input(pass, out.as_mut_slice());
        if found <= taken.number {
            return taken;
        }
    }
    unreachable!()
}

/// Turns the app: its output, sealed, and the number of the input are the row.
fn put_reply<A: IsoApp>(
    app: &mut A,
    input: &[u64],
    lengths: &[u16],
    number: u64,
    row: &mut Vec<u64>,
)
    requires room { vec_len row.old + 1 ≤ vec_capacity row.old }
    ensures row { row.new.items ≡ sealed lengths.now (A.reply app.old input.now (vec_len row.old)) ++ number ∷ [] }
    ensures words { vec_len row.new ≡ vec_len row.old + 1 }
    ensures next { app.new ≡ A.next_state app.old input.now (vec_len row.old) }
{
    app.turn(input, row.as_mut_slice());
    seal(row.as_mut_slice(), lengths);
    row.push_reserved(number);
}

/// The words before the last one.
fn front(mut row: Vec<u64>) -> Items<u64>
    ensures { (words : List ℕ) (last : ℕ) → row.items ≡ words ++ last ∷ [] → result ≡ words }
{
    row.pop();
    Items::from_vec(row)
}
