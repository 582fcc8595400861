//! The two exchanges of an app.

ghost use Rattle.std.specs.Prelude.{◌≡◌, ◌+◌, ◌++◌, ◌∷◌, ◌<◌, ◌^◌, [], Some, length, slice_get};
ghost use Rattle.std.specs.List.{AllByRecursion};
ghost use Rattle.io_buffers.specs.Given.{given};
ghost use Rattle.io_buffers.specs.Passes.{IsSameConsumer, IsSameProducer, consumer_table, producer_table, published_by, table_of, taken_by, width_of};
ghost use Rattle.free_plant.specs.Named.{IsAppSide, IsPort, input_width, output_width};
ghost use Rattle.take_lists.specs.Takes.{AreTakesOf};

use crate::naming::Naming;
use io_buffers::shared::{ConsumerPass, Exchange, ProducerPass};
use io_buffers::taken::Taken;
use std::marker::{Model, PhantomData};

/// The exchanges of the app of a number. A clause sees the number.
#[derive(Drop)]
pub struct Wire<N: Naming> {
    number: usize,
    input: Exchange,
    output: Exchange,
    of: PhantomData<N>,
}

impl<N: Naming> Model for Wire<N> {
    ghost use Rattle.std.specs.Prelude.{ℕ};
    ghost use Rattle.free_plant.specs.Named.{IsWire};

    ghost Value = { ℕ };

    ghost view = { λ w. w.number };

    ghost invariant = { λ w. IsWire N.inputs N.outputs N.start w.number w.input w.output };
}

impl<N: Naming> Wire<N> {
    ghost use Rattle.std.specs.Prelude.{replicate};

    /// Those of this app. An output has a further word.
    pub fn new(number: usize, input: Exchange, output: Exchange) -> Wire<N>
        requires input { slice_get N.inputs number ≡ Some (table_of input) }
        requires output { slice_get N.outputs number ≡ Some (table_of output) }
        requires input_words { width_of input ≡ input_width N.start number }
        requires output_words { width_of output ≡ output_width N.start number + 1 }
        ensures { result ≡ number }
    {
        Wire {
            number,
            input,
            output,
            of: PhantomData,
        }
    }

    /// The words of the app's input.
    pub fn input_words(&self) -> usize
        ensures { result ≡ input_width N.start self.now }
    {
        self.input.width()
    }

    /// The words of a publication of the app's output, of which the last one is the further word.
    pub fn row_words(&self) -> usize
        ensures { result ≡ output_width N.start self.now + 1 }
    {
        self.output.width()
    }

    /// Takes from the app's output, on the cycles' side.
    pub fn take_output(&self, pass: &mut ConsumerPass, out: &mut [u64]) -> Taken
        requires pass { slice_get N.outputs self.now ≡ Some (consumer_table pass.old) }
        requires words { length out.old ≡ output_width N.start self.now + 1 }
        ensures pass { IsSameConsumer pass.old pass.new }
        ensures taken { taken_by pass.new ≡ taken_by pass.old ++ given result out.new ∷ [] }
    {
        self.output.take(pass, out)
    }

    /// Publishes to the app's input, on the cycles' side.
    pub fn publish_input(&self, pass: &mut ProducerPass, words: &[u64])
        requires pass { slice_get N.inputs self.now ≡ Some (producer_table pass.old) }
        requires words { length words.now ≡ input_width N.start self.now }
        requires room { length (published_by pass.old) < 2 ^ 60 }
        ensures pass { IsSameProducer pass.old pass.new }
        ensures published { published_by pass.new ≡ published_by pass.old ++ words.now ∷ [] }
    {
        self.input.publish(pass, words);
    }

    /// Takes from the app's input, on the app's side.
    pub fn take_input(&self, pass: &mut ConsumerPass, out: &mut [u64]) -> Taken
        requires pass { slice_get N.inputs self.now ≡ Some (consumer_table pass.old) }
        requires words { length out.old ≡ input_width N.start self.now }
        ensures pass { IsSameConsumer pass.old pass.new }
        ensures taken { taken_by pass.new ≡ taken_by pass.old ++ given result out.new ∷ [] }
    {
        self.input.take(pass, out)
    }

    /// Publishes to the app's output, on the app's side. The last word is the further one.
    pub fn publish_output(&self, pass: &mut ProducerPass, words: &[u64])
        requires pass { slice_get N.outputs self.now ≡ Some (producer_table pass.old) }
        requires words { length words.now ≡ output_width N.start self.now + 1 }
        requires room { length (published_by pass.old) < 2 ^ 60 }
        ensures pass { IsSameProducer pass.old pass.new }
        ensures published { published_by pass.new ≡ published_by pass.old ++ words.now ∷ [] }
    {
        self.output.publish(pass, words);
    }

    /// Ends both exchanges: the takes of each side are those of the other side's publications.
    pub fn close(
        self,
        output_taker: ConsumerPass,
        input_giver: ProducerPass,
        input_taker: ConsumerPass,
        output_giver: ProducerPass,
    )
        requires cycles { IsPort N.inputs N.outputs self output_taker input_giver }
        requires app { IsAppSide N.inputs N.outputs self input_taker output_giver }
        ensures outputs { AreTakesOf (replicate (output_width N.start self + 1) 0 ∷ published_by output_giver)
            (taken_by output_taker) }
        ensures inputs { AreTakesOf (replicate (input_width N.start self) 0 ∷ published_by input_giver)
            (taken_by input_taker) }
    {
        let Wire {
            number: _,
            input,
            output,
            of: _,
        } = self;
        input.close(input_giver, input_taker);
        output.close(output_giver, output_taker);
    }
}
