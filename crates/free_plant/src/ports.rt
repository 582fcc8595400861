//! The passes of the cycles' side.

ghost use Rattle.std.specs.Prelude.{◌≡◌, ◌+◌, ◌∷◌, ◌<◌, ◌^◌, [], length};
ghost use Rattle.io_buffers.specs.Given.{given};
ghost use Rattle.io_buffers.specs.Passes.{published_by, taken_by};
ghost use Rattle.free_plant.specs.Named.{IsPort, input_width, output_width};
ghost use Rattle.free_plant.specs.Views.{new_port, with_image, with_takes};

use crate::naming::Naming;
use crate::wires::Wire;
use io_buffers::shared::{ConsumerPass, ProducerPass};
use io_buffers::taken::Taken;
use std::marker::{Model, PhantomData};

/// The passes of an app that the cycles have: the consumer of its output and the producer of its input. A clause sees what
/// was taken and published, and the number of the last take that was recorded.
#[derive(Drop)]
pub struct Port<N: Naming> {
    number: usize,
    taker: ConsumerPass,
    giver: ProducerPass,
    last: u64,
    of: PhantomData<N>,
}

impl<N: Naming> Model for Port<N> {
    ghost use Rattle.io_buffers.specs.Passes.{published_by, taken_by};
    ghost use Rattle.free_plant.specs.Named.{IsPort};
    ghost use Rattle.free_plant.specs.Views.{PortView};

    ghost Value = { PortView };

    ghost view = { λ p. record {
      number = p.number;
      taken = taken_by p.taker;
      published = published_by p.giver;
      last = p.last;
    } };

    ghost invariant = { λ p. IsPort N.inputs N.outputs p.number p.taker p.giver };
}

impl<N: Naming> Port<N> {
    /// Those of this app, which did nothing yet.
    pub fn new(number: usize, taker: ConsumerPass, giver: ProducerPass) -> Port<N>
        requires named { IsPort N.inputs N.outputs number taker giver }
        requires untaken { taken_by taker ≡ [] }
        requires unpublished { published_by giver ≡ [] }
        ensures { result ≡ new_port number }
    {
        Port {
            number,
            taker,
            giver,
            last: 0,
            of: PhantomData,
        }
    }

    /// The number of the last take that was recorded.
    pub fn last(&self) -> u64
        ensures { result ≡ self.now.last }
    {
        self.last
    }

    /// Takes from the app's output.
    pub fn take(&mut self, wire: &Wire<N>, out: &mut [u64]) -> Taken
        requires app { self.old.number ≡ wire.now }
        requires words { length out.old ≡ output_width N.start wire.now + 1 }
        ensures { self.new ≡ with_takes self.old (given result out.new ∷ []) }
    {
        wire.take_output(&mut self.taker, out)
    }

    /// Publishes to the app's input, and keeps the number of the take that was recorded.
    pub fn publish(&mut self, wire: &Wire<N>, words: &[u64], last: u64)
        requires app { self.old.number ≡ wire.now }
        requires words { length words.now ≡ input_width N.start wire.now }
        requires room { length self.old.published < 2 ^ 60 }
        ensures { self.new ≡ with_image self.old words.now last }
    {
        wire.publish_input(&mut self.giver, words);
        self.last = last;
    }

    /// The two passes, of which the first one takes and the second one publishes.
    pub fn into_passes(self) -> (ConsumerPass, ProducerPass)
        ensures named { IsPort N.inputs N.outputs self.number result.0 result.1 }
        ensures taken { taken_by result.0 ≡ self.taken }
        ensures published { published_by result.1 ≡ self.published }
    {
        let Port {
            number: _,
            taker,
            giver,
            last: _,
            of: _,
        } = self;
        (taker, giver)
    }
}
