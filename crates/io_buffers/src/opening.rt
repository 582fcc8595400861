//! How a shared exchange begins.

ghost use Rattle.std.specs.Prelude.{◌≡◌, ◌+◌, ◌≤◌, [], IfOk};
ghost use Rattle.irt_base.specs.declared.limits.TheConstants.{MAX_WORDS};
ghost use Rattle.io_buffers.specs.Passes.{width_of, producer_steps, consumer_steps, IsProducerOf, IsConsumerOf};

use crate::shared::{ConsumerPass, Exchange, ProducerPass};
use irt_base::memory::NoMemory;
use std::alloc::Global;

/// An exchange with the passes of its two sides, neither of which has made a step. Publication 0, all zeros,
/// is held.
#[derive(Drop)]
pub struct Opening {
    pub exchange: Exchange,
    pub producer: ProducerPass,
    pub consumer: ConsumerPass,
    ghost publishes: { IsProducerOf exchange producer },
    ghost takes: { IsConsumerOf exchange consumer },
    ghost unpublished: { producer_steps producer ≡ [] },
    ghost untaken: { consumer_steps consumer ≡ [] },
}

/// An exchange whose publications have so many words, at its beginning.
pub fn exchange(alloc: Global, words: u16) -> Result<Opening, NoMemory>
    requires { words ≤ MAX_WORDS + 1 }
    ensures { IfOk result (λ opening. width_of opening.exchange ≡ words) }
{
    let (exchange, producer, consumer) = Exchange::open(alloc, words)?;
    Ok(Opening {
        exchange,
        producer,
        consumer,
    })
}
