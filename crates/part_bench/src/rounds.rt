//! The rounds over a shared exchange.

ghost use Rattle.std.specs.Prelude.{◌≡◌, length, []};
ghost use Rattle.io_buffers.specs.Passes.{width_of, producer_steps, IsProducerOf, IsConsumerOf};

use crate::command::Publishing;
use io_buffers::opening::{Opening, exchange};
use io_buffers::shared::{Closed, ConsumerPass, Exchange, ProducerPass};
use irt_base::memory::NoMemory;
use std::alloc::Global;
use std::thread::{Threads, join};

/// Publishes and takes in turn, so often.
pub fn on_one_thread(alloc: Global, asked: Publishing) -> Result<Closed, NoMemory> {
    let Publishing { words, rounds } = asked;
    let Opening {
        exchange: shared,
        mut producer,
        mut consumer,
    } = exchange(alloc, words)?;
    let row = vec![in alloc; 1u64; usize::from(words)]?;
    let mut out = vec![in alloc; 0u64; usize::from(words)]?;
    let row = row.as_slice();
    let out = out.as_mut_slice();
    'rounds: while producer.count() < u64::from(rounds) {
        shared.publish(&mut producer, row);
        shared.take(&mut consumer, out);
    }
    Ok(shared.close(producer, consumer))
}

/// Publishes so often on one thread, and takes so often on another.
pub fn on_two_threads<R: Threads + Sync>(
    rt: &R,
    alloc: Global,
    asked: Publishing,
) -> Result<Closed, NoMemory> {
    let Publishing { words, rounds } = asked;
    let Opening {
        exchange: shared,
        producer,
        consumer,
    } = exchange(alloc, words)?;
    let row = vec![in alloc; 1u64; usize::from(words)]?;
    let out = vec![in alloc; 0u64; usize::from(words)]?;
    let (producer, consumer) = join(
        rt,
        || -> ProducerPass
            requires own { IsProducerOf shared producer }
            requires fresh { producer_steps producer ≡ [] }
            requires words { length row.items ≡ width_of shared }
            ensures { IsProducerOf shared result }
        { publish_all(&shared, producer, row, rounds) },
        || -> ConsumerPass
            requires own { IsConsumerOf shared consumer }
            requires words { length out.items ≡ width_of shared }
            ensures { IsConsumerOf shared result }
        { take_all(&shared, consumer, out, rounds) },
    );
    Ok(shared.close(producer, consumer))
}

/// Publishes the row so often.
fn publish_all(
    shared: &Exchange,
    mut pass: ProducerPass,
    row: Vec<u64>,
    rounds: u32,
) -> ProducerPass
    requires own { IsProducerOf shared.now pass }
    requires fresh { producer_steps pass ≡ [] }
    requires words { length row.items ≡ width_of shared.now }
    ensures { IsProducerOf shared.now result }
{
    let row = row.as_slice();
    'rounds: while pass.count() < u64::from(rounds) {
        shared.publish(&mut pass, row);
    }
    pass
}

/// Takes so often.
fn take_all(
    shared: &Exchange,
    mut pass: ConsumerPass,
    mut out: Vec<u64>,
    rounds: u32,
) -> ConsumerPass
    requires own { IsConsumerOf shared.now pass }
    requires words { length out.items ≡ width_of shared.now }
    ensures { IsConsumerOf shared.now result }
{
    let out = out.as_mut_slice();
    'rounds: for _ in 0..rounds {
        shared.take(&mut pass, out);
    }
    pass
}
