ghost use Rattle.std.specs.Prelude.{◌≡◌, ◌==◌, ◌<◌, [], ◌∷◌, length, ℕ, true, false, if◌then◌else◌, option_to_list};
ghost use Rattle.io_buffers.specs.Given.{given};
ghost use Rattle.io_buffers.specs.Plain.{after_take};
ghost use Rattle.io_buffers.specs.Passes.{width_of, producer_steps, IsProducerOf, IsConsumerOf};

use io_buffers::ends::Ends;
use io_buffers::opening::{Opening, exchange};
use io_buffers::plain::PlainExchange;
use io_buffers::shared::{ConsumerPass, Exchange, ProducerPass};
use io_buffers::taken::Taken;
use std::test::Fail;
use std::thread::join;

// What a take tells, whose words are in the window.
fn told(number: u64, fresh: bool) -> Taken {
    Taken {
        number,
        fresh,
        in_window: true,
    }
}

// What a take of two words tells, and the words.
fn plain_take(exchange: &mut PlainExchange) -> (Taken, [u64; 2])
    requires { length exchange.old.newest_words ≡ 2 }
    ensures { exchange.new ≡ after_take exchange.old }
{
    let mut out = [9u64; 2];
    let taken = exchange.take(&mut out);
    (taken, out)
}

#[test]
fn plain_takes_the_newest(rt: HostRuntime) -> Result<(), Fail> {
    let mut exchange = PlainExchange::new(rt.alloc(), 2)?;
    assert!(rt; plain_take(&mut exchange) == (told(0, false), [0, 0]));
    exchange.publish(&[1, 2]);
    exchange.publish(&[3, 4]);
    exchange.publish(&[5, 6]);
    assert!(rt; plain_take(&mut exchange) == (told(3, true), [5, 6]));
    assert!(rt; plain_take(&mut exchange) == (told(3, false), [5, 6]));
    Ok(())
}

// What a take of two words tells, and the words.
fn shared_take(shared: &Exchange, pass: &mut ConsumerPass) -> (Taken, [u64; 2])
    requires own { IsConsumerOf shared.now pass.old }
    requires words { width_of shared.now ≡ 2 }
    ensures { IsConsumerOf shared.now pass.new }
{
    let mut out = [9u64; 2];
    let taken = shared.take(pass, &mut out);
    (taken, out)
}

// Publishes three times.
fn publish_three(shared: &Exchange, pass: &mut ProducerPass)
    requires own { IsProducerOf shared.now pass.old }
    requires words { width_of shared.now ≡ 2 }
    requires fresh { producer_steps pass.old ≡ [] }
    ensures { IsProducerOf shared.now pass.new }
{
    shared.publish(pass, &[1, 2]);
    shared.publish(pass, &[3, 4]);
    shared.publish(pass, &[5, 6]);
}

// Whether a consumer takes the newest of three publications, and then the same again.
fn takes_the_newest(
    shared: &Exchange,
    producer: &mut ProducerPass,
    consumer: &mut ConsumerPass,
) -> bool
    requires producer { IsProducerOf shared.now producer.old }
    requires consumer { IsConsumerOf shared.now consumer.old }
    requires words { width_of shared.now ≡ 2 }
    requires fresh { producer_steps producer.old ≡ [] }
    ensures producer { IsProducerOf shared.now producer.new }
    ensures consumer { IsConsumerOf shared.now consumer.new }
{
    let first = shared_take(shared, consumer) == (told(0, false), [0, 0]);
    publish_three(shared, producer);
    let third = shared_take(shared, consumer) == (told(3, true), [5, 6]);
    let held = producer.count() == 3 && consumer.held() == 3;
    let again = shared_take(shared, consumer) == (told(3, false), [5, 6]);
    first && third && held && again
}

#[test]
fn shared_takes_the_newest(rt: HostRuntime) -> Result<(), Fail> {
    let Opening {
        exchange: shared,
        mut producer,
        mut consumer,
    } = exchange(rt.alloc(), 2)?;
    assert!(rt; shared.width() == 2);
    assert!(rt; takes_the_newest(&shared, &mut producer, &mut consumer));
    let closed = shared.close(producer, consumer);
    assert!(rt; closed.published == 3 && closed.taken == 3);
    Ok(())
}

const ROUNDS: u64 = 10000;

// Publishes rows whose words are all their own number.
fn publish_all(shared: &Exchange, mut pass: ProducerPass) -> ProducerPass
    requires { IsProducerOf shared.now pass × (width_of shared.now ≡ 4) × (producer_steps pass ≡ []) }
    ensures { IsProducerOf shared.now result }
{
    for number in 0..ROUNDS {
        shared.publish(&mut pass, &[number + 1; 4]);
    }
    pass
}

// Takes as often, and says whether each take was whole, none older than the one before, and fresh exactly
// where it was newer.
fn take_all(shared: &Exchange, mut pass: ConsumerPass) -> (ConsumerPass, bool)
    requires { IsConsumerOf shared.now pass × (width_of shared.now ≡ 4) }
    ensures { IsConsumerOf shared.now result.0 }
{
    let mut good = true;
    let mut last = 0;
    let mut out = [0u64; 4];
    'rounds: for _ in 0..ROUNDS {
        let taken = shared.take(&mut pass, &mut out);
        let number = taken.number;
        let whole = out == [number; 4];
        good = good && whole && number >= last && taken.fresh == (number > last);
        last = number;
    }
    (pass, good)
}

#[test]
fn two_threads_publish_and_take(rt: HostRuntime) -> Result<(), Fail> {
    let Opening {
        exchange: shared,
        producer,
        consumer,
    } = exchange(rt.alloc(), 4)?;
    let (producer, (consumer, good)) = join(
        &rt,
        || -> ProducerPass
            requires { IsProducerOf shared producer × (width_of shared ≡ 4) × (producer_steps producer ≡ []) }
            ensures { IsProducerOf shared result }
        { publish_all(&shared, producer) },
        || -> (ConsumerPass, bool)
            requires { IsConsumerOf shared consumer × (width_of shared ≡ 4) }
            ensures { IsConsumerOf shared result.0 }
        { take_all(&shared, consumer) },
    );
    assert!(rt; good);
    let closed = shared.close(producer, consumer);
    assert!(rt; closed.published == ROUNDS && closed.taken == ROUNDS);
    Ok(())
}

// The ends of one app whose output and input have a word each. Its output is at publication 0.
#[derive(Drop)]
struct OneApp {
    taken: Option<Taken>,
    published: Option<u64>,
}

impl Ends for OneApp {
    ghost use Rattle.std.specs.Option.{option_map};

    ghost apps = { λ _. 1 };

    ghost output_words = { λ _ _. 1 };

    ghost input_words = { λ _ _. 1 };

    ghost offers = { λ _ _. given (record { number = 0; fresh = false; in_window = true }) (0 ∷ []) };

    ghost takes = { λ s app. if app == 0 then option_to_list (option_map (λ t. given t (0 ∷ [])) s.taken) else [] };

    ghost published = { λ s app. if app == 0 then option_to_list (option_map (λ word. word ∷ []) s.published) else [] };

    fn take(&mut self, _app: usize, out: &mut [u64]) -> Taken {
        let taken = Taken {
            number: 0,
            fresh: false,
            in_window: true,
        };
        out[0] = 0;
        self.taken = Some(taken);
        taken
    }

    fn publish(&mut self, _app: usize, words: &[u64]) {
        self.published = Some(words[0]);
    }
}

// A cycle of one app, whichever its ends are: what it takes is published again.
fn echo<E: Ends>(ends: &mut E) -> Taken
    requires app { 0 < E.apps ends.old }
    requires words { (E.output_words ends.old 0 ≡ 1) × (E.input_words ends.old 0 ≡ 1) }
    requires room { (E.takes ends.old 0 ≡ []) × (E.published ends.old 0 ≡ []) }
{
    let mut out = [7u64; 1];
    let taken = ends.take(0, &mut out);
    ends.publish(0, &out);
    taken
}

#[test]
fn a_cycle_goes_by_any_ends(rt: HostRuntime) -> Result<(), Fail> {
    let mut ends = OneApp {
        taken: None,
        published: None,
    };
    assert!(rt; echo(&mut ends).in_window);
    assert!(rt; ends.published == Some(0));
    Ok(())
}
