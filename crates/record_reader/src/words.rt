//! Words, and how many of them an app has.

ghost use Rattle.std.specs.Prelude.{◌≡◌, ◌≤◌, [], length};
ghost use Rattle.irt_base.specs.declared.limits.TheConstants.{MAX_DEMANDS};
ghost use Rattle.plant_rules.specs.Words.{consumes, demand_words, provides, words_where};
ghost use Rattle.record_reader.specs.Reading.{Gives, input_words, output_words, words_read};

use crate::fault::LineFault;
use crate::field::read_word;
use irt_base::limits::WORD_BYTES;
use irt_base::list::Items;
use irt_base::numbers::DevId;
use irt_base::plants::{Demand, Plant};
use std::alloc::Global;

/// So many words.
pub(crate) fn read_words(
    alloc: Global,
    bytes: &[u8],
    count: u64,
) -> Result<(Items<u64>, &[u8]), LineFault>
    ensures { Gives (λ x. (x.0, x.1.now)) result (words_read count [] bytes.now) }
{
    let mut words = Items::new(alloc);
    let mut rest = bytes;
    for _ in 0..count {
        let (word, after) = read_word(rest)?;
        words.push(word)?;
        rest = after;
    }
    Ok((words, rest))
}

/// How many words the app of a device puts out in a turn.
pub(crate) fn output_words(plant: &Plant, device: DevId) -> u64
    requires { length plant.now.demands ≤ MAX_DEMANDS }
    ensures { result ≡ output_words plant.now device }
{
    provided_words(plant.demands.as_slice(), device)
}

/// How many it takes in.
pub(crate) fn input_words(plant: &Plant, device: DevId) -> u64
    requires { length plant.now.demands ≤ MAX_DEMANDS }
    ensures { result ≡ input_words plant.now device }
{
    consumed_words(plant.demands.as_slice(), device)
}

fn provided_words(demands: &[Demand], device: DevId) -> u64
    requires { length demands.now ≤ MAX_DEMANDS }
    ensures { result ≡ words_where (provides device.0) demands.now }
{
    let mut words = 0;
    for demand in demands {
        if demand.provider.0 == device.0 {
            words += demand_words(demand);
        }
    }
    words
}

fn consumed_words(demands: &[Demand], device: DevId) -> u64
    requires { length demands.now ≤ MAX_DEMANDS }
    ensures { result ≡ words_where (consumes device.0) demands.now }
{
    let mut words = 0;
    for demand in demands {
        if consumes(demand, device) {
            words += demand_words(demand);
        }
    }
    words
}

fn consumes(demand: &Demand, device: DevId) -> bool
    ensures { result ≡ consumes device.0 demand.now }
{
    demand.consumers.as_slice().iter().any(|c| c.0 == device.0)
}

fn demand_words(demand: &Demand) -> u64
    ensures value { result ≡ demand_words demand.now }
    ensures few { result ≤ 8192 }
{
    let length: u16 = demand.length;
    u64::from(length) / WORD_BYTES as u64
}
