//! The rules of demands.

ghost use Rattle.std.specs.Prelude.{◌≡◌, ◌==◌, ◌%◌, ◌&&◌, not, nat_le, take, drop};
ghost use Rattle.std.specs.List.{list_any, list_all};
ghost use Rattle.plant_rules.specs.Words.{is_within, consumes, provides, demand_words, words_where};
ghost use Rattle.irt_topo.specs.Rules.{is_device, all_differ, frame_holds, demand_ends_hold, length_holds, update_holds, words_hold, passes_at};

use irt_base::cycles::cycle_length;
use irt_base::limits::{
    DATA_STEP, MAX_DATA, MAX_DEMANDS, MAX_FRAME, MAX_WORDS, MIN_DATA, MIN_FRAME, WORD_BYTES,
};
use irt_base::numbers::{DevId, FrameId};
use irt_base::plants::{Demand, Plant};

/// P11: the index is below 512, the FrameID is in range, and no earlier demand has it.
pub fn frame_holds(plant: &Plant, index: usize) -> bool
    ensures { result ≡ passes_at frame_holds plant.now.demands index }
{
    match plant.demands.get(index) {
        None => true,
        Some(demand) => {
            index < MAX_DEMANDS
                && is_frame(demand.frame)
                && !is_taken(plant.demands.as_slice(), index, demand.frame)
        }
    }
}

fn is_frame(frame: FrameId) -> bool
    ensures { result ≡ is_within MIN_FRAME MAX_FRAME frame.0 }
{
    MIN_FRAME <= frame.0 && frame.0 <= MAX_FRAME
}

fn is_taken(demands: &[Demand], index: usize, frame: FrameId) -> bool
    ensures { result ≡ list_any (λ (e : Demand). e.frame.0 == frame.0) (take index demands.now) }
{
    demands
        .iter()
        .take(index)
        .any(|earlier| earlier.frame.0 == frame.0)
}

/// P12: the provider is a device, and so is each of one or more different consumers, of which none is
/// the provider.
pub fn demand_ends_hold(plant: &Plant, index: usize) -> bool
    ensures { result ≡ passes_at (demand_ends_hold plant.now) plant.now.demands index }
{
    match plant.demands.get(index) {
        None => true,
        Some(demand) => {
            is_device(plant, demand.provider)
                && 1 <= demand.consumers.len()
                && are_consumers(plant, demand.provider, demand.consumers.as_slice())
                && all_differ(demand.consumers.as_slice())
        }
    }
}

/// Whether a number is one of a device.
pub fn is_device(plant: &Plant, device: DevId) -> bool
    ensures { result ≡ is_device plant.now device.0 }
{
    usize::from(device.0) < plant.devices.len()
}

fn are_consumers(plant: &Plant, provider: DevId, consumers: &[DevId]) -> bool
    ensures { result ≡ list_all (λ (c : DevId). is_device plant.now c.0 && not (c.0 == provider.0)) consumers.now }
{
    consumers
        .iter()
        .all(|c| is_device(plant, *c) && !(c.0 == provider.0))
}

fn all_differ(devices: &[DevId]) -> bool
    ensures { result ≡ all_differ devices.now }
{
    for (place, device) in devices.iter().enumerate() {
        if stands_from(devices, place + 1, *device) {
            return false;
        }
    }
    true
}

fn stands_from(devices: &[DevId], place: usize, device: DevId) -> bool
    ensures { result ≡ list_any (λ (e : DevId). e.0 == device.0) (drop place devices.now) }
{
    devices.iter().skip(place).any(|other| other.0 == device.0)
}

/// P13: the length is 40..1440 and a multiple of 8.
pub fn length_holds(plant: &Plant, index: usize) -> bool
    ensures { result ≡ passes_at length_holds plant.now.demands index }
{
    match plant.demands.get(index) {
        None => true,
        Some(demand) => is_data_length(demand.length),
    }
}

fn is_data_length(length: u16) -> bool
    ensures { result ≡ (is_within MIN_DATA MAX_DATA length && length % DATA_STEP == 0) }
{
    MIN_DATA <= length && length <= MAX_DATA && length % DATA_STEP == 0
}

/// P14: the update time is at least a cycle.
pub fn update_holds(plant: &Plant, index: usize) -> bool
    ensures { result ≡ passes_at (update_holds plant.now) plant.now.demands index }
{
    match plant.demands.get(index) {
        None => true,
        Some(demand) => cycle_length(plant.factor) <= demand.update,
    }
}

/// P17: the device consumes at most 4096 words, and provides at most as many.
pub fn words_hold(plant: &Plant, index: usize) -> bool
    ensures { result ≡ words_hold plant.now index }
{
    consumed_fit(plant.demands.as_slice(), index) && provided_fit(plant.demands.as_slice(), index)
}

fn consumed_fit(demands: &[Demand], device: usize) -> bool
    ensures { result ≡ nat_le (words_where (consumes device) demands.now) MAX_WORDS }
{
    let mut left = MAX_WORDS;
    for demand in demands {
        if consumes(demand, device) {
            if demand_words(demand) > left {
                return false;
            }
            left -= demand_words(demand);
        }
    }
    true
}

fn provided_fit(demands: &[Demand], device: usize) -> bool
    ensures { result ≡ nat_le (words_where (provides device) demands.now) MAX_WORDS }
{
    let mut left = MAX_WORDS;
    for demand in demands {
        if provides(demand, device) {
            if demand_words(demand) > left {
                return false;
            }
            left -= demand_words(demand);
        }
    }
    true
}

fn consumes(demand: &Demand, device: usize) -> bool
    ensures { result ≡ consumes device demand.now }
{
    demand
        .consumers
        .as_slice()
        .iter()
        .any(|c| usize::from(c.0) == device)
}

fn provides(demand: &Demand, device: usize) -> bool
    ensures { result ≡ provides device demand.now }
{
    usize::from(demand.provider.0) == device
}

fn demand_words(demand: &Demand) -> u32
    ensures { result ≡ demand_words demand.now }
{
    u32::from(demand.length) / WORD_BYTES as u32
}
