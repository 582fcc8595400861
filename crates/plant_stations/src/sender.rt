//! A device that sends.

ghost use Rattle.std.specs.Prelude.{◌≡◌, ◌<◌, ◌==◌, ◌≢◌, AllPairs, length, map, position, IfOk};
ghost use Rattle.std.specs.List.{AllZip, position_or_len};
ghost use Rattle.irt_base.specs.Valid.{IsBundle};
ghost use Rattle.irt_base.specs.declared.limits.TheConstants.{MAX_CYCLES};
ghost use Rattle.irt_base.specs.declared.plants.Demand.{Demand};
ghost use Rattle.iso_rules.specs.Station.{provided_of, words_in};
ghost use Rattle.iso_station.specs.Provider.{HasPlace, IsLoaded};
ghost use Rattle.plant_stations.specs.Loaded.{AreWords, AreReady, AreSent};
ghost use Rattle.plant_stations.specs.Whole.{place_in, sender_of};

use irt_base::blocks::{Bundle, Entry};
use irt_base::list::Items;
use irt_base::memory::NoMemory;
use irt_base::numbers::{DevId, FrameId};
use irt_base::plants::{Demand, Plant};
use iso_station::Provider;
use rtc3_frame::Frames;
use std::alloc::Global;

/// The provider of a device, with the places of the frames that it provides, by ascending FrameID. A frame's place is
/// the number of its demand.
#[derive(Drop)]
pub struct Sender {
    pub provider: Provider,
    pub places: Items<usize>,
}

impl Sender {
    /// The sender of a device with these blocks. It takes all the memory that it will use.
    pub fn new(
        alloc: Global,
        plant: &Plant,
        bundle: &Bundle,
        device: DevId,
    ) -> Result<Sender, NoMemory>
        requires { IsBundle bundle.now }
        ensures { IfOk result (λ sender. sender ≡ sender_of plant.now bundle.now device.0) }
    {
        let entries = bundle.frames.entries.as_slice();
        Ok(Sender {
            provider: Provider::new(alloc, bundle, device)?,
            places: places_of(alloc, plant.demands.as_slice(), entries)?,
        })
    }

    /// Writes the provided frames that are due in cycle `k`. It takes no memory.
    fn load(&self, k: u32, words: &[u64], frames: &mut Frames)
        requires run { k < MAX_CYCLES }
        requires words { length words.now ≡ words_in self.now.provider.entries }
        requires places { AllZip (HasPlace frames.old) self.now.provider.entries self.now.places }
        requires apart { AllPairs (λ a b. a ≢ b) self.now.places }
        ensures loaded { IsLoaded self.now.provider k words.now self.now.places frames.old frames.new }
        ensures range { AreWords words.now }
    {
        self.provider.load(k, words, self.places.as_slice(), frames);
    }
}

/// Writes the frames of all senders that are due in cycle `k`, each with its words. It takes no memory.
pub fn load_all(senders: &[Sender], k: u32, outputs: &[Items<u64>], frames: &mut Frames)
    requires run { k < MAX_CYCLES }
    requires ready { AreReady senders.now outputs.now frames.old }
    ensures { AreSent senders.now k outputs.now frames.old frames.new }
{
    for index in 0..senders.len() {
        senders[index].load(k, outputs[index].as_slice(), frames);
    }
}

/// The places of the frames that a device provides.
fn places_of(alloc: Global, demands: &[Demand], entries: &[Entry]) -> Result<Items<usize>, NoMemory>
    ensures { IfOk result (λ places. places ≡ map (place_in demands.now) (provided_of entries.now)) }
{
    let mut places = Items::new(alloc);
    for entry in entries {
        if entry.rx_port == 0 {
            places.push(place_or_len(demands, entry.frame))?;
        }
    }
    Ok(places)
}

/// The number of the first demand of a frame, and of demands where there is none.
fn place_or_len(demands: &[Demand], frame: FrameId) -> usize
    ensures { result ≡ position_or_len (λ (d : Demand). d.frame.0 == frame.0) demands.now }
{
    match place_of(demands, frame) {
        None => demands.len(),
        Some(place) => place,
    }
}

fn place_of(demands: &[Demand], frame: FrameId) -> Option<usize>
    ensures { result ≡ position (λ (d : Demand). d.frame.0 == frame.0) demands.now }
{
    demands.iter().position(|d| d.frame.0 == frame.0)
}
