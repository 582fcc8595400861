//! The provider of a device.

ghost use Rattle.std.specs.Prelude.{◌≡◌, ◌≢◌, ◌*◌, ◌<◌, ◌≤◌, All, AllPairs, filter, length, slice_set, IfOk};
ghost use Rattle.std.specs.List.{AllZip};
ghost use Rattle.irt_base.specs.Valid.{IsBundle, IsEntry};
ghost use Rattle.irt_base.specs.declared.limits.TheConstants.{MAX_CYCLES, MAX_DATA};
ghost use Rattle.iso_rules.specs.Station.{data_words, provided_of, words_in};
ghost use Rattle.iso_station.specs.Provider.{new_provider, with_due, HasPlace, IsLoaded};

use crate::held::words_of_data;
use crate::mark::{DATA_STATUS, counter};
use byteorder::{BigEndian, ByteOrder};
use irt_base::blocks::{Bundle, Entry};
use irt_base::cycles::due;
use irt_base::limits::{MAX_CYCLES, MAX_DATA};
use irt_base::memory::NoMemory;
use irt_base::numbers::DevId;
use rtc3_frame::{Frames, write_rtc3};
use std::alloc::Global;
use std::marker::Model;

/// Room for the data of one frame, in bytes.
const ROOM: usize = MAX_DATA as usize;

/// The provider of a device. A clause sees the device, the send clock factor, and the entries of the frames that it
/// provides.
#[derive(Drop)]
pub struct Provider {
    device: DevId,
    factor: u16,
    entries: Vec<Entry>,
}

impl Model for Provider {
    ghost use Rattle.iso_station.specs.Kept.{IsWhole};
    ghost use Rattle.iso_station.specs.Provider.{ProviderState};

    ghost Value = { ProviderState };

    ghost view = { λ s. record { device = s.device.0; factor = s.factor; entries = s.entries.items } };

    ghost invariant = { λ s. IsWhole s.entries.items };
}

impl Provider {
    /// The provider of a device with these blocks. It takes all the memory that it will use.
    pub fn new(alloc: Global, bundle: &Bundle, device: DevId) -> Result<Provider, NoMemory>
        requires { IsBundle bundle.now }
        ensures { IfOk result (λ provider. provider ≡ new_provider bundle.now device.0) }
    {
        Ok(Provider {
            device,
            factor: bundle.sync.factor,
            entries: provided(alloc, bundle.frames.entries.as_slice())?,
        })
    }

    /// Writes the provided frames that are due in cycle `k`, each at its place, with the words of the device's output.
    /// `places` are the places in `frames` of all frames that the device provides, by ascending FrameID. It takes no
    /// memory.
    pub fn load(&self, k: u32, words: &[u64], places: &[usize], frames: &mut Frames)
        requires run { k < MAX_CYCLES }
        requires words { length words.now ≡ words_in self.now.entries }
        requires places { AllZip (HasPlace frames.old) self.now.entries places.now }
        requires apart { AllPairs (λ a b. a ≢ b) places.now }
        ensures { IsLoaded self.now k words.now places.now frames.old frames.new }
    {
        let mut start = 0;
        for index in 0..self.entries.len() {
            let entry = self.entries[index];
            let end = start + words_of_data(&entry);
            self.put_due(k, &entry, &words[start..end], places[index], frames);
            start = end;
        }
    }

    /// Writes the frame of an entry at its place, where it is due in cycle `k`.
    fn put_due(&self, k: u32, entry: &Entry, words: &[u64], place: usize, frames: &mut Frames)
        requires run { k < MAX_CYCLES }
        requires valid { IsEntry entry.now }
        requires words { length words.now ≡ data_words entry.now }
        requires place { HasPlace frames.old entry.now place }
        ensures { frames.new ≡ with_due self.now k entry.now words.now place frames.old }
    {
        if due(k, entry.ratio, entry.phase) {
            let mut room = [0; ROOM];
            let csdu = &mut room[..usize::from(entry.data_length)];
            BigEndian::write_u64_into(words, csdu);
            let count = counter(self.factor, k);
            let bytes = frames.bytes_mut(place);
            write_rtc3(bytes, entry.frame, self.device, csdu, count, DATA_STATUS);
        }
    }
}

/// The entries of the frames that a device provides.
fn provided(alloc: Global, entries: &[Entry]) -> Result<Vec<Entry>, NoMemory>
    ensures { IfOk result (λ provided. provided.items ≡ provided_of entries.now) }
{
    let mut provided = Vec::new(alloc);
    for entry in entries {
        if entry.rx_port == 0 {
            provided.push(*entry)?;
        }
    }
    Ok(provided)
}
