//! The consumer of a device.

ghost use Rattle.std.specs.Prelude.{◌≡◌, ◌↔◌, ◌<◌, ◌≤◌, All, IsTrue, Ok, Some, None, filter, flat_map, if◌then◌else◌, length, map, position, IfOk};
ghost use Rattle.irt_base.specs.Valid.{IsBundle, IsEntry};
ghost use Rattle.irt_switch.specs.Ports.{is_kept};
ghost use Rattle.iso_rules.specs.Station.{consumed_of};
ghost use Rattle.iso_station.specs.Consumer.{new_consumer, count_of, image_count, IsTakenFrame, IsIgnoredFrame, with_frame, after_cycle, image_in};
ghost use Rattle.iso_station.specs.Held.{new_held, wants, ended, shown};
ghost use Rattle.iso_station.specs.Taking.{taking_place};
ghost use Rattle.rtc3_frame.specs.Frame.{Fields, fields_at, fields_of};

use crate::held::HeldFrame;
use crate::mark::{counter, is_good};
use irt_base::blocks::{Bundle, Entry};
use irt_base::limits::MAX_CYCLES;
use irt_base::memory::NoMemory;
use irt_base::numbers::FrameId;
use rtc3_frame::{Rtc3, read_rtc3};
use std::alloc::Global;
use std::marker::Model;

/// What becomes of a frame that comes.
#[derive(Clone, Copy, PartialEq, Eq)]
pub enum Accept {
    /// Its words are kept.
    Taken,
    /// It is no frame that the device consumes in the cycle, with the cycle's counter and good data.
    Ignored,
}

/// The consumer of a device: what came of each frame that the device consumes. A clause sees this, the send clock
/// factor, and the cycle that goes on.
#[derive(Drop)]
pub struct Consumer {
    factor: u16,
    cycle: u32,
    frames: Vec<HeldFrame>,
}

impl Model for Consumer {
    ghost use Rattle.iso_station.specs.Consumer.{ConsumerState};
    ghost use Rattle.iso_station.specs.Kept.{AreInOrder};

    ghost Value = { ConsumerState };

    ghost view = { λ s. record { factor = s.factor; cycle = s.cycle; frames = s.frames.items } };

    ghost invariant = { λ s. AreInOrder s.frames.items };
}

impl Consumer {
    /// The consumer of a device with these blocks, in cycle 0. It takes all the memory that it will use.
    pub fn new(alloc: Global, bundle: &Bundle) -> Result<Consumer, NoMemory>
        requires { IsBundle bundle.now }
        ensures { IfOk result (λ consumer. consumer ≡ new_consumer bundle.now) }
    {
        Ok(Consumer {
            factor: bundle.sync.factor,
            cycle: 0,
            frames: new_frames(alloc, bundle.frames.entries.as_slice())?,
        })
    }

    /// The cycle that goes on, the next one to end.
    pub fn cycle(&self) -> u32
        ensures { result ≡ self.now.cycle }
    {
        self.cycle
    }

    /// Whether the device's image has so many words.
    pub fn has_words(&self, count: usize) -> bool
        ensures { IsTrue result ↔ (image_count self.now ≡ count) }
    {
        have_words(self.frames.as_slice(), count)
    }

    /// Takes a frame that came in cycle `k`, the one that goes on. Of several frames of one FrameID the last one
    /// counts. It takes no memory.
    pub fn accept(&mut self, k: u32, frame: &[u8]) -> Accept
        requires cycle { k ≡ self.old.cycle }
        requires run { k < MAX_CYCLES }
        ensures taken { (result ≡ Accept.Taken) ↔ IsTakenFrame self.old frame.now }
        ensures ignored { (result ≡ Accept.Ignored) ↔ IsIgnoredFrame self.old frame.now }
        ensures kept { (f : Fields) → result ≡ Accept.Taken → fields_at frame.now ≡ Ok f →
            self.new ≡ with_frame f self.old }
        ensures unchanged { result ≡ Accept.Ignored → self.new ≡ self.old }
    {
        let Ok(read) = read_rtc3(frame) else {
            return Accept::Ignored;
        };
        let Some(place) = self.taking(k, &read) else {
            return Accept::Ignored;
        };
        let held = &mut self.frames[place];
        held.put(read.csdu);
        Accept::Taken
    }

    /// The place of the frame that was read, where it is to be taken.
    fn taking(&self, k: u32, read: &Rtc3) -> Option<usize>
        requires { k < MAX_CYCLES }
        ensures { result ≡ taking_place self.now.factor k self.now.frames (fields_of read.now) }
    {
        if read.counter == counter(self.factor, k) && is_good(read.status) {
            place_of(self.frames.as_slice(), k, read.frame, read.csdu.len())
        } else {
            None
        }
    }

    /// Ends cycle `k`, the one that goes on, and writes the device's image: the words of all frames that it consumes,
    /// by ascending FrameID. It takes no memory.
    pub fn end_cycle(&mut self, k: u32, out: &mut [u64])
        requires cycle { k ≡ self.old.cycle }
        requires run { k < MAX_CYCLES }
        requires words { length out.old ≡ image_count self.old }
        ensures state { self.new ≡ after_cycle self.old }
        ensures image { out.new ≡ image_in self.new }
    {
        end_frames(self.frames.as_mut_slice(), k);
        self.cycle = k + 1;
        show_frames(self.frames.as_slice(), out);
    }
}

/// The frames that a device consumes, of which nothing came yet.
fn new_frames(alloc: Global, entries: &[Entry]) -> Result<Vec<HeldFrame>, NoMemory>
    requires { All IsEntry entries.now }
    ensures { IfOk result (λ frames. frames.items ≡ map new_held (consumed_of entries.now)) }
{
    let mut frames = Vec::new(alloc);
    for entry in entries {
        if is_consumed(entry) {
            frames.push(HeldFrame::new(alloc, entry)?)?;
        }
    }
    Ok(frames)
}

/// Whether the device consumes the frame of an entry.
fn is_consumed(entry: &Entry) -> bool
    ensures { result ≡ is_kept entry.now.tx }
{
    entry.tx % 2 == 1
}

/// The place of the frame of this FrameID, with so many bytes of data, where there is one and it is due in cycle `k`.
fn place_of(frames: &[HeldFrame], k: u32, frame: FrameId, count: usize) -> Option<usize>
    ensures { result ≡ position (wants k frame.0 count) frames.now }
{
    frames.iter().position(|held| held.wants(k, frame, count))
}

/// Whether the frames have so many words together.
fn have_words(frames: &[HeldFrame], count: usize) -> bool
    ensures { IsTrue result ↔ (count_of frames.now ≡ count) }
{
    let mut left = count;
    for held in frames {
        if left < held.count() {
            return false;
        }
        left -= held.count();
    }
    left == 0
}

/// Ends cycle `k` for each frame.
fn end_frames(frames: &mut [HeldFrame], k: u32)
    ensures { frames.new ≡ map (ended k) frames.old }
{
    for index in 0..frames.len() {
        let held = &mut frames[index];
        held.end(k);
    }
}

/// Writes the words that the frames give, one behind the other.
fn show_frames(frames: &[HeldFrame], out: &mut [u64])
    requires { length out.old ≡ count_of frames.now }
    ensures { out.new ≡ flat_map shown frames.now }
{
    let mut start = 0;
    for held in frames {
        let end = start + held.count();
        held.show(&mut out[start..end]);
        start = end;
    }
}
