//! A device that an application receives for.

ghost use Rattle.std.specs.Prelude.{◌≡◌, ◌<◌, ◌∷◌, ◌++◌, [], All, List, length, IfOk};
ghost use Rattle.cycle_frames.specs.declared.came.Came.{Came};
ghost use Rattle.irt_base.specs.Valid.{IsBundle};
ghost use Rattle.irt_base.specs.declared.limits.TheConstants.{MAX_CYCLES};
ghost use Rattle.iso_station.specs.Consumer.{ConsumerState, new_consumer, image_count};
ghost use Rattle.plant_stations.specs.Taken.{TakesFrames, PlaysCycle};

use crate::widths::input_words;
use cycle_frames::came::Came;
use irt_base::blocks::Bundle;
use irt_base::limits::MAX_CYCLES;
use irt_base::list::Items;
use irt_base::memory::NoMemory;
use irt_base::numbers::DevId;
use iso_station::Consumer;
use rtc3_frame::Frames;
use std::alloc::Global;
use std::marker::Model;

/// The consumer of an app's device, with room for its image. A clause sees the consumer.
#[derive(Drop)]
pub struct Receiver {
    consumer: Consumer,
    room: Vec<u64>,
}

impl Model for Receiver {
    ghost use Rattle.std.specs.Prelude.{◌≡◌, length};
    ghost use Rattle.iso_station.specs.Consumer.{ConsumerState, image_count};

    ghost Value = { ConsumerState };

    ghost view = { λ s. s.consumer };

    ghost invariant = { λ s. length s.room.items ≡ image_count s.consumer };
}

impl Receiver {
    /// The receiver of a device with these blocks, in cycle 0. It takes all the memory that it will use.
    pub fn new(alloc: Global, bundle: &Bundle) -> Result<Receiver, NoMemory>
        requires { IsBundle bundle.now }
        ensures { IfOk result (λ receiver. receiver ≡ new_consumer bundle.now) }
    {
        Ok(Receiver {
            consumer: Consumer::new(alloc, bundle)?,
            room: vec![in alloc; 0u64; input_words(bundle)]?,
        })
    }

    /// Takes what came to the device in cycle `k`, the one that goes on, ends the cycle, and writes the image. It takes
    /// no memory.
    pub fn play(
        &mut self,
        k: u32,
        device: DevId,
        frames: &Frames,
        came: &[Came],
        image: &mut Items<u64>,
    )
        requires cycle { k ≡ self.old.cycle }
        requires run { k < MAX_CYCLES }
        requires came { All (λ (c : Came). c.demand < length frames.now) came.now }
        requires words { length image.old ≡ image_count self.old }
        ensures { PlaysCycle device.0 frames.now came.now self.old self.new image.new }
    {
        take_frames(&mut self.consumer, k, device, frames, came);
        self.consumer.end_cycle(k, self.room.as_mut_slice());
        copy_words(self.room.as_slice(), image);
    }
}

/// Takes what came to a device in cycle `k`, the one that goes on.
fn take_frames(consumer: &mut Consumer, k: u32, device: DevId, frames: &Frames, came: &[Came])
    requires cycle { k ≡ consumer.old.cycle }
    requires run { k < MAX_CYCLES }
    requires came { All (λ (c : Came). c.demand < length frames.now) came.now }
    ensures takes { TakesFrames device.0 frames.now came.now consumer.old consumer.new }
    ensures cycle { consumer.new.cycle ≡ consumer.old.cycle }
    ensures count { image_count consumer.new ≡ image_count consumer.old }
{
    for index in 0..came.len() {
        take_one(consumer, k, device, frames, came[index]);
    }
}

/// Takes a frame that came, where it came to this device.
fn take_one(consumer: &mut Consumer, k: u32, device: DevId, frames: &Frames, one: Came)
    requires cycle { k ≡ consumer.old.cycle }
    requires run { k < MAX_CYCLES }
    requires came { one.demand < length frames.now }
    ensures takes { (came : List Came) (first : ConsumerState) →
        TakesFrames device.0 frames.now came first consumer.old →
        TakesFrames device.0 frames.now (came ++ one ∷ []) first consumer.new }
    ensures cycle { consumer.new.cycle ≡ consumer.old.cycle }
{
    if one.device.0 != device.0 {
        return;
    }
    consumer.accept(k, frames.bytes(usize::from(one.demand)));
}

/// Writes words over a list of as many.
fn copy_words(words: &[u64], out: &mut Items<u64>)
    requires { length out.old ≡ length words.now }
    ensures { out.new ≡ words.now }
{
    for index in 0..words.len() {
        out.set(index, words[index]);
    }
}
