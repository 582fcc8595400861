//! The stations.

ghost use Rattle.std.specs.Prelude.{◌≡◌, ℕ, ◌+◌, ◌<◌, All, List, length, slice_get, IfOk};
ghost use Rattle.cycle_frames.specs.Came.{HaveCome};
ghost use Rattle.cycle_frames.specs.declared.came.Came.{Came};
ghost use Rattle.irt_base.specs.Valid.{IsBundle};
ghost use Rattle.irt_base.specs.declared.limits.TheConstants.{MAX_CYCLES};
ghost use Rattle.plan_rules.specs.Places.{IsAccepted};
ghost use Rattle.plan_rules.specs.Plan.{IsPlan};
ghost use Rattle.plan_rules.specs.World.{WorldRow};
ghost use Rattle.plant_stations.specs.Loaded.{AreOutputs, HaveWidths, AreLoaded, OthersStay};
ghost use Rattle.plant_stations.specs.Stations.{setup_in, AreInCycle, HavePlayed, AreImages, AreTrueImages};
ghost use Rattle.plant_stations.specs.Taken.{CanPlay, PlayCycle};

use crate::making::{frames, receivers, senders};
use crate::receiver::Receiver;
use crate::sender::{Sender, load_all};
use cycle_frames::came::Came;
use deep_copy::{DeepCopy, copy_items};
use irt_base::blocks::Bundle;
use irt_base::limits::MAX_CYCLES;
use irt_base::list::Items;
use irt_base::memory::NoMemory;
use irt_base::plants::{App, Plant};
use iso_rules::law::{held_arrivals_are_parts, stations_serve_demands};
use iso_station::law::consumers_hold;
use rtc3_frame::Frames;
use std::alloc::Global;
use std::marker::Model;

/// The stations of a plant. A clause sees the plant, its blocks, the consumers and the frames.
#[derive(Drop)]
pub struct Stations {
    plant: Plant,
    bundles: Items<Bundle>,
    senders: Vec<Sender>,
    receivers: Vec<Receiver>,
    frames: Frames,
}

impl Model for Stations {
    ghost use Rattle.plant_stations.specs.Stations.{StationsState};
    ghost use Rattle.plant_stations.specs.Whole.{AreStations};

    ghost Value = { StationsState };

    ghost view = { λ s. record { plant = s.plant; bundles = s.bundles; consumers = s.receivers.items; frames = s.frames } };

    ghost invariant = { λ s. AreStations s.plant s.bundles s.senders.items s.receivers.items s.frames };
}

impl Stations {
    /// The stations of an accepted plan before cycle 0. They take all the memory that they will use.
    ///
    /// # Errors
    /// `NoMemory` where memory runs out.
    pub fn new(alloc: Global, plant: &Plant, bundles: &[Bundle]) -> Result<Stations, NoMemory>
        requires plan { IsPlan plant.now bundles.now }
        requires accepted { IsAccepted plant.now bundles.now }
        ensures plant { IfOk result (λ s. (s.plant ≡ plant.now) × (s.bundles ≡ bundles.now)) }
        ensures begun { IfOk result (λ s. (world : List WorldRow) (taken : ℕ → ℕ → List ℕ) → HavePlayed world taken 0 s) }
        ensures cycle { IfOk result (AreInCycle 0) }
        ensures room { IfOk result (λ s. length s.frames ≡ length plant.now.demands) }
    {
        Ok(Stations {
            receivers: receivers(alloc, plant.apps.as_slice(), bundles)?,
            frames: frames(alloc, plant.demands.as_slice())?,
            senders: senders(alloc, plant, bundles)?,
            bundles: copy_items(alloc, bundles)?,
            plant: plant.deep_copy(alloc)?,
        })
    }

    /// Writes the frames that are due in cycle `k`, with what the devices send, and no others. It takes no memory.
    pub fn load(&mut self, k: u32, outputs: &[Items<u64>])
        requires run { k < MAX_CYCLES }
        requires widths { HaveWidths (setup_in self.old) outputs.now }
        ensures frames { (taken : ℕ → ℕ → List ℕ) → AreOutputs (setup_in self.old) taken k outputs.now →
            AreLoaded (setup_in self.old) taken k self.new.frames }
        ensures kept { OthersStay (setup_in self.old) k self.old.frames self.new.frames }
        ensures room { length self.new.frames ≡ length self.old.frames }
        ensures plant { (self.new.plant ≡ self.old.plant) × (self.new.bundles ≡ self.old.bundles) }
        ensures consumers { self.new.consumers ≡ self.old.consumers }
    {
        stations_serve_demands();
        load_all(self.senders.as_slice(), k, outputs, &mut self.frames);
    }

    /// The frames, by demand.
    pub fn frames(&self) -> &Frames
        ensures { result.now ≡ self.now.frames }
    {
        &self.frames
    }

    /// Takes what came in cycle `k`, the one that goes on, ends the cycle, and writes the image of each app's device. It
    /// takes no memory.
    pub fn end_cycle(&mut self, k: u32, came: &[Came], images: &mut [Items<u64>])
        requires run { k < MAX_CYCLES }
        requires cycle { AreInCycle k self.old }
        requires came { All (λ (c : Came). c.demand < length self.old.frames) came.now }
        requires images { AreImages self.old.plant (setup_in self.old) images.old }
        ensures played { (world : List WorldRow) (taken : ℕ → ℕ → List ℕ) → HavePlayed world taken k self.old →
            AreLoaded (setup_in self.old) taken k self.old.frames → HaveCome (setup_in self.old) world k came.now →
            HavePlayed world taken (k + 1) self.new }
        ensures images { (world : List WorldRow) (taken : ℕ → ℕ → List ℕ) → HavePlayed world taken k self.old →
            AreLoaded (setup_in self.old) taken k self.old.frames → HaveCome (setup_in self.old) world k came.now →
            AreTrueImages (setup_in self.old) world taken k images.new }
        ensures widths { AreImages self.old.plant (setup_in self.old) images.new }
        ensures cycle { AreInCycle (k + 1) self.new }
        ensures plant { (self.new.plant ≡ self.old.plant) × (self.new.bundles ≡ self.old.bundles) }
        ensures frames { self.new.frames ≡ self.old.frames }
    {
        consumers_hold();
        held_arrivals_are_parts();
        play_all(
            self.plant.apps.as_slice(),
            &self.frames,
            k,
            came,
            self.receivers.as_mut_slice(),
            images,
        );
    }
}

/// Plays cycle `k` for the receivers of all apps. It takes no memory.
fn play_all(
    apps: &[App],
    frames: &Frames,
    k: u32,
    came: &[Came],
    receivers: &mut [Receiver],
    images: &mut [Items<u64>],
)
    requires run { k < MAX_CYCLES }
    requires ready { CanPlay apps.now k receivers.old images.old }
    requires came { All (λ (c : Came). c.demand < length frames.now) came.now }
    ensures { PlayCycle apps.now frames.now came.now receivers.old receivers.new images.new }
{
    for index in 0..apps.len() {
        let app = apps[index];
        receivers[index].play(k, app.device, frames, came, &mut images[index]);
    }
}
