//! The network.

ghost use Rattle.std.specs.Prelude.{◌≡◌, ◌<◌, ℕ, ◌+◌, List, IfOk, OnOk, OnErr};
ghost use Rattle.cycle_events.specs.Run.{IsPlayIn};
ghost use Rattle.cycle_frames.specs.Bytes.{AreFramesOf};
ghost use Rattle.irt_base.specs.declared.limits.TheConstants.{MAX_CYCLES};
ghost use Rattle.irt_net.specs.Net.{Carries, HasRoomFor, IsReached, IsSameNet, PlaysCycle};
ghost use Rattle.irt_route.specs.Routes.{IsRoutesOf};
ghost use Rattle.irt_world.specs.Rows.{IsRowOf};
ghost use Rattle.net_site.specs.Site.{play_in};
ghost use Rattle.parcel_rules.specs.Loads.{Loads, no_loads};
ghost use Rattle.plan_rules.specs.Plan.{setup_of};
ghost use Rattle.plan_rules.specs.World.{WorldRow};

use crate::parts::Parts;
use cycle_frames::came::Came;
use irt_base::memory::NoMemory;
use irt_route::tables::Routes;
use irt_world::rows::Row;
use parcel_rules::law::parcels_keep_to_their_room;
use plan_check::accepted::Accepted;
use rtc3_frame::frames::Frames;
use run_journal::journal::Journal;
use std::alloc::Global;
use std::marker::Model;

/// The network of an accepted plan. A clause sees the plan, the walks of its parcels, the switches, the parcels on the way
/// and which frames came last.
#[derive(Drop)]
pub struct Net {
    parts: Parts,
}

impl Model for Net {
    ghost use Rattle.irt_net.specs.Net.{NetState};
    ghost use Rattle.irt_net.specs.Parts.{AreWhole, state_of};

    ghost Value = { NetState };

    ghost view = { λ s. state_of s.parts };

    ghost invariant = { λ s. AreWhole s.parts };
}

impl Net {
    /// The network of an accepted plan before cycle 0. It takes all the memory that it will use, but for the journal.
    ///
    /// # Errors
    /// `NoMemory` where memory runs out.
    pub fn new(alloc: Global, accepted: &Accepted, routes: &Routes) -> Result<Net, NoMemory>
        requires { IsRoutesOf accepted.now.plant routes.now }
        ensures plant { IfOk result (λ net. net.plant ≡ accepted.now.plant) }
        ensures bundles { IfOk result (λ net. net.bundles ≡ accepted.now.bundles) }
        ensures walks { IfOk result (λ net. net.walks ≡ routes.now.walks) }
        ensures empty { IfOk result (λ net. Carries net no_loads) }
    {
        accepted.facts();
        let parts = Parts::new(alloc, accepted.plant(), accepted.bundles(), routes)?;
        Ok(Net { parts })
    }

    /// Makes room in a journal for so many cycles from the first one on.
    ///
    /// # Errors
    /// `NoMemory` where memory runs out. The journal is as it was.
    pub fn reserve(&self, journal: &mut Journal, cycles: u32) -> Result<(), NoMemory>
        requires { Carries self.now no_loads }
        ensures rows { journal.new.rows ≡ journal.old.rows }
        ensures ok { OnOk result (HasRoomFor self.now cycles journal.new.room) }
        ensures err { OnErr result (journal.new ≡ journal.old) }
    {
        parcels_keep_to_their_room();
        let Some(rows) = (cycles as usize).checked_mul(self.parts.most) else {
            return Err(NoMemory);
        };
        journal.reserve(rows)
    }

    /// Plays cycle `k`: all frames and parcels of it. `frames` has the bytes of each due frame, by its demand. It takes no
    /// memory.
    pub fn cycle(&mut self, k: u32, row: &Row, frames: &Frames, journal: &mut Journal)
        requires run { k < MAX_CYCLES }
        requires row { IsRowOf self.old.plant self.old.bundles row.now }
        requires reached { IsReached self.old row.now k }
        requires frames { AreFramesOf (setup_of self.old.plant self.old.bundles) k frames.now }
        requires room { HasRoomFor self.old 1 journal.old.room }
        ensures same { IsSameNet self.old self.new }
        ensures rows { (world : List WorldRow) (loads : Loads) →
            IsPlayIn (play_in self.old.plant self.old.bundles row.now k) world → Carries self.old loads →
            PlaysCycle world k loads self.old self.new journal.old journal.new }
        ensures room { (cycles : ℕ) → HasRoomFor self.old (cycles + 1) journal.old.room →
            HasRoomFor self.new cycles journal.new.room }
    {
        self.parts.cycle(k, row, frames, journal);
    }

    /// Which frames came to which devices in the last cycle, each once, by device and FrameID.
    pub fn came(&self) -> &[Came]
        ensures { result.now ≡ self.now.came }
    {
        self.parts.tables.came.as_slice()
    }
}
