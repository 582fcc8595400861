//! The plant.

ghost use Rattle.std.specs.Prelude.{◌≡◌, ◌≤◌, ◌<◌, ℕ, IfOk, Some, length, slice_get};
ghost use Rattle.irt_base.specs.declared.limits.TheConstants.{MAX_CYCLES};
ghost use Rattle.irt_route.specs.Routes.{IsRoutesOf};
ghost use Rattle.irt_world.specs.Rows.{Fits};
ghost use Rattle.irt_base.specs.declared.plants.App.{App};
ghost use Rattle.iso_plant.specs.History.{AppCycles};
ghost use Rattle.iso_plant.specs.Replay.{IsReplay, images_of, setup_in, takes_of};
ghost use Rattle.iso_plant.specs.Step.{IsFresh, ServesPlant, Steps, ends_of};
ghost use Rattle.iso_rules.specs.Station.{input_count, output_count};

use crate::begin::{Machines, Tables, new_machines, new_tables};
use crate::history::AppHistory;
use crate::step::play_step;
use cycle_rows::rows::JournalRow;
use io_buffers::ends::Ends;
use irt_base::list::Items;
use irt_base::memory::NoMemory;
use irt_base::plants::App;
use irt_net::net::Net;
use irt_route::tables::Routes;
use irt_world::rows::World;
use plan_check::accepted::Accepted;
use plant_stations::Stations;
use run_journal::journal::Journal;
use std::alloc::Global;
use std::marker::Model;

/// The plant of a run. A clause sees the plan, the walks of its parcels, the world, how many cycles are done, and what was taken,
/// published and written down in them.
#[derive(Drop)]
pub struct PlantState {
    net: Net,
    stations: Stations,
    world: World,
    journal: Journal,
    done: u32,
    apps: Items<App>,
    histories: Vec<AppHistory>,
    outputs: Vec<Items<u64>>,
    images: Vec<Items<u64>>,
}

/// What a run leaves: of each app, and the journal.
#[derive(Drop)]
pub struct History {
    pub apps: Items<AppHistory>,
    pub journal: Items<JournalRow>,
}

impl Model for PlantState {
    ghost use Rattle.iso_plant.specs.Replay.{PlantView};
    ghost use Rattle.iso_plant.specs.State.{IsState, view_of};

    ghost Value = { PlantView };

    ghost view = { λ s. view_of (record {
      net = s.net;
      stations = s.stations;
      world = s.world;
      journal = s.journal;
      done = s.done;
      apps = s.apps;
      histories = s.histories.items;
      outputs = s.outputs.items;
      images = s.images.items;
    }) };

    ghost invariant = { λ s. IsState (record {
      net = s.net;
      stations = s.stations;
      world = s.world;
      journal = s.journal;
      done = s.done;
      apps = s.apps;
      histories = s.histories.items;
      outputs = s.outputs.items;
      images = s.images.items;
    }) };
}

impl PlantState {
    /// The plant of an accepted plan over a world, before cycle 0. It takes all the memory that it will use.
    ///
    /// # Errors
    /// `NoMemory` where memory runs out.
    pub fn new(
        alloc: Global,
        accepted: &Accepted,
        routes: &Routes,
        world: World,
    ) -> Result<PlantState, NoMemory>
        requires routes { IsRoutesOf accepted.now.plant routes.now }
        requires world { Fits accepted.now.plant accepted.now.bundles world }
        requires cycles { length world.rows ≤ MAX_CYCLES }
        ensures plant { IfOk result (λ p. p.plant ≡ accepted.now.plant) }
        ensures bundles { IfOk result (λ p. p.bundles ≡ accepted.now.bundles) }
        ensures walks { IfOk result (λ p. p.walks ≡ routes.now.walks) }
        ensures world { IfOk result (λ p. p.world ≡ world) }
        ensures done { IfOk result (λ p. p.done ≡ 0) }
    {
        accepted.facts();
        let cycles = world.rows.len();
        let Tables {
            apps,
            histories,
            outputs,
            images,
        } = new_tables(alloc, accepted.plant(), accepted.bundles(), cycles)?;
        let Machines {
            net,
            stations,
            journal,
        } = new_machines(alloc, accepted, routes, cycles as u32)?;
        Ok(PlantState {
            net,
            stations,
            world,
            journal,
            done: 0,
            apps,
            histories,
            outputs,
            images,
        })
    }

    /// How many cycles are done. The plant is the replay of them.
    pub fn done(&self) -> u32
        ensures done { result ≡ self.now.done }
        ensures replay { IsReplay self.now }
    {
        self.done
    }

    /// The words of an app's output and of its input, which exchanges of it have to have.
    pub fn output_words(&self, app: usize) -> u16
        requires { app < length self.now.plant.apps }
        ensures { (a : App) → slice_get self.now.plant.apps app ≡ Some a →
            result ≡ output_count (setup_in self.now) a.device.0 }
    {
        self.histories[app].output_words()
    }

    pub fn input_words(&self, app: usize) -> u16
        requires { app < length self.now.plant.apps }
        ensures { (a : App) → slice_get self.now.plant.apps app ≡ Some a →
            result ≡ input_count (setup_in self.now) a.device.0 }
    {
        self.histories[app].input_words()
    }

    /// Plays the next cycle: takes once from each app, runs the network, and publishes once to each app. It takes no memory.
    pub fn step<E: Ends>(&mut self, ends: &mut E)
        requires open { self.old.done < length self.old.world.rows }
        requires ends { ServesPlant self.old
            (ends_of E.apps E.output_words E.input_words E.offers E.takes E.published ends.old) }
        requires fresh { IsFresh (ends_of E.apps E.output_words E.input_words E.offers E.takes E.published ends.old) }
        ensures { Steps self.old self.new
            (ends_of E.apps E.output_words E.input_words E.offers E.takes E.published ends.old)
            (ends_of E.apps E.output_words E.input_words E.offers E.takes E.published ends.new) }
    {
        let done = self.done;
        play_step(
            &mut self.net,
            &mut self.stations,
            &mut self.journal,
            &self.world,
            done,
            &self.apps,
            &mut self.histories,
            &mut self.outputs,
            &mut self.images,
            ends,
        );
        self.done = done + 1;
    }

    /// What the run has left so far.
    pub fn into_history(self) -> History
        ensures count { length result.apps ≡ length self.plant.apps }
        ensures apps { (n : ℕ) (a : AppCycles) → slice_get result.apps n ≡ Some a →
            (a.takes ≡ takes_of n self) × (a.images ≡ images_of n self) }
        ensures journal { result.journal ≡ self.rows }
        ensures replay { IsReplay self }
    {
        let PlantState {
            net,
            stations,
            world,
            journal,
            apps,
            histories,
            outputs,
            images,
            ..
        } = self;
        drop(net);
        drop(stations);
        drop(world);
        drop(apps);
        drop(outputs);
        drop(images);
        History {
            apps: Items::from_vec(histories),
            journal: journal.into_rows(),
        }
    }
}
