//! The parts of a network.

ghost use Rattle.std.specs.Prelude.{◌<◌, All, IfOk};
ghost use Rattle.cycle_frames.specs.Bytes.{AreFramesOf};
ghost use Rattle.irt_base.specs.Valid.{IsBundle};
ghost use Rattle.irt_base.specs.declared.limits.TheConstants.{MAX_CYCLES};
ghost use Rattle.irt_net.specs.Net.{HasRoomFor, IsReached};
ghost use Rattle.irt_net.specs.Parts.{AreJoined, AreOpened, AreParcelsOf, AreTablesOf, AreWhole, HavePlayed, state_of};
ghost use Rattle.irt_route.specs.Routes.{IsRoutesOf};
ghost use Rattle.irt_world.specs.Rows.{IsRowOf};
ghost use Rattle.plan_rules.specs.Places.{IsAccepted};
ghost use Rattle.plan_rules.specs.Plan.{IsPlan, setup_of};

use crate::frames::frames_cycle;
use crate::places::plan_places;
use crate::switches::new_switches;
use cycle_frames::came::Came;
use event_queue::queue::Queue;
use irt_base::blocks::Bundle;
use irt_base::memory::NoMemory;
use irt_base::plants::Plant;
use irt_route::tables::Routes;
use irt_switch::Switch;
use irt_world::rows::Row;
use net_parcels::parcels::Parcels;
use net_site::site::Site;
use parcel_rules::law::parcels_keep_to_their_room;
use rtc3_frame::frames::Frames;
use run_journal::journal::Journal;
use std::alloc::Global;

/// The parts of a network. `most` is the most rows that a cycle adds to what the journal may need.
#[derive(Drop)]
pub struct Parts {
    pub site: Site,
    pub parcels: Parcels,
    pub tables: Tables,
    pub most: usize,
}

/// What a cycle's frames need: the switches, the queue of the events and the list of those that came.
#[derive(Drop)]
pub struct Tables {
    pub switches: Vec<Switch>,
    pub queue: Queue,
    pub came: Vec<Came>,
}

impl Parts {
    /// The parts of a plan's network before cycle 0. It takes all the memory that they will use.
    ///
    /// # Errors
    /// `NoMemory` where memory runs out.
    pub fn new(
        alloc: Global,
        plant: &Plant,
        bundles: &[Bundle],
        routes: &Routes,
    ) -> Result<Parts, NoMemory>
        requires plan { IsPlan plant.now bundles.now }
        requires accepted { IsAccepted plant.now bundles.now }
        requires routes { IsRoutesOf plant.now routes.now }
        ensures { IfOk result (λ parts. AreOpened plant.now bundles.now routes.now parts) }
    {
        let places = plan_places(bundles);
        let site = Site::new(alloc, plant, bundles)?;
        let tables = Tables::new(alloc, bundles, places)?;
        Parts::join(alloc, site, tables, routes, places)
    }

    /// The parts of a site and its tables, with its parcels.
    ///
    /// # Errors
    /// `NoMemory` where memory runs out.
    fn join(
        alloc: Global,
        site: Site,
        tables: Tables,
        routes: &Routes,
        places: usize,
    ) -> Result<Parts, NoMemory>
        requires { IsRoutesOf site.plant routes.now }
        ensures { IfOk result (λ parts. AreJoined site tables routes.now places parts) }
    {
        let (parcels, most) = open_parcels(alloc, &site, routes, places)?;
        Ok(Parts {
            site,
            parcels,
            tables,
            most,
        })
    }

    /// Plays cycle `k`: all frames and parcels of it. It takes no memory.
    pub fn cycle(&mut self, k: u32, row: &Row, frames: &Frames, journal: &mut Journal)
        requires whole { AreWhole self.old }
        requires run { k < MAX_CYCLES }
        requires row { IsRowOf self.old.site.plant (state_of self.old).bundles row.now }
        requires reached { IsReached (state_of self.old) row.now k }
        requires frames { AreFramesOf (setup_of self.old.site.plant (state_of self.old).bundles) k frames.now }
        requires room { HasRoomFor (state_of self.old) 1 journal.old.room }
        ensures whole { AreWhole self.new }
        ensures played { HavePlayed row.now k (state_of self.old) (state_of self.new) journal.old journal.new }
    {
        parcels_keep_to_their_room();
        let switches = self.tables.switches.as_mut_slice();
        let (queue, came) = (&mut self.tables.queue, &mut self.tables.came);
        frames_cycle(&self.site, row, k, switches, frames, queue, came, journal);
        self.parcels.cycle(&self.site, row, k, switches, journal);
    }
}

impl Tables {
    /// A switch for each device's blocks, before the first cycle, and room for so many events.
    ///
    /// # Errors
    /// `NoMemory` where memory runs out.
    fn new(alloc: Global, bundles: &[Bundle], places: usize) -> Result<Tables, NoMemory>
        requires { All IsBundle bundles.now }
        ensures { IfOk result (λ tables. AreTablesOf bundles.now places tables) }
    {
        Ok(Tables {
            switches: new_switches(alloc, bundles)?,
            queue: Queue::new(alloc, places)?,
            came: Vec::with_capacity(alloc, places)?,
        })
    }
}

/// The parcels of a network, and the most rows that a cycle adds to what the journal may need, where its frames add at
/// most so many.
///
/// # Errors
/// `NoMemory` where memory runs out.
fn open_parcels(
    alloc: Global,
    site: &Site,
    routes: &Routes,
    places: usize,
) -> Result<(Parcels, usize), NoMemory>
    requires { IsRoutesOf site.now.plant routes.now }
    ensures { IfOk result (λ made. AreParcelsOf site.now.plant routes.now places made.0 made.1) }
{
    let parcels = Parcels::new(alloc, site, routes)?;
    let Some(rows) = parcels.most_rows(site.plant()) else {
        return Err(NoMemory);
    };
    let Some(most) = places.checked_add(rows) else {
        return Err(NoMemory);
    };
    Ok((parcels, most))
}
