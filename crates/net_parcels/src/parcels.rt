//! The parcels of a network.

ghost use Rattle.std.specs.Prelude.{◌≡◌, ◌+◌, ◌<◌, [], List, IfOk, IfSome};
ghost use Rattle.irt_base.specs.declared.limits.TheConstants.{MAX_CYCLES};
ghost use Rattle.irt_base.specs.declared.numbers.PortNo.{PortNo};
ghost use Rattle.irt_route.specs.Routes.{IsRoutesOf};
ghost use Rattle.net_site.specs.Site.{IsPlayedAt, bundles_of};
ghost use Rattle.parcel_rules.specs.Loads.{Loads};
ghost use Rattle.parcel_rules.specs.Room.{most_rows};
ghost use Rattle.net_parcels.specs.Loads.{HoldLoads, AreStepsOf};
ghost use Rattle.net_parcels.specs.Parcels.{IsMadeFor, HaveWalks, AllHaveOpened, GrowsByParcels, HasRoomIn, KeepAllButGates};

use crate::notes::Notes;
use crate::opening::{made_at_most, rows_by_steps, walk_steps};
use crate::outlets::{Outlet, outlets};
use crate::playing::play;
use irt_base::list::Items;
use irt_base::memory::NoMemory;
use irt_base::numbers::{DevId, PortNo};
use irt_base::plants::Plant;
use irt_route::tables::Routes;
use irt_switch::Switch;
use irt_world::rows::Row;
use net_site::site::Site;
use parcel_loads::flight::Flight;
use period_gate::QUEUE_ROOM;
use run_journal::journal::Journal;
use std::alloc::Global;
use std::marker::Model;

/// The parcels of a network that are on the way, and the walks that they take. A clause sees the ports of the plant, the
/// steps of the walks, the parcels, and how many may be handed over in a cycle.
#[derive(Drop)]
pub struct Parcels {
    outlets: Vec<Outlet>,
    steps: Vec<Items<(DevId, PortNo)>>,
    flight: Flight,
    notes: Notes,
}

impl Model for Parcels {
    ghost use Rattle.net_parcels.specs.Invariant.{HasRoom};
    ghost use Rattle.net_parcels.specs.Outlets.{ends_of};
    ghost use Rattle.net_parcels.specs.Parcels.{ParcelsState};

    ghost Value = { ParcelsState };

    ghost view = { λ p. record {
      ends = ends_of p.outlets.items;
      steps = p.steps.items;
      flight = p.flight.handed;
      room = p.notes.room;
    } };

    ghost invariant = { λ p. HasRoom p.outlets.items p.flight };
}

impl Parcels {
    /// Nothing on the way. It takes all the memory that it will use.
    ///
    /// # Errors
    /// `NoMemory` where memory runs out.
    pub fn new(alloc: Global, site: &Site, routes: &Routes) -> Result<Parcels, NoMemory>
        requires routes { IsRoutesOf site.now.plant routes.now }
        ensures plant { IfOk result (λ p. IsMadeFor site.now.plant p) }
        ensures steps { IfOk result (λ p. AreStepsOf site.now.plant routes.now.walks p.steps) }
        ensures flight { IfOk result (λ p. p.flight ≡ []) }
    {
        let outlets = outlets(alloc, site)?;
        let Some(links) = outlets.len().checked_mul(2 * QUEUE_ROOM) else {
            return Err(NoMemory);
        };
        let Some(handed) = links.checked_add(made_at_most(site.plant())) else {
            return Err(NoMemory);
        };
        Ok(Parcels {
            steps: walk_steps(alloc, site, routes)?,
            flight: Flight::new(alloc, links)?,
            notes: Notes::new(alloc, handed)?,
            outlets,
        })
    }

    /// The most rows of a journal that the parcels which are made in a cycle may ever get. `None` comes where they are too
    /// many for any memory.
    pub fn most_rows(&self, plant: &Plant) -> Option<usize>
        requires { HaveWalks plant.now self.now.steps }
        ensures { (walks : List (List PortNo)) → AreStepsOf plant.now walks self.now.steps →
            IfSome result (λ rows. rows ≡ most_rows plant.now walks) }
    {
        rows_by_steps(plant.traffic.as_slice(), self.steps.as_slice())
    }

    /// Plays the parcels of cycle `k`, which the switches have begun. It takes no memory.
    pub fn cycle(
        &mut self,
        site: &Site,
        row: &Row,
        k: u32,
        switches: &mut [Switch],
        journal: &mut Journal,
    )
        requires plan { IsPlayedAt site.now (bundles_of switches.old) row.now }
        requires run { k < MAX_CYCLES }
        requires opened { AllHaveOpened site.now.plant row.now k switches.old }
        requires plant { IsMadeFor site.now.plant self.old }
        requires walks { HaveWalks site.now.plant self.old.steps }
        requires room { HasRoomIn site.now.plant switches.old self.old.steps self.old.flight row.now k journal.old.room }
        ensures kept { self.new ≡ record self.old { flight = self.new.flight } }
        ensures parcels { (walks : List (List PortNo)) (loads : Loads) → AreStepsOf site.now.plant walks self.old.steps →
            HoldLoads site.now.plant switches.old self.old.flight loads →
            GrowsByParcels site.now.plant (bundles_of switches.old) walks row.now k loads journal.old journal.new
            switches.new self.new.flight }
        ensures switches { KeepAllButGates switches.old switches.new }
    {
        play(
            site,
            row,
            k,
            self.steps.as_slice(),
            self.outlets.as_mut_slice(),
            &mut self.flight,
            &mut self.notes,
            switches,
            journal,
        );
    }
}
