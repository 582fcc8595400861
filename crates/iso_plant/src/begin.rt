//! The parts of a plant before cycle 0.

ghost use Rattle.std.specs.Prelude.{◌≡◌, [], IfOk, Ok};
ghost use Rattle.irt_net.specs.Net.{Carries, HasRoomFor};
ghost use Rattle.irt_route.specs.Routes.{IsRoutesOf};
ghost use Rattle.iso_plant.specs.Made.{AreBlank, AreReady};
ghost use Rattle.parcel_rules.specs.Loads.{no_loads};
ghost use Rattle.plan_rules.specs.Places.{IsAccepted};
ghost use Rattle.plan_rules.specs.Plan.{IsPlan};

use crate::history::AppHistory;
use crate::made::{new_histories, zero_images, zero_outputs};
use irt_base::blocks::Bundle;
use irt_base::list::Items;
use irt_base::memory::NoMemory;
use irt_base::plants::{App, Plant};
use irt_net::net::Net;
use irt_route::tables::Routes;
use plan_check::accepted::Accepted;
use plant_stations::Stations;
use plant_stations::law::stations_fit_exchanges;
use run_journal::journal::Journal;
use std::alloc::Global;

/// What plays cycles, and what they are written down in.
#[derive(Drop)]
pub(crate) struct Machines {
    pub(crate) net: Net,
    pub(crate) stations: Stations,
    pub(crate) journal: Journal,
}

/// What stands by app and by device.
#[derive(Drop)]
pub(crate) struct Tables {
    pub(crate) apps: Items<App>,
    pub(crate) histories: Vec<AppHistory>,
    pub(crate) outputs: Vec<Items<u64>>,
    pub(crate) images: Vec<Items<u64>>,
}

/// The network, the stations and the journal of an accepted plan, with room for so many cycles.
///
/// # Errors
/// `NoMemory` where memory runs out.
pub(crate) fn new_machines(
    alloc: Global,
    accepted: &Accepted,
    routes: &Routes,
    cycles: u32,
) -> Result<Machines, NoMemory>
    requires { IsRoutesOf accepted.now.plant routes.now }
    ensures { IfOk result (λ m.
        AreReady accepted.now.plant accepted.now.bundles routes.now.walks cycles m.net m.stations m.journal) }
{
    accepted.facts();
    let net = Net::new(alloc, accepted, routes)?;
    let journal = new_journal(alloc, &net, cycles);
    let written = with(net, journal)?;
    let stations = Stations::new(alloc, accepted.plant(), accepted.bundles());
    let ((net, journal), stations) = with(written, stations)?;
    Ok(Machines {
        net,
        stations,
        journal,
    })
}

/// A journal with room for so many cycles of a network.
///
/// # Errors
/// `NoMemory` where memory runs out.
fn new_journal(alloc: Global, net: &Net, cycles: u32) -> Result<Journal, NoMemory>
    requires { Carries net.now no_loads }
    ensures rows { IfOk result (λ journal. journal.rows ≡ []) }
    ensures room { IfOk result (λ journal. HasRoomFor net.now cycles journal.room) }
{
    let mut journal = Journal::new(alloc);
    net.reserve(&mut journal, cycles)?;
    Ok(journal)
}

/// What was made, with what came next.
///
/// # Errors
/// Where that failed. What was made is dropped.
fn with<T: Drop, U>(made: T, next: Result<U, NoMemory>) -> Result<(T, U), NoMemory>
    ensures made { IfOk result (λ both. both.0 ≡ made) }
    ensures next { IfOk result (λ both. next ≡ Ok both.1) }
{
    Ok((made, next?))
}

/// The apps of an accepted plan, an empty history of each with room for so many cycles, and zeros as what was sent and
/// published last.
///
/// # Errors
/// `NoMemory` where memory runs out.
pub(crate) fn new_tables(
    alloc: Global,
    plant: &Plant,
    bundles: &[Bundle],
    cycles: usize,
) -> Result<Tables, NoMemory>
    requires plan { IsPlan plant.now bundles.now }
    requires accepted { IsAccepted plant.now bundles.now }
    ensures { IfOk result (λ t.
        AreBlank plant.now bundles.now cycles t.apps t.histories.items t.outputs.items t.images.items) }
{
    stations_fit_exchanges();
    let histories = new_histories(alloc, plant, bundles, cycles)?;
    let images = zero_images(alloc, histories.as_slice())?;
    Ok(Tables {
        apps: plant.apps.try_copy(alloc)?,
        histories,
        outputs: zero_outputs(alloc, bundles)?,
        images,
    })
}
