//! What is opened for each app.

ghost use Rattle.std.specs.Prelude.{◌≡◌, ◌<◌, IfOk, Some, length, map, slice_get};
ghost use Rattle.irt_base.specs.declared.plants.App.{App};
ghost use Rattle.iso_free.specs.Opened.{AreOpened, IsOpened};

use free_plant::buffers::Buffer;
use io_buffers::opening::{Opening, exchange};
use irt_base::list::Items;
use irt_base::memory::NoMemory;
use irt_base::numbers::DevId;
use iso_plant::plant::PlantState;
use iso_run::lengths::output_lengths;
use plan_check::accepted::Accepted;
use plant_stations::law::stations_fit_exchanges;
use std::alloc::Global;

/// An app with its exchanges, and what a cycle takes from it and publishes to it.
#[derive(Drop)]
pub struct OpenedApp<A> {
    pub(crate) app: A,
    /// The words of each frame that its device provides.
    pub(crate) lengths: Items<u16>,
    pub(crate) buffer: Buffer,
    pub(crate) input: Opening,
    pub(crate) output: Opening,
}

/// Opens the exchanges of all apps, in the plant's order.
///
/// # Errors
/// `NoMemory` where memory runs out.
pub fn open_all<A: Drop>(
    alloc: Global,
    accepted: &Accepted,
    plant: &PlantState,
    apps: Items<A>,
) -> Result<Vec<OpenedApp<A>>, NoMemory>
    requires apps { length apps ≡ length accepted.now.plant.apps }
    requires plant { plant.now.plant ≡ accepted.now.plant }
    requires bundles { plant.now.bundles ≡ accepted.now.bundles }
    ensures apps { IfOk result (λ all. map (λ o. o.app) all.items ≡ apps) }
    ensures opened { IfOk result (λ all. AreOpened (Some plant.now) all.items) }
{
    let mut all = Vec::with_capacity(alloc, apps.len())?;
    for app in apps.into_vec() {
        let opened = open(alloc, accepted, plant, all.len(), app)?;
        all.push(opened)?;
    }
    Ok(all)
}

/// Opens the exchanges of the app of this number.
fn open<A: Drop>(
    alloc: Global,
    accepted: &Accepted,
    plant: &PlantState,
    number: usize,
    app: A,
) -> Result<OpenedApp<A>, NoMemory>
    requires number { number < length accepted.now.plant.apps }
    requires plant { plant.now.plant ≡ accepted.now.plant }
    requires bundles { plant.now.bundles ≡ accepted.now.bundles }
    ensures app { IfOk result (λ o. o.app ≡ app) }
    ensures opened { IfOk result (IsOpened (Some plant.now) number) }
{
    accepted.facts();
    stations_fit_exchanges();
    let output_words = plant.output_words(number);
    let input_words = plant.input_words(number);
    Ok(OpenedApp {
        app,
        lengths: output_lengths(alloc, accepted, device_of(accepted, number))?,
        buffer: Buffer::new(alloc, output_words, input_words)?,
        input: exchange(alloc, input_words)?,
        output: exchange(alloc, output_words + 1)?,
    })
}

/// The device of an app.
fn device_of(accepted: &Accepted, number: usize) -> DevId
    requires { number < length accepted.now.plant.apps }
    ensures { (a : App) → slice_get accepted.now.plant.apps number ≡ Some a → result ≡ a.device }
{
    accepted.plant().apps.as_slice()[number].device
}
