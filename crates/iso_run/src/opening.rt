//! The applications before the first cycle.

ghost use Rattle.std.specs.Prelude.{◌≡◌, ◌<◌, IfOk, Some, length, slice_get};
ghost use Rattle.irt_base.specs.declared.plants.App.{App};
ghost use Rattle.iso_run.specs.Opened.{opened_app, opened_end, AreOpened};
ghost use Rattle.plan_rules.specs.Plan.{setup_of};

use crate::apps::LockstepApp;
use crate::ends::{AppEnd, PlainEnds};
use crate::lengths::output_lengths;
use irt_base::list::Items;
use irt_base::memory::NoMemory;
use irt_base::numbers::DevId;
use iso_plant::plant::PlantState;
use plan_check::accepted::Accepted;
use std::alloc::Global;

/// The applications with their ends.
#[derive(Drop)]
pub struct Opened<A> {
    pub(crate) apps: Vec<LockstepApp<A>>,
    pub(crate) ends: PlainEnds,
}

/// The device of an application.
fn device_of(accepted: &Accepted, number: usize) -> DevId
    requires { number < length accepted.now.plant.apps }
    ensures { (x : App) → slice_get accepted.now.plant.apps number ≡ Some x → result ≡ x.device }
{
    accepted.plant().apps.as_slice()[number].device
}

/// The application of this number, with its end.
fn open_app<A: Drop>(
    alloc: Global,
    accepted: &Accepted,
    plant: &PlantState,
    number: usize,
    app: A,
) -> Result<(LockstepApp<A>, AppEnd), NoMemory>
    requires number { number < length accepted.now.plant.apps }
    requires plant { plant.now.plant ≡ accepted.now.plant }
    requires bundles { plant.now.bundles ≡ accepted.now.bundles }
    ensures app { IfOk result (λ p. (x : App) → slice_get accepted.now.plant.apps number ≡ Some x →
        p.0 ≡ opened_app (setup_of accepted.now.plant accepted.now.bundles) x.device.0 app) }
    ensures end { IfOk result (λ p. (x : App) → slice_get accepted.now.plant.apps number ≡ Some x →
        p.1 ≡ opened_end (setup_of accepted.now.plant accepted.now.bundles) x.device.0) }
{
    let output_words = plant.output_words(number);
    let input_words = plant.input_words(number);
    let lengths = output_lengths(alloc, accepted, device_of(accepted, number))?;
    let end = AppEnd::new(alloc, output_words, input_words)?;
    let app = LockstepApp::new(alloc, app, lengths, output_words, input_words)?;
    Ok((app, end))
}

/// The applications of an accepted plan, in their first states.
pub fn open_all<A: Drop>(
    alloc: Global,
    accepted: &Accepted,
    plant: &PlantState,
    apps: Items<A>,
) -> Result<Opened<A>, NoMemory>
    requires apps { length apps ≡ length accepted.now.plant.apps }
    requires plant { plant.now.plant ≡ accepted.now.plant }
    requires bundles { plant.now.bundles ≡ accepted.now.bundles }
    ensures { IfOk result (λ o. AreOpened (setup_of accepted.now.plant accepted.now.bundles) apps o.apps.items
        o.ends.ends.items) }
{
    let mut opened = Vec::with_capacity(alloc, apps.len())?;
    let mut ends = Vec::with_capacity(alloc, apps.len())?;
    for app in apps.into_vec() {
        let (app, end) = open_app(alloc, accepted, plant, opened.len(), app)?;
        opened.push(app)?;
        ends.push(end)?;
    }
    Ok(Opened {
        apps: opened,
        ends: PlainEnds { ends },
    })
}
