//! Whether a plant makes a record again.

ghost use Rattle.std.specs.Prelude.{◌≡◌, ◌≤◌, ◌↔◌, IsTrue, IfOk, length};
ghost use Rattle.irt_base.specs.declared.limits.TheConstants.{MAX_CYCLES};
ghost use Rattle.irt_route.specs.Routes.{IsRoutesOf};
ghost use Rattle.irt_world.specs.Rows.{Fits};
ghost use Rattle.plan_rules.specs.Plan.{setup_of};
ghost use Rattle.run_replay.specs.Left.{HasLeft, HaveImages};
ghost use Rattle.run_replay.specs.Replayed.{HasShape, IsReplayed};

use crate::cycles::play_all;
use crate::same::{are_same_images, are_same_rows};
use cycle_rows::law::journals_are_one;
use irt_base::list::Items;
use irt_base::memory::NoMemory;
use irt_route::tables::Routes;
use irt_world::rows::World;
use iso_plant::history::AppHistory;
use iso_plant::plant::{History, PlantState};
use iso_rules::law::images_are_one;
use plan_check::accepted::Accepted;
use record_text::record::{AppRecord, Record};
use std::alloc::Global;

/// Whether the images and the journal of a record are those of the accepted plan over a world, where in each cycle was
/// taken what the record says.
///
/// # Errors
/// `NoMemory` where memory runs out.
pub fn replays(
    alloc: Global,
    accepted: &Accepted,
    routes: &Routes,
    world: World,
    record: &Record,
) -> Result<bool, NoMemory>
    requires routes { IsRoutesOf accepted.now.plant routes.now }
    requires world { Fits accepted.now.plant accepted.now.bundles world }
    requires cycles { length world.rows ≤ MAX_CYCLES }
    requires shape { HasShape (setup_of accepted.now.plant accepted.now.bundles) (length world.rows) «record».now.apps }
    ensures { IfOk result (λ b. IsTrue b ↔
        IsReplayed accepted.now.plant accepted.now.bundles routes.now.walks world «record».now) }
{
    images_are_one();
    journals_are_one();
    let cycles = world.rows.len() as u32;
    let mut plant = PlantState::new(alloc, accepted, routes, world)?;
    play_all(alloc, &mut plant, record.apps.as_slice(), cycles)?;
    Ok(has_left(plant.into_history(), record))
}

/// Whether a plant left the images and the journal of a record.
fn has_left(history: History, record: &Record) -> bool
    requires { length history.apps ≡ length «record».now.apps }
    ensures { IsTrue result ↔ HasLeft history «record».now }
{
    are_same_rows(history.journal.as_slice(), record.journal.as_slice())
        && have_images(history.apps, record.apps.as_slice())
}

/// Whether these are the images of the logs, app by app.
fn have_images(histories: Items<AppHistory>, logs: &[AppRecord]) -> bool
    requires { length histories ≡ length logs.now }
    ensures { IsTrue result ↔ HaveImages histories logs.now }
{
    let mut app = 0;
    for history in histories.into_vec() {
        let (_, images) = history.into_lists();
        if !are_same_images(images.as_slice(), logs[app].images()) {
            return false;
        }
        app += 1;
    }
    true
}
