//! What a run leaves behind.

ghost use Rattle.std.specs.Prelude.{◌≡◌, IfOk, length};
ghost use Rattle.iso_run.specs.Logs.{IsLeft, log_from, logs_from};

use crate::apps::LockstepApp;
use irt_base::list::Items;
use irt_base::memory::NoMemory;
use iso_plant::history::AppHistory;
use iso_plant::plant::{History, PlantState};
use record_text::record::{AppRecord, Record};
use std::alloc::Global;
use std::mem;

/// What a run leaves of an application. Its turns are taken out.
fn close_app<A: Drop>(alloc: Global, app: &mut LockstepApp<A>, history: AppHistory) -> AppRecord
    ensures { result ≡ log_from app.old history }
{
    let turns = mem::replace(&mut app.turns, Items::new(alloc));
    let (takes, images) = history.into_lists();
    AppRecord::new(takes, images, turns)
}

/// What a run leaves of all applications, in the plant's order.
fn close_all<A: Drop>(
    alloc: Global,
    mut apps: Vec<LockstepApp<A>>,
    histories: Items<AppHistory>,
) -> Result<Items<AppRecord>, NoMemory>
    requires { length histories ≡ length apps.items }
    ensures { IfOk result (λ records. records ≡ logs_from apps.items histories) }
{
    let mut records = Items::with_capacity(alloc, histories.len())?;
    for history in histories.into_vec() {
        let app = &mut apps[records.len()];
        records.push(close_app(alloc, app, history))?;
    }
    Ok(records)
}

/// What a run of so many cycles leaves behind.
pub fn close<A: Drop>(
    alloc: Global,
    plant: PlantState,
    apps: Vec<LockstepApp<A>>,
    cycles: u32,
) -> Result<Record, NoMemory>
    requires { length apps.items ≡ length plant.plant.apps }
    ensures { IfOk result (λ r. IsLeft plant apps.items cycles r) }
{
    let History {
        apps: histories,
        journal,
    } = plant.into_history();
    let apps = close_all(alloc, apps, histories)?;
    Ok(Record {
        cycles,
        apps,
        journal,
    })
}
