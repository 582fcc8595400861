//! Whether a record is legal.

ghost use Rattle.std.specs.Prelude.{◌≡◌, ◌≤◌, ◌↔◌, IfOk, IsTrue, length};
ghost use Rattle.irt_base.specs.declared.limits.TheConstants.{MAX_CYCLES};
ghost use Rattle.irt_route.specs.Routes.{IsRoutesOf};
ghost use Rattle.irt_world.specs.Rows.{Fits, world_rows};
ghost use Rattle.iso_rules.specs.Legal.{IsLegal};
ghost use Rattle.iso_run.specs.Run.{IsRunJournal};
ghost use Rattle.plan_rules.specs.Plan.{setup_of};
ghost use Rattle.record_text.specs.Text.{run_of};

use crate::apps::are_kept;
use irt_base::list::Items;
use irt_base::memory::NoMemory;
use irt_route::tables::Routes;
use irt_world::rows::World;
use iso_app::IsoApp;
use plan_check::accepted::Accepted;
use record_text::record::Record;
use run_replay::replay::replays;
use std::alloc::Global;

/// Whether a record is legal for an accepted plan over a world, with these applications before their first turn, in the
/// plant's order.
/// # Errors
/// `NoMemory` where memory runs out.
pub fn judge<A: IsoApp>(
    alloc: Global,
    accepted: &Accepted,
    routes: &Routes,
    world: World,
    apps: Items<A>,
    log: &Record,
) -> Result<bool, NoMemory>
    requires routes { IsRoutesOf accepted.now.plant routes.now }
    requires world { Fits accepted.now.plant accepted.now.bundles world }
    requires cycles { length world.rows ≤ MAX_CYCLES }
    requires apps { length apps ≡ length accepted.now.plant.apps }
    ensures { IfOk result (λ b. IsTrue b ↔ IsLegal A.reply A.next_state
        (setup_of accepted.now.plant accepted.now.bundles)
        (world_rows accepted.now.plant accepted.now.bundles world) apps
        (IsRunJournal accepted.now.plant accepted.now.bundles routes.now.walks world) (run_of log.now)) }
{
    let logs = log.apps.as_slice();
    if logs.len() != accepted.plant().apps.len() {
        return Ok(false);
    }
    if !are_kept(alloc, accepted, world.rows.len(), apps, logs)? {
        return Ok(false);
    }
    replays(alloc, accepted, routes, world, log)
}
