//! Runs with the applications that a plant names, and their texts.

ghost use Rattle.std.specs.Prelude.{◌≡◌, ◌≤◌, IfOk, List, length};
ghost use Rattle.std.specs.Thread.{IsSync};
ghost use Rattle.irt_base.specs.declared.limits.TheConstants.{MAX_CYCLES};
ghost use Rattle.irt_base.specs.declared.numbers.PortNo.{PortNo};
ghost use Rattle.irt_route.specs.Routes.{IsRoutesOf};
ghost use Rattle.irt_world.specs.Rows.{Fits};
ghost use Rattle.irt_world.specs.declared.rows.World.{World};
ghost use Rattle.record_fits.specs.Fits.{FitsPlant};
ghost use Rattle.plan_run.specs.Run.{IsRecordBy, IsRecordOf, IsRunText, Pace, in_lockstep, kinds_of, text_of};

use irt_base::list::Items;
use irt_base::memory::NoMemory;
use irt_base::plants::Plant;
use irt_route::tables::Routes;
use irt_world::rows::World;
use iso_app::AppKind;
use iso_rules::law::lockstep_records_are_legal;
use iso_run::lockstep::run_lockstep;
use plan_check::accepted::Accepted;
use record_fits::law::legal_records_fit;
use record_numbers::numbers::numbers_are_in_range;
use record_text::print_record;
use record_text::record::Record;
use std::alloc::Global;
use std::thread::Threads;

/// How runs go. `pace` says which publications are taken.
pub trait Runs {
    ghost pace: { Pace };

    // What a run needs of the type of its handle: that threads may share it.
    ghost can_run: { Type 0 };

    /// Runs an accepted plan over all rows of a world with the applications that its plant names, and gives the
    /// record's text.
    ///
    /// # Errors
    /// `NoMemory` where memory runs out.
    fn run_text(
        &self,
        alloc: Global,
        accepted: &Accepted,
        routes: &Routes,
        world: World,
    ) -> Result<Vec<u8>, NoMemory>
        requires ready { can_run }
        requires routes { IsRoutesOf accepted.now.plant routes.now }
        requires world { Fits accepted.now.plant accepted.now.bundles world }
        requires some { 1 ≤ length world.rows }
        requires cycles { length world.rows ≤ MAX_CYCLES }
        ensures { IfOk result (λ v.
            IsRunText pace accepted.now.plant accepted.now.bundles routes.now.walks world v.items) };
}

/// Runs in lockstep: after each cycle all applications make one turn, side by side.
#[derive(Drop)]
pub struct Lockstep<'a, R> {
    pub rt: &'a R,
}

impl<R: Threads + Sync> Runs for Lockstep<'_, R> {
    ghost pace = { in_lockstep };

    ghost can_run = { IsSync R.row };

    fn run_text(
        &self,
        alloc: Global,
        accepted: &Accepted,
        routes: &Routes,
        world: World,
    ) -> Result<Vec<u8>, NoMemory> {
        let log = run_record(self.rt, alloc, accepted, routes, world)?;
        print_run(alloc, accepted, &log)
    }
}

/// Runs an accepted plan over a world with the applications that its plant names, in lockstep.
///
/// # Errors
/// `NoMemory` where memory runs out.
pub fn run_record<R: Threads + Sync>(
    rt: &R,
    alloc: Global,
    accepted: &Accepted,
    routes: &Routes,
    world: World,
) -> Result<Record, NoMemory>
    requires routes { IsRoutesOf accepted.now.plant routes.now }
    requires world { Fits accepted.now.plant accepted.now.bundles world }
    requires cycles { length world.rows ≤ MAX_CYCLES }
    ensures { IfOk result (IsRecordOf accepted.now.plant accepted.now.bundles routes.now.walks world) }
{
    let apps = kinds_of(alloc, accepted.plant())?;
    run_lockstep(rt, alloc, accepted, routes, world, apps)
}

/// The text of the record of a run of an accepted plan over one cycle or more. The record fits the plant.
///
/// # Errors
/// `NoMemory` where memory runs out.
pub fn print_run(alloc: Global, accepted: &Accepted, log: &Record) -> Result<Vec<u8>, NoMemory>
    requires { (pace : Pace) × (walks : List (List PortNo)) × (world : World) × (1 ≤ length world.rows) ×
        IsRecordBy pace accepted.now.plant accepted.now.bundles walks world log.now }
    ensures text { IfOk result (λ v. v.items ≡ text_of accepted.now.plant log.now) }
    ensures fits { FitsPlant accepted.now.plant log.now }
{
    record_fits(accepted, log);
    print_record(alloc, accepted.plant(), log)
}

/// The record of a run of an accepted plan over one cycle or more fits the plant.
fn record_fits(accepted: &Accepted, log: &Record)
    requires { (pace : Pace) × (walks : List (List PortNo)) × (world : World) × (1 ≤ length world.rows) ×
        IsRecordBy pace accepted.now.plant accepted.now.bundles walks world log.now }
    ensures { FitsPlant accepted.now.plant log.now }
{
    accepted.facts();
    lockstep_records_are_legal::<AppKind>();
    legal_records_fit::<AppKind>();
    numbers_are_in_range(log);
}

/// The applications of a plant before their first turn.
///
/// # Errors
/// `NoMemory` where memory runs out.
pub fn kinds_of(alloc: Global, plant: &Plant) -> Result<Items<AppKind>, NoMemory>
    ensures { IfOk result (λ kinds. kinds ≡ kinds_of plant.now) }
{
    let apps = plant.apps.as_slice();
    let mut kinds = Items::with_capacity(alloc, apps.len())?;
    for app in apps {
        kinds.push(AppKind::of(app))?;
    }
    Ok(kinds)
}
