//! A free run and its text.

ghost use Rattle.std.specs.Thread.{IsSync};
ghost use Rattle.plan_run.specs.Run.{freely};

use irt_base::memory::NoMemory;
use irt_route::tables::Routes;
use irt_world::rows::World;
use iso_free::run_free;
use plan_check::accepted::Accepted;
use plan_run::run::{Runs, kinds_of, print_run};
use std::alloc::Global;
use std::sync::Wait;
use std::thread::Threads;

/// Runs freely: each application turns in a thread of its own, or in the caller's where none can be started.
#[derive(Drop)]
pub struct Free<'a, R> {
    pub rt: &'a R,
}

impl<R: Threads + Wait + Sync> Runs for Free<'_, R> {
    ghost pace = { freely };

    ghost can_run = { IsSync R.row };

    fn run_text(
        &self,
        alloc: Global,
        accepted: &Accepted,
        routes: &Routes,
        world: World,
    ) -> Result<Vec<u8>, NoMemory> {
        let apps = kinds_of(alloc, accepted.plant())?;
        let log = run_free(self.rt, alloc, accepted, routes, world, apps)?;
        print_run(alloc, accepted, &log)
    }
}
