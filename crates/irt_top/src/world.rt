//! The world of a run.

ghost use Rattle.std.specs.Prelude.{◌≡◌, ◌≤◌, IfOk, IfErr, length};
ghost use Rattle.irt_base.specs.declared.limits.TheConstants.{MAX_CYCLES};
ghost use Rattle.irt_io.specs.Fault.{IsLater};
ghost use Rattle.irt_steps.specs.Follow.{Follows, Decides, HasCause, IsNoFault};
ghost use Rattle.irt_world.specs.Rows.{Fits};
ghost use Rattle.irt_top.specs.World.{by_file, by_seed, reading_steps, source_of, world_steps};

use crate::line::world_line;
use irt_base::limits::WORLD_FILE;
use irt_io::shelf::Shelf;
use irt_steps::line::line_stop;
use irt_steps::load::load_file;
use irt_steps::stop::{Cause, Stop};
use irt_world::rows::World;
use plan_check::accepted::Accepted;
use plan_run::law::worlds_and_walks_are_one;
use plan_run::world::seed_world;
use std::alloc::Global;
use world_file::fault::WorldFault;
use world_file::reading::read_world;

/// How a world is asked for: by a seed, or by the name of a file.
#[derive(Clone, Copy, PartialEq, Eq)]
pub enum WorldAsked<'a> {
    Seed(u64),
    File(&'a str),
}

/// The world of a run of an accepted plan, with so many cycles.
pub fn world_of<S: Shelf>(
    alloc: Global,
    shelf: &mut S,
    accepted: &Accepted,
    cycles: u32,
    asked: WorldAsked<'_>,
) -> Result<World, Stop>
    requires { cycles ≤ MAX_CYCLES }
    ensures step { Follows (λ w. w) (world_steps (source_of asked.entry) accepted.now.plant accepted.now.bundles cycles)
        (S.files shelf.old) (S.files shelf.new) result }
    ensures fits { IfOk result (Fits accepted.now.plant accepted.now.bundles) }
    ensures count { IfOk result (λ w. length w.rows ≡ cycles) }
    ensures kept { S.files shelf.new ≡ S.files shelf.old }
    ensures cause { HasCause (S.faults shelf.old) (S.faults shelf.new) result }
    ensures later { IsLater (S.faults shelf.old) (S.faults shelf.new) }
{
    match asked {
        WorldAsked::Seed(seed) => world_by_seed(alloc, accepted, cycles, seed),
        WorldAsked::File(name) => load_world(alloc, shelf, accepted, cycles, name),
    }
}

/// The world of a seed.
fn world_by_seed(alloc: Global, accepted: &Accepted, cycles: u32, seed: u64) -> Result<World, Stop>
    requires { cycles ≤ MAX_CYCLES }
    ensures step { Decides (λ w. w) (world_steps (by_seed seed) accepted.now.plant accepted.now.bundles cycles) result }
    ensures fits { IfOk result (Fits accepted.now.plant accepted.now.bundles) }
    ensures count { IfOk result (λ w. length w.rows ≡ cycles) }
    ensures calm { IfErr result IsNoFault }
{
    worlds_and_walks_are_one();
    Ok(seed_world(alloc, accepted, cycles, seed)?)
}

/// The world of a file.
fn load_world<S: Shelf>(
    alloc: Global,
    shelf: &mut S,
    accepted: &Accepted,
    cycles: u32,
    name: &str,
) -> Result<World, Stop>
    requires { cycles ≤ MAX_CYCLES }
    ensures step { Follows (λ w. w) (world_steps (by_file name.now) accepted.now.plant accepted.now.bundles cycles)
        (S.files shelf.old) (S.files shelf.new) result }
    ensures fits { IfOk result (Fits accepted.now.plant accepted.now.bundles) }
    ensures count { IfOk result (λ w. length w.rows ≡ cycles) }
    ensures kept { S.files shelf.new ≡ S.files shelf.old }
    ensures cause { HasCause (S.faults shelf.old) (S.faults shelf.new) result }
    ensures later { IsLater (S.faults shelf.old) (S.faults shelf.new) }
{
    let bytes = load_file(alloc, shelf, name, WORLD_FILE)?;
    world_in(alloc, accepted, cycles, bytes.as_slice())
}

/// The world whose text the bytes are.
fn world_in(alloc: Global, accepted: &Accepted, cycles: u32, bytes: &[u8]) -> Result<World, Stop>
    requires { cycles ≤ MAX_CYCLES }
    ensures step { Decides (λ w. w) (reading_steps accepted.now.plant accepted.now.bundles cycles bytes.now) result }
    ensures fits { IfOk result (Fits accepted.now.plant accepted.now.bundles) }
    ensures count { IfOk result (λ w. length w.rows ≡ cycles) }
    ensures calm { IfErr result IsNoFault }
{
    accepted.facts();
    match read_world(alloc, bytes, accepted.plant(), accepted.bundles(), cycles) {
        Ok(world) => Ok(world),
        Err(WorldFault::NoMemory) => Err(Stop::NoMemory),
        Err(WorldFault::Refused { line, place }) => {
            Err(line_stop(Cause::World, world_line(alloc, line, place)))
        }
    }
}
