//! The end of all exchanges.

ghost use Rattle.std.specs.Prelude.{◌≡◌, ◌<◌, ◌≤◌, ℕ, [], ◌∷◌, length, slice_index_or, vec_capacity, vec_len, IfOk};
ghost use Rattle.std.specs.Vec.Iter.{into_iter_items};
ghost use Rattle.free_end.specs.Closed.{AreParts};
ghost use Rattle.free_end.specs.Ended.{HasEnded, HasLegalLog};
ghost use Rattle.free_plant.specs.Named.{cycles_of};
ghost use Rattle.free_plant.specs.Ties.{IsTied};

use crate::closing::close;
use free_jobs::firsts::Firsts;
use free_jobs::jobs::Job;
use free_plant::naming::Naming;
use free_plant::ports::Port;
use free_plant::wires::Wire;
use irt_base::list::Items;
use irt_base::memory::NoMemory;
use iso_app::IsoApp;
use iso_plant::plant::PlantState;
use iso_rules::turn::Turn;
use std::alloc::Global;
use std::vec::IntoIter;

/// Closes all exchanges, once all cycles are done and each app has found them, and gives each app's turns.
///
/// # Errors
/// `NoMemory` where memory runs out.
pub fn end_all<A: IsoApp, N: Naming + Firsts<A>>(
    alloc: Global,
    plant: &PlantState,
    wires: Vec<Wire<N>>,
    ports: Vec<Port<N>>,
    jobs: Vec<Job<A, N>>,
) -> Result<Items<Items<Turn>>, NoMemory>
    requires ended { HasEnded N.start plant.now }
    requires parts { AreParts N.start plant.now 0 wires.items ports.items jobs.items }
    ensures count { IfOk result (λ all. length all ≡ length wires.items) }
    ensures each { IfOk result (λ all. (app : ℕ) → app < length all →
        HasLegalLog A.reply A.next_state N.firsts plant.now app (slice_index_or all app [])) }
{
    match Vec::with_capacity(alloc, wires.len()) {
        Ok(mut all) => {
            end_into(plant, wires, ports, jobs, &mut all);
            Ok(Items::from_vec(all))
        }
        Err(_) => {
            drop(wires);
            drop(ports);
            drop(jobs);
            Err(NoMemory)
        }
    }
}

/// Closes all exchanges, and puts each app's turns into a list that has room for them.
fn end_into<A: IsoApp, N: Naming + Firsts<A>>(
    plant: &PlantState,
    wires: Vec<Wire<N>>,
    ports: Vec<Port<N>>,
    jobs: Vec<Job<A, N>>,
    all: &mut Vec<Items<Turn>>,
)
    requires ended { HasEnded N.start plant.now }
    requires parts { AreParts N.start plant.now 0 wires.items ports.items jobs.items }
    requires empty { all.old.items ≡ [] }
    requires room { vec_len wires ≤ vec_capacity all.old }
    ensures count { length all.new.items ≡ length wires.items }
    ensures each { (app : ℕ) → app < length all.new.items →
        HasLegalLog A.reply A.next_state N.firsts plant.now app (slice_index_or all.new.items app []) }
{
    let mut ports = ports.into_iter();
    let mut jobs = jobs.into_iter();
    for wire in wires {
        let port = take_next(&mut ports);
        let job = take_next(&mut jobs);
        all.push_reserved(end(plant, wire, port, job));
    }
    drop(ports);
    drop(jobs);
}

/// Closes the exchanges of an app that found all cycles, and gives its turns.
fn end<A: IsoApp, N: Naming + Firsts<A>>(
    _plant: &PlantState,
    wire: Wire<N>,
    port: Port<N>,
    job: Job<A, N>,
) -> Items<Turn>
    requires ended { HasEnded N.start _plant.now }
    requires tied { IsTied _plant.now wire port }
    requires job { job.number ≡ wire }
    requires found { job.found ≡ cycles_of N.start }
    ensures { HasLegalLog A.reply A.next_state N.firsts _plant.now wire result }
{
    close(wire, port, job)
}

/// The next item, where there is one.
pub fn take_next<T>(rest: &mut IntoIter<T>) -> T
    requires { 0 < length (into_iter_items rest.old) }
    ensures { into_iter_items rest.old ≡ result ∷ into_iter_items rest.new }
{
    let Some(next) = rest.next() else {
        unreachable!()
    };
    next
}
