//! The apps' threads.

ghost use Rattle.std.specs.Prelude.{◌≡◌, ◌≤◌, All, IfErr, IfOk, [], length, map, vec_capacity, vec_len};
ghost use Rattle.free_plant.specs.Named.{app_count, cycles_of};
ghost use Rattle.free_plant.specs.Views.{AreWires};
ghost use Rattle.iso_free.specs.Started.{place_of};

use crate::shared::Shared;
use free_jobs::firsts::Firsts;
use free_jobs::jobs::Job;
use free_plant::naming::Naming;
use free_plant::wires::Wire;
use irt_base::memory::NoMemory;
use iso_app::IsoApp;
use std::alloc::Global;
use std::marker::PhantomData;
use std::sync::Wait;
use std::sync::atomic::{AtomicBool, Ordering};
use std::thread::{Promise, PromisedHandle, Scope, Threads};

/// What a thread promises of the job that it gives back: it is that of this app, and found all cycles.
#[derive(Drop)]
pub struct FoundAll<N: Naming> {
    pub(crate) number: usize,
    pub(crate) of: PhantomData<N>,
}

impl<A: IsoApp, N: Naming + Firsts<A>> Promise<Result<Job<A, N>, Job<A, N>>> for FoundAll<N> {
    ghost use Rattle.std.specs.Prelude.{◌≡◌, IfOk};
    ghost use Rattle.free_plant.specs.Named.{cycles_of};

    ghost kept_by = { λ p r. IfOk r (λ job. (job.number ≡ p.number) × (job.found ≡ cycles_of N.start)) };
}

/// A job in a thread, or with the caller.
#[derive(Drop)]
pub enum Started<A: IsoApp, N: Naming + Firsts<A>> {
    Thread(PromisedHandle<Result<Job<A, N>, Job<A, N>>, FoundAll<N>>),
    Here(Job<A, N>),
}

/// What a thread does: it makes the app's turns. Where the job was turned away, it comes back at once.
fn run<A: IsoApp, N: Naming + Firsts<A>, R: Wait>(
    rt: &R,
    alloc: Global,
    shared: &Shared<N>,
    wire: &Wire<N>,
    away: &AtomicBool,
    job: Job<A, N>,
) -> Result<Job<A, N>, Job<A, N>>
    requires { job.number ≡ wire.now }
    ensures ok { IfOk result (λ done. (done.number ≡ job.number) × (done.found ≡ cycles_of N.start)) }
    ensures err { IfErr result (λ back. back.number ≡ job.number) }
{
    if away.load(Ordering::SeqCst) {
        return Err(job);
    }
    shared.turns(rt, alloc, wire, job)
}

/// Starts the thread of a job. Where none can be started, the job stays with the caller.
fn start<'s, 'e, A: IsoApp + Send + 's, N: Naming + Firsts<A> + Send + Sync + 's, R: Wait + Sync>(
    scope: &Scope<'s, &'e ()>,
    rt: &'s R,
    alloc: Global,
    shared: &'s Shared<N>,
    wire: &'s Wire<N>,
    away: &'s AtomicBool,
    job: Job<A, N>,
) -> Started<A, N>
    requires { job.number ≡ wire.now }
    ensures { place_of result ≡ job.number }
{
    let promise = FoundAll {
        number: job.number(),
        of: PhantomData,
    };
    match scope.spawn_with(promise, move || run(rt, alloc, shared, wire, away, job)) {
        Ok(handle) => Started::Thread(handle),
        Err(refused) => {
            away.store(true, Ordering::SeqCst);
            match (refused.value)() {
                Ok(job) | Err(job) => Started::Here(job),
            }
        }
    }
}

/// Starts all jobs. `room` has room for them.
pub fn start_all<
    's,
    'e,
    A: IsoApp + Send + 's,
    N: Naming + Firsts<A> + Send + Sync + 's,
    R: Wait + Sync,
>(
    scope: &Scope<'s, &'e ()>,
    rt: &'s R,
    alloc: Global,
    shared: &'s Shared<N>,
    wires: &'s [Wire<N>],
    away: &'s [AtomicBool],
    jobs: Vec<Job<A, N>>,
    room: Vec<Started<A, N>>,
) -> Vec<Started<A, N>>
    requires wires { AreWires (app_count N.start) wires.now }
    requires away { length away.now ≡ app_count N.start }
    requires empty { room.items ≡ [] }
    requires room { vec_len jobs ≤ vec_capacity room }
    ensures { map place_of result.items ≡ map (λ j. j.number) jobs.items }
{
    let mut started = room;
    for job in jobs {
        let number = job.number();
        started.push_reserved(start(scope, rt, alloc, shared, &wires[number], &away[number], job));
    }
    started
}

/// A job that is with the caller makes a turn, where it found fewer cycles than are done.
fn turn_here<A: IsoApp, N: Naming + Firsts<A>, R: Wait>(
    rt: &R,
    alloc: Global,
    wires: &[Wire<N>],
    one: &mut Started<A, N>,
    done: u32,
) -> Result<(), NoMemory>
    requires wires { AreWires (app_count N.start) wires.now }
    requires within { done ≤ cycles_of N.start }
    ensures { place_of one.new ≡ place_of one.old }
{
    match one {
        Started::Here(job) => {
            let number = job.number();
            if job.found() < done {
                job.turn(rt, alloc, &wires[number], done)?;
            }
            Ok(())
        }
        Started::Thread(_) => Ok(()),
    }
}

/// All jobs that are with the caller make a turn.
fn turns_here<A: IsoApp, N: Naming + Firsts<A>, R: Wait>(
    rt: &R,
    alloc: Global,
    wires: &[Wire<N>],
    started: &mut Vec<Started<A, N>>,
    done: u32,
) -> Result<(), NoMemory>
    requires wires { AreWires (app_count N.start) wires.now }
    requires within { done ≤ cycles_of N.start }
    ensures { map place_of started.new.items ≡ map place_of started.old.items }
{
    for at in 0..started.len() {
        turn_here(rt, alloc, wires, &mut started[at], done)?;
    }
    Ok(())
}

/// Runs all cycles, and after each of them the jobs that are with the caller.
///
/// # Errors
/// `NoMemory` where memory runs out here, or the run was given up.
pub fn run_cycles<A: IsoApp, N: Naming + Firsts<A>, R: Wait>(
    rt: &R,
    alloc: Global,
    shared: &Shared<N>,
    wires: &[Wire<N>],
    started: &mut Vec<Started<A, N>>,
) -> Result<(), NoMemory>
    requires { AreWires (app_count N.start) wires.now }
    ensures { map place_of started.new.items ≡ map place_of started.old.items }
{
    for _ in rt.forever() {
        let Some(done) = shared.cycle(rt, wires)? else {
            return Ok(());
        };
        turns_here(rt, alloc, wires, started, done)?;
    }
    unreachable!()
}

/// The end of a job: it found all cycles.
fn finish<A: IsoApp, N: Naming + Firsts<A>, R: Threads + Wait>(
    rt: &R,
    alloc: Global,
    shared: &Shared<N>,
    wires: &[Wire<N>],
    one: Started<A, N>,
) -> Result<Job<A, N>, NoMemory>
    requires { AreWires (app_count N.start) wires.now }
    ensures number { IfOk result (λ job. job.number ≡ place_of one) }
    ensures found { IfOk result (λ job. job.found ≡ cycles_of N.start) }
{
    match one {
        Started::Thread(handle) => handle.join(rt).map_err(|_| NoMemory),
        Started::Here(job) => {
            let number = job.number();
            if shared.is_all(job.found()) {
                return Ok(job);
            }
            shared
                .turns(rt, alloc, &wires[number], job)
                .map_err(|_| NoMemory)
        }
    }
}

/// Ends all jobs. `room` has room for them.
///
/// # Errors
/// `NoMemory` where the run was given up.
pub fn join_all<A: IsoApp, N: Naming + Firsts<A>, R: Threads + Wait>(
    rt: &R,
    alloc: Global,
    shared: &Shared<N>,
    wires: &[Wire<N>],
    started: Vec<Started<A, N>>,
    room: Vec<Job<A, N>>,
) -> Result<Vec<Job<A, N>>, NoMemory>
    requires wires { AreWires (app_count N.start) wires.now }
    requires empty { room.items ≡ [] }
    requires room { vec_len started ≤ vec_capacity room }
    ensures numbers { IfOk result (λ jobs. map (λ j. j.number) jobs.items ≡ map place_of started.items) }
    ensures found { IfOk result (λ jobs. All (λ j. j.found ≡ cycles_of N.start) jobs.items) }
{
    let mut jobs = room;
    for one in started {
        jobs.push_reserved(finish(rt, alloc, shared, wires, one)?);
    }
    Ok(jobs)
}
