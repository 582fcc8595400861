//! What the threads share.

ghost use Rattle.std.specs.Prelude.{◌≡◌, ◌<◌, ◌≤◌, IfErr, IfOk, IfSome, IsTrue};
ghost use Rattle.free_plant.specs.Named.{app_count, cycles_of};
ghost use Rattle.free_plant.specs.Views.{AreWires};

use free_jobs::firsts::Firsts;
use free_jobs::jobs::Job;
use free_plant::locked::{Locked, Tried};
use free_plant::naming::Naming;
use free_plant::wires::Wire;
use irt_base::memory::NoMemory;
use iso_app::IsoApp;
use std::alloc::Global;
use std::marker::Model;
use std::sync::{Condvar, Mutex, Wait};

/// The plant under its lock, and what wakes those that wait for it. A clause sees the number of cycles of the run.
#[derive(Drop)]
pub struct Shared<N: Naming> {
    locked: Mutex<Locked<N>>,
    changed: Condvar,
    cycles: u32,
}

impl<N: Naming> Model for Shared<N> {
    ghost use Rattle.std.specs.Prelude.{◌≡◌, ℕ};
    ghost use Rattle.free_plant.specs.Named.{cycles_of};

    ghost Value = { ℕ };

    ghost view = { λ s. s.cycles };

    ghost invariant = { λ s. s.cycles ≡ cycles_of N.start };
}

impl<N: Naming> Shared<N> {
    /// Shares the plant of a run of so many cycles.
    pub fn new(locked: Locked<N>, cycles: u32) -> Shared<N>
        requires { cycles ≡ cycles_of N.start }
        ensures { result ≡ cycles }
    {
        Shared {
            locked: Mutex::new(locked),
            changed: Condvar::new(),
            cycles,
        }
    }

    /// Waits until more cycles are done than `found`, and says how many; nothing where the run was given up.
    fn wait_past<R: Wait>(&self, rt: &R, found: u32) -> Option<u32>
        ensures later { IfSome result (λ done. found < done) }
        ensures within { IfSome result (λ done. done ≤ cycles_of N.start) }
    {
        for _ in rt.forever() {
            let locked = self.locked.lock(rt);
            if locked.is_stopped() {
                return None;
            }
            let done = locked.done();
            if found < done {
                return Some(done);
            }
            drop(self.changed.wait(rt, locked));
        }
        unreachable!()
    }

    /// Wakes those that wait.
    fn wake<R: Wait>(&self, rt: &R) {
        let locked = self.locked.lock(rt);
        self.changed.notify_all();
        drop(locked);
    }

    /// Gives the run up.
    pub fn stop<R: Wait>(&self, rt: &R) {
        let mut locked = self.locked.lock(rt);
        locked.stop();
        self.changed.notify_all();
        drop(locked);
    }

    /// Whether these are all cycles.
    pub fn is_all(&self, found: u32) -> bool
        ensures { IsTrue result → found ≡ cycles_of N.start }
    {
        found == self.cycles
    }

    /// Makes an app's turns, until it found all cycles done.
    ///
    /// # Errors
    /// The job as it is, where the run was given up, or memory ran out, which gives it up.
    pub fn turns<A: IsoApp, R: Wait>(
        &self,
        rt: &R,
        alloc: Global,
        wire: &Wire<N>,
        mut job: Job<A, N>,
    ) -> Result<Job<A, N>, Job<A, N>>
    where
        N: Firsts<A>,
        requires { job.number ≡ wire.now }
        ensures number { IfOk result (λ done. done.number ≡ job.number) }
        ensures given_up { IfErr result (λ back. back.number ≡ job.number) }
        ensures found { IfOk result (λ done. done.found ≡ cycles_of N.start) }
    {
        for _ in rt.forever() {
            let Some(found) = self.wait_past(rt, job.found()) else {
                return Err(job);
            };
            if job.turn(rt, alloc, wire, found).is_err() {
                self.stop(rt);
                return Err(job);
            }
            self.wake(rt);
            if found == self.cycles {
                return Ok(job);
            }
        }
        unreachable!()
    }

    /// Plays a cycle more, once all apps are near enough, and says how many are done then; nothing where all were done.
    ///
    /// # Errors
    /// `NoMemory` where the run was given up.
    pub fn cycle<R: Wait>(&self, rt: &R, wires: &[Wire<N>]) -> Result<Option<u32>, NoMemory>
        requires { AreWires (app_count N.start) wires.now }
        ensures { IfOk result (λ found. IfSome found (λ done. done ≤ cycles_of N.start)) }
    {
        for _ in rt.forever() {
            let mut locked = self.locked.lock(rt);
            match locked.cycle(wires) {
                Tried::AllDone => return Ok(None),
                Tried::Stepped(done) => {
                    self.changed.notify_all();
                    drop(locked);
                    return Ok(Some(done));
                }
                Tried::Stopped => return Err(NoMemory),
                Tried::Stale => drop(self.changed.wait(rt, locked)),
            }
        }
        unreachable!()
    }

    /// The plant, once no thread runs.
    pub fn into_locked(self) -> Locked<N> {
        let Shared {
            locked,
            changed,
            cycles: _,
        } = self;
        drop(changed);
        locked.into_inner()
    }
}
