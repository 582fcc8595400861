//! What lies under the lock.

ghost use Rattle.std.specs.Prelude.{◌≡◌, ◌≤◌, ◌<◌, ℕ, IsTrue, false, length};
ghost use Rattle.free_plant.specs.Buffers.{buffer_at};
ghost use Rattle.free_plant.specs.Named.{IsOfRun, app_count, cycles_of};
ghost use Rattle.free_plant.specs.Publishing.{CanPublish, HavePublished};
ghost use Rattle.free_plant.specs.Taking.{CanTake, HaveTaken};
ghost use Rattle.free_plant.specs.Ties.{HasWidths, IsDone, IsTried};
ghost use Rattle.free_plant.specs.Views.{AreWires, new_port, port_at};
ghost use Rattle.irt_base.specs.declared.limits.TheConstants.{MAX_CYCLES};

use crate::buffers::{Buffer, Buffers};
use crate::naming::Naming;
use crate::ports::Port;
use crate::wires::Wire;
use iso_plant::plant::PlantState;
use std::marker::Model;

/// The plant, and the passes of the cycles. A clause sees both, and whether the run was given up.
#[derive(Drop)]
pub struct Locked<N: Naming> {
    plant: PlantState,
    ports: Vec<Port<N>>,
    buffers: Buffers,
    cycles: u32,
    is_stopped: bool,
}

/// What came of a cycle that was tried.
#[derive(Clone, Copy, PartialEq, Eq)]
pub enum Tried {
    AllDone,
    /// So many cycles are done now.
    Stepped(u32),
    /// The run was given up.
    Stopped,
    /// An app is too far behind.
    Stale,
}

impl<N: Naming> Model for Locked<N> {
    ghost use Rattle.free_plant.specs.Ties.{IsLocked};
    ghost use Rattle.free_plant.specs.Views.{LockedView};

    ghost Value = { LockedView };

    ghost view = { λ s. record { plant = s.plant; ports = s.ports.items; is_stopped = s.is_stopped } };

    ghost invariant = { λ s. IsLocked N.start s.plant s.ports.items s.buffers.apps.items s.cycles };
}

impl<N: Naming> Locked<N> {
    /// Before cycle 0, with ports that did nothing.
    pub fn new(
        plant: PlantState,
        ports: Vec<Port<N>>,
        buffers: Vec<Buffer>,
        cycles: u32,
    ) -> Locked<N>
        requires run { IsOfRun N.start plant }
        requires begun { plant.done ≡ 0 }
        requires cycles { cycles ≡ cycles_of N.start }
        requires few { cycles ≤ MAX_CYCLES }
        requires ports_count { length ports.items ≡ app_count N.start }
        requires ports { (app : ℕ) → app < length ports.items → port_at ports.items app ≡ new_port app }
        requires buffers_count { length buffers.items ≡ app_count N.start }
        requires buffers { (app : ℕ) → app < length buffers.items → HasWidths N.start app (buffer_at buffers.items app) }
        ensures { result.is_stopped ≡ false }
    {
        let _done = plant.done();
        Locked {
            plant,
            ports,
            buffers: Buffers { apps: buffers },
            cycles,
            is_stopped: false,
        }
    }

    /// The number of cycles done.
    pub fn done(&self) -> u32
        ensures done { result ≡ self.now.plant.done }
        ensures within { result ≤ cycles_of N.start }
    {
        self.plant.done()
    }

    /// Whether the run was given up.
    pub fn is_stopped(&self) -> bool
        ensures { result ≡ self.now.is_stopped }
    {
        self.is_stopped
    }

    /// Gives the run up.
    pub fn stop(&mut self)
        ensures { IsTrue self.new.is_stopped }
    {
        self.is_stopped = true;
    }

    /// Tries the next cycle: takes from each app, and where each of these takes may be recorded, plays the cycle and
    /// publishes an image to each app. It takes no memory.
    pub fn cycle(&mut self, wires: &[Wire<N>]) -> Tried
        requires { AreWires (app_count N.start) wires.now }
        ensures { IsTried (cycles_of N.start) self.old.plant self.new.plant result }
    {
        if self.is_stopped {
            return Tried::Stopped;
        }
        let done = self.plant.done();
        if done >= self.cycles {
            return Tried::AllDone;
        }
        if !take_all(&mut self.ports, &mut self.buffers.apps, wires, done) {
            return Tried::Stale;
        }
        self.plant.step(&mut self.buffers);
        publish_all(&mut self.ports, self.buffers.apps.as_slice(), wires);
        Tried::Stepped(self.plant.done())
    }

    /// The plant and the ports, once all cycles are done.
    pub fn into_parts(self) -> (PlantState, Vec<Port<N>>)
        requires { self.plant.done ≡ cycles_of N.start }
        ensures plant { result.0 ≡ self.plant }
        ensures done { IsDone N.start result.0 result.1.items }
    {
        let _done = self.plant.done();
        let Locked {
            plant,
            ports,
            buffers,
            cycles: _,
            is_stopped: _,
        } = self;
        drop(buffers);
        (plant, ports)
    }
}

/// Takes from each app's output, until one is too far behind to be recorded in cycle `k`. Whether none was.
fn take_all<N: Naming>(
    ports: &mut Vec<Port<N>>,
    buffers: &mut Vec<Buffer>,
    wires: &[Wire<N>],
    k: u32,
) -> bool
    requires { CanTake N.start wires.now ports.old.items buffers.old.items }
    ensures { HaveTaken N.start k ports.old.items ports.new.items buffers.new.items result }
{
    for app in 0..wires.len() {
        buffers[app].fill(&mut ports[app], &wires[app]);
        if !buffers[app].is_near(k) {
            return false;
        }
    }
    true
}

/// Publishes its image to each app.
fn publish_all<N: Naming>(ports: &mut Vec<Port<N>>, buffers: &[Buffer], wires: &[Wire<N>])
    requires { CanPublish N.start wires.now ports.old.items buffers.now }
    ensures { HavePublished ports.old.items ports.new.items buffers.now }
{
    for app in 0..wires.len() {
        ports[app].publish(&wires[app], buffers[app].image(), buffers[app].number());
    }
}
