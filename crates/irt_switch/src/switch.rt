//! The switch of one device.

ghost use Rattle.std.specs.Prelude.{◌≡◌, ◌↔◌, ◌≤◌, ◌^◌, ◌&&◌, pos, ◌+ℤ◌, ◌≤ℤ◌, int_le, length, slice_get, drop, option_and_then, IsTrue, IfSome, IfOk, OnOk};
ghost use Rattle.irt_base.specs.Valid.{IsBundle, IsEntry};
ghost use Rattle.period_gate.specs.declared.queue.TheConstants.{QUEUE_ROOM};
ghost use Rattle.period_gate.specs.Gate.{queue_of, with_last, left_after};
ghost use Rattle.rtc3_frame.specs.Frame.{fields_at};
ghost use Rattle.irt_switch.specs.State.{new_switch, HasPort, gate_of, with_gate, sent_next};
ghost use Rattle.irt_switch.specs.Begin.{Begins};
ghost use Rattle.irt_switch.specs.Arrive.{action_of, taken_of, receiving_of, frame_of, is_receiving, is_received_in_red, is_late, start_of};

use crate::action::{Action, Cause, Outgoing};
use crate::entries::entry_of;
use crate::gates::{begin_gates, new_gates};
use crate::ports::{is_kept, ports_of};
use crate::release::{in_release_order, next_due, outgoing};
use deep_copy::DeepCopy;
use irt_base::blocks::{Bundle, Entry, Period, Side};
use irt_base::cycles::{due, guard, period, wire};
use irt_base::memory::NoMemory;
use irt_base::numbers::{Ns, PortNo};
use irt_base::plants::Class;
use period_gate::Gate;
use period_gate::parcels::{Offered, Parcel, Sent};
use rtc3_frame::read_rtc3;
use std::alloc::Global;
use std::marker::Model;

/// The switch of one device, which knows its own blocks alone. A clause sees them, the cycle that was begun last, whether
/// the device is in step in it, the frames that are still to be released in it, and the gates of the ports.
#[derive(Drop)]
pub struct Switch {
    bundle: Bundle,
    /// The entries of the frames that the device provides, in the order of release.
    provided: Vec<Entry>,
    /// How many of them the cycle is past.
    past: usize,
    cycle: u32,
    in_step: bool,
    gates: Vec<Gate>,
}

impl Model for Switch {
    ghost use Rattle.rtc3_frame.specs.Frame.{fields_at};
    ghost use Rattle.irt_switch.specs.State.{SwitchState};
    ghost use Rattle.irt_switch.specs.Order.{still_due};
    ghost use Rattle.irt_switch.specs.Kept.{IsWhole};

    ghost Value = { SwitchState };

    ghost view = { λ s. record {
      bundle = s.bundle;
      cycle = s.cycle;
      in_step = s.in_step;
      left = still_due s.in_step s.cycle s.past s.provided.items;
      gates = s.gates.items;
    } };

    ghost invariant = { λ s. IsWhole s.bundle s.provided.items s.past s.gates.items };
}

impl Switch {
    /// A switch with a copy of its device's blocks. It takes all the memory that it will use. Before the first `begin` the
    /// device is not in step.
    pub fn new(alloc: Global, bundle: &Bundle) -> Result<Switch, NoMemory>
        requires { IsBundle bundle.now }
        ensures { IfOk result (λ s. s ≡ new_switch bundle.now) }
    {
        Ok(Switch {
            bundle: bundle.deep_copy(alloc)?,
            provided: in_release_order(alloc, bundle.frames.entries.as_slice())?,
            past: 0,
            cycle: 0,
            in_step: false,
            gates: new_gates(alloc, bundle.periods.ports.len())?,
        })
    }

    /// Whether the device has such a port.
    pub fn has_port(&self, port: PortNo) -> bool
        ensures { IsTrue result ↔ HasPort self.now.bundle port.0 }
    {
        1 <= port.0 && usize::from(port.0) <= self.bundle.periods.ports.len()
    }

    /// Begins cycle `k`, in which the device is in step or not: its frames are to be released, and its gates begin.
    pub fn begin(&mut self, k: u32, in_step: bool)
        ensures { Begins self.old k in_step self.new }
    {
        self.cycle = k;
        self.in_step = in_step;
        self.past = 0;
        begin_gates(self.gates.as_mut_slice(), &self.bundle, k);
    }

    /// The next frame of the cycle that the device starts itself. `None` comes where none is left.
    pub fn release(&mut self) -> Option<Outgoing>
        ensures first { result ≡ slice_get self.old.left 0 }
        ensures rest { self.new ≡ record self.old { left = drop 1 self.old.left } }
    {
        if !self.in_step {
            return None;
        }
        let place = next_due(self.provided.as_slice(), self.past, self.cycle);
        let entry = *self.provided.get(place)?;
        self.past = place + 1;
        Some(outgoing(&entry))
    }

    /// What becomes of a frame that begins to arrive by a port at `local`, in local ns of the cycle. `frame` are its bytes, and
    /// `bridge` is how long the device takes for it, in ns, where it forwards relative to the arrival.
    pub fn arrive(&self, local: Ns, port: PortNo, frame: &[u8], bridge: u32) -> Action
        requires { HasPort self.now.bundle port.0 }
        ensures { result ≡ action_of self.now.bundle self.now.cycle self.now.in_step
            (record { local = local; port = port.0; frame = frame_of (fields_at frame.now) }) bridge }
    {
        match self.taken(local, port, frame) {
            Ok(entry) => Action::Forward {
                at: self.start(&entry, local, bridge),
                ports: ports_of(entry.tx),
                here: is_kept(entry.tx),
            },
            Err(cause) => Action::Dropped { cause },
        }
    }

    fn start(&self, entry: &Entry, local: Ns, bridge: u32) -> Ns
        requires { local ≤ℤ pos (2 ^ 32) }
        ensures { result ≡ start_of self.now.bundle entry.now local bridge }
    {
        if self.bundle.frames.relative {
            local + i64::from(bridge)
        } else {
            i64::from(entry.send_offset)
        }
    }

    /// The entry by which a frame is taken, or the first cause for which it is not.
    fn taken(&self, local: Ns, port: PortNo, frame: &[u8]) -> Result<Entry, Cause>
        requires { HasPort self.now.bundle port.0 }
        ensures taken { result ≡ taken_of self.now.bundle self.now.cycle self.now.in_step
            (record { local = local; port = port.0; frame = frame_of (fields_at frame.now) }) }
        ensures early { OnOk result (local ≤ℤ pos (2 ^ 32)) }
    {
        if !self.in_step {
            return Err(Cause::NotInStep);
        }
        let Some(entry) = self.receiving(frame) else {
            return Err(Cause::UnknownFrame);
        };
        if entry.rx_port != port.0 {
            Err(Cause::WrongPort)
        } else if !self.is_received_in_red(&entry, local, port) {
            Err(Cause::OutsideRx)
        } else if self.is_late(&entry, local) {
            Err(Cause::TooLate)
        } else {
            Ok(entry)
        }
    }

    /// The entry by which the device receives such bytes in the cycle.
    fn receiving(&self, frame: &[u8]) -> Option<Entry>
        ensures entry { result ≡
            option_and_then (receiving_of self.now.bundle self.now.cycle) (frame_of (fields_at frame.now)) }
        ensures valid { IfSome result IsEntry }
    {
        let Ok(read) = read_rtc3(frame) else {
            return None;
        };
        let entry = entry_of(self.bundle.frames.entries.as_slice(), read.frame)?;
        if is_receiving(entry, read.csdu.len(), self.cycle) {
            Some(*entry)
        } else {
            None
        }
    }

    /// Whether a frame that begins to arrive then is whole in the red period, which begins a guard early.
    fn is_received_in_red(&self, entry: &Entry, local: Ns, port: PortNo) -> bool
        requires port { HasPort self.now.bundle port.0 }
        requires valid { IsEntry entry.now }
        ensures answer { result ≡ is_received_in_red self.now.bundle self.now.cycle entry.now local port.0 }
        ensures early { IsTrue result → local ≤ℤ pos (2 ^ 32) }
    {
        let rx = period(&self.bundle.periods, port, self.cycle, Side::Rx);
        is_in_red(
            rx,
            guard(self.bundle.sync.window),
            wire(entry.data_length),
            local,
        )
    }

    /// Whether an absolute device has to send the frame on before it surely has it.
    fn is_late(&self, entry: &Entry, local: Ns) -> bool
        ensures { result ≡ is_late self.now.bundle entry.now local }
    {
        let latest = i64::from(entry.send_offset) - i64::from(self.bundle.global.bridge);
        !self.bundle.frames.relative && ports_of(entry.tx) != 0 && latest < local
    }

    /// How many parcels of a class wait at a port: at most `QUEUE_ROOM`.
    pub fn waiting(&self, port: PortNo, class: Class) -> usize
        requires { HasPort self.now.bundle port.0 }
        ensures count { result ≡ length (queue_of class (gate_of self.now port.0)) }
        ensures room { result ≤ QUEUE_ROOM }
    {
        self.gates[usize::from(port.0) - 1].waiting(class)
    }

    /// Offers a parcel to a port. It is refused where `QUEUE_ROOM` parcels of its class wait there, which changes nothing,
    /// and put last in its class elsewhere.
    pub fn offer(&mut self, port: PortNo, class: Class, parcel: Parcel) -> Offered
        requires { HasPort self.old.bundle port.0 }
        ensures full { (result ≡ Offered.Full) ↔ (length (queue_of class (gate_of self.old port.0)) ≡ QUEUE_ROOM) }
        ensures refused { result ≡ Offered.Full → self.new ≡ self.old }
        ensures queued { result ≡ Offered.Queued →
            self.new ≡ with_gate self.old port.0 (with_last class parcel (gate_of self.old port.0)) }
    {
        let gate = &mut self.gates[usize::from(port.0) - 1];
        gate.offer(class, parcel)
    }

    /// Takes the next parcel of the cycle out at a port, with its time. `local` is when the parcel before ended, or 0 for
    /// the first of the cycle. A device that is not in step lets none out.
    pub fn next(&mut self, port: PortNo, local: u32) -> Option<Sent>
        requires { HasPort self.old.bundle port.0 }
        ensures given { result ≡ sent_next self.old port.0 local }
        ensures left { self.new ≡ with_gate self.old port.0 (left_after result (gate_of self.old port.0)) }
    {
        if !self.in_step {
            return None;
        }
        let gate = &mut self.gates[usize::from(port.0) - 1];
        gate.next(local)
    }
}

/// Whether the entry receives frames with so many bytes of data in cycle `k`.
fn is_receiving(entry: &Entry, count: usize, k: u32) -> bool
    requires { 1 ≤ entry.now.ratio }
    ensures { result ≡ is_receiving k count entry.now }
{
    0 < entry.rx_port && usize::from(entry.data_length) == count && due(k, entry.ratio, entry.phase)
}

/// Whether what begins to arrive then, and takes so long, is whole in the red period, which begins a guard early.
fn is_in_red(rx: Period, guard: u32, wire: u32, local: Ns) -> bool
    ensures answer { result ≡
        (int_le (pos rx.red) (local +ℤ pos guard) && int_le (local +ℤ pos wire) (pos rx.orange)) }
    ensures early { IsTrue result → local ≤ℤ pos (2 ^ 32) }
{
    let opens = i64::from(rx.red) - i64::from(guard);
    let closes = i64::from(rx.orange) - i64::from(wire);
    opens <= local && local <= closes
}
