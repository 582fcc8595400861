//! Handing over.

ghost use Rattle.std.specs.Prelude.{◌≡◌, find, Some, IfSome};
ghost use Rattle.irt_base.specs.declared.numbers.DevId.{DevId};
ghost use Rattle.irt_switch.specs.State.{HasPort};
ghost use Rattle.parcel_rules.specs.Steps.{leaves_from};
ghost use Rattle.parcel_loads.specs.Passing.{offered_to, passed_of, after_passing};

use crate::steps::step_at;
use irt_base::numbers::{DevId, PortNo};
use irt_base::plants::{Class, Traffic};
use irt_switch::Switch;
use parcel_rules::handed::Handed;
use period_gate::parcels::{Offered, Parcel};

/// What became of a parcel that was handed over.
#[derive(Clone, Copy, PartialEq, Eq)]
pub enum Passed {
    /// It has come to its target.
    Came,
    /// It waits at this port.
    Queued(PortNo),
    /// This port had no room for it.
    Refused(PortNo),
    /// Its walk does not go on here, which no walk to its target lets happen.
    Stays,
}

/// Hands a parcel over to the switch of its device. `t` is the parcel's traffic entry, and `steps` are those of the entry's
/// walk.
pub fn pass_on(
    switch: &mut Switch,
    t: &Traffic,
    steps: &[(DevId, PortNo)],
    handed: Handed,
) -> Passed
    requires { IfSome (find (leaves_from handed.device) steps.now) (λ at. HasPort switch.old.bundle at.1.0) }
    ensures passed { result ≡ passed_of switch.old t.now (find (leaves_from handed.device) steps.now) handed }
    ensures switch { switch.new ≡ after_passing switch.old t.now.«class» handed.parcel result }
{
    if t.target.0 == handed.device.0 {
        return Passed::Came;
    }
    match step_at(steps, handed.device) {
        None => Passed::Stays,
        Some(step) => offer(switch, step.1, t.class, handed.parcel),
    }
}

fn offer(switch: &mut Switch, port: PortNo, class: Class, parcel: Parcel) -> Passed
    requires { HasPort switch.old.bundle port.0 }
    ensures passed { (device : DevId) → result ≡ offered_to switch.old «class» (Some (device, port)) }
    ensures switch { switch.new ≡ after_passing switch.old «class» parcel result }
{
    match switch.offer(port, class, parcel) {
        Offered::Queued => Passed::Queued(port),
        Offered::Full => Passed::Refused(port),
    }
}
