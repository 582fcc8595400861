//! Sending.

ghost use Rattle.std.specs.Prelude.{◌≡◌, ◌-◌, ◌<◌, ◌≤◌, [], ℕ, List, length, map, slice_get, Some, All, AllPairs};
ghost use Rattle.irt_base.specs.declared.blocks.Bundle.{Bundle};
ghost use Rattle.irt_switch.specs.State.{SwitchState, gate_of, with_gate};
ghost use Rattle.parcel_rules.specs.Cycle.{sends};
ghost use Rattle.parcel_rules.specs.Loads.{Gates, gate_at};
ghost use Rattle.period_gate.specs.SentList.{left_of};
ghost use Rattle.plan_rules.specs.World.{WorldRow};
ghost use Rattle.net_parcels.specs.Gates.{HasGate, IsGated, IsSent, HasSent, sent_by_port, all_but_gates};
ghost use Rattle.net_parcels.specs.Outlets.{ends_of, ports_of, ArePortsApart};
ghost use Rattle.net_parcels.specs.declared.outlets.Outlet.{Outlet};

use crate::outbox::Outbox;
use crate::outlets::Outlet;
use irt_base::numbers::PortNo;
use irt_base::plants::Class;
use irt_switch::Switch;

/// Lets all ports send what they send in the cycle that their switches have begun. It takes no memory.
pub fn send_all(switches: &mut [Switch], outlets: &mut [Outlet])
    requires gated { All (IsGated switches.old) (ports_of outlets.old) }
    requires apart { ArePortsApart (ports_of outlets.old) }
    ensures ends { ends_of outlets.new ≡ ends_of outlets.old }
    ensures sent { All (HasSent switches.old switches.new) outlets.new }
    ensures kept { all_but_gates switches.new ≡ all_but_gates switches.old }
{
    for index in 0..outlets.len() {
        send(switches, &mut outlets[index]);
    }
}

/// Lets a port send what it sends in the cycle that its switch has begun. It takes no memory.
fn send(switches: &mut [Switch], outlet: &mut Outlet)
    requires { IsGated switches.old outlet.old.at }
    ensures outlet { outlet.new ≡ record outlet.old { sent = outlet.new.sent } }
    ensures sent { IsSent switches.old outlet.new switches.new }
{
    let switch = &mut switches[usize::from(outlet.at.0.0)];
    drain(switch, outlet.at.1, &mut outlet.sent);
}

/// Takes all out that a port sends in the cycle that the switch has begun. It takes no memory.
fn drain(switch: &mut Switch, port: PortNo, sent: &mut Outbox)
    requires { HasGate switch.old port.0 }
    ensures sent { sent.new ≡ sent_by_port switch.old port.0 }
    ensures switch { switch.new ≡ with_gate switch.old port.0 (left_of (gate_of switch.old port.0) sent.new) }
{
    sent.clear();
    let most = switch.waiting(port, Class::Orange) + switch.waiting(port, Class::Green);
    let mut local = 0;
    for _call in 0..most {
        let Some(one) = switch.next(port, local) else {
            return;
        };
        sent.push(one);
        local = one.end;
    }
}
