//! What links bring to the next cycle.

ghost use Rattle.std.specs.Prelude.{◌≡◌, ◌+◌, ◌*◌, ◌≤◌, ◌++◌, length, flat_map, slice_get, option_and_then};
ghost use Rattle.std.specs.Option.{option_copied};
ghost use Rattle.period_gate.specs.declared.queue.TheConstants.{QUEUE_ROOM};
ghost use Rattle.net_parcels.specs.Outlets.{parcel_world, brought_to};

use crate::outlets::Outlet;
use irt_world::rows::Row;
use net_site::site::Site;
use parcel_loads::flight::Flight;

/// Puts in the place of what was on the way what the links bring of what the ports have sent: by receiving device and
/// port, and for each port in the order of sending. It takes no memory.
pub fn bring_all(site: &Site, row: &Row, outlets: &[Outlet], flight: &mut Flight)
    requires { length outlets.now * (2 * QUEUE_ROOM) ≤ flight.old.room }
    ensures flight { flight.new ≡ record flight.old {
      handed = flat_map (brought_to site.now.plant (parcel_world row.now) outlets.now) outlets.now;
    } }
    ensures few { length flight.new.handed ≤ length outlets.now * (2 * QUEUE_ROOM) }
{
    flight.clear();
    for outlet in outlets {
        bring_to(site, row, outlets, outlet, flight);
    }
}

/// Puts last what its link brings to a port. It takes no memory.
fn bring_to(site: &Site, row: &Row, outlets: &[Outlet], outlet: &Outlet, flight: &mut Flight)
    requires { length flight.old.handed + 2 * QUEUE_ROOM ≤ flight.old.room }
    ensures flight { flight.new ≡ record flight.old {
      handed = flight.old.handed ++
          brought_to site.now.plant (parcel_world row.now) outlets.now outlet.now;
    } }
    ensures few { length flight.new.handed ≤ length flight.old.handed + 2 * QUEUE_ROOM }
{
    let Some(far) = far_outlet(outlets, outlet) else {
        return;
    };
    if site.is_uncut(row, far.at.0, far.at.1) {
        flight.bring(outlet.at.0, far.sent.as_slice());
    }
}

/// The port at the other end of a port's link.
fn far_outlet<'a>(outlets: &'a [Outlet], outlet: &Outlet) -> Option<&'a Outlet>
    ensures { option_copied result ≡ option_and_then (slice_get outlets.now) outlet.now.far }
{
    outlets.get(outlet.far?)
}
