//! A cycle of a network's parcels.

ghost use Rattle.std.specs.Prelude.{◌≡◌, ◌+◌, ◌*◌, ◌<◌, ◌≤◌, List, length};
ghost use Rattle.irt_base.specs.declared.limits.TheConstants.{MAX_CYCLES};
ghost use Rattle.irt_base.specs.declared.numbers.PortNo.{PortNo};
ghost use Rattle.net_site.specs.Site.{IsPlayedAt, bundles_of};
ghost use Rattle.parcel_rules.specs.Loads.{Loads};
ghost use Rattle.period_gate.specs.declared.queue.TheConstants.{QUEUE_ROOM};
ghost use Rattle.net_parcels.specs.Gates.{all_but_gates};
ghost use Rattle.net_parcels.specs.Invariant.{HasRoom};
ghost use Rattle.net_parcels.specs.Loads.{HoldLoads, AreStepsOf};
ghost use Rattle.net_parcels.specs.Outlets.{AreEndsOf, ends_of};
ghost use Rattle.net_parcels.specs.Parcels.{HaveWalks, AllHaveOpened, GrowsByParcels, HasRoomIn, made_at_most};

use crate::bringing::bring_all;
use crate::handing::hand_over_all;
use crate::notes::Notes;
use crate::outlets::Outlet;
use crate::rows::append_rows;
use crate::sending::send_all;
use irt_base::list::Items;
use irt_base::numbers::{DevId, PortNo};
use irt_switch::Switch;
use irt_world::rows::Row;
use net_site::site::Site;
use parcel_loads::flight::Flight;
use run_journal::journal::Journal;

/// Plays the parcels of cycle `k`, which the switches have begun: all are handed over, the ports send, the rows are
/// appended, and the links bring what was sent. It takes no memory.
pub fn play(
    site: &Site,
    row: &Row,
    k: u32,
    steps: &[Items<(DevId, PortNo)>],
    outlets: &mut [Outlet],
    flight: &mut Flight,
    notes: &mut Notes,
    switches: &mut [Switch],
    journal: &mut Journal,
)
    requires plan { IsPlayedAt site.now (bundles_of switches.old) row.now }
    requires run { k < MAX_CYCLES }
    requires opened { AllHaveOpened site.now.plant row.now k switches.old }
    requires ends { AreEndsOf site.now.plant (ends_of outlets.old) }
    requires inside { HasRoom outlets.old flight.old }
    requires notes { length outlets.old * (2 * QUEUE_ROOM) + made_at_most site.now.plant ≤ notes.old.room }
    requires walks { HaveWalks site.now.plant steps.now }
    requires room { HasRoomIn site.now.plant switches.old steps.now flight.old.handed row.now k journal.old.room }
    ensures ends { ends_of outlets.new ≡ ends_of outlets.old }
    ensures inside { HasRoom outlets.new flight.new }
    ensures notes { notes.new.room ≡ notes.old.room }
    ensures parcels { (walks : List (List PortNo)) (loads : Loads) → AreStepsOf site.now.plant walks steps.now →
        HoldLoads site.now.plant switches.old flight.old.handed loads →
        GrowsByParcels site.now.plant (bundles_of switches.old) walks row.now k loads journal.old journal.new
        switches.new flight.new.handed }
    ensures switches { all_but_gates switches.new ≡ all_but_gates switches.old }
{
    notes.clear();
    hand_over_all(site.plant(), steps, k, flight, switches, notes);
    send_all(switches, outlets);
    append_rows(site, row, k, outlets, notes, journal);
    bring_all(site, row, outlets, flight);
}
