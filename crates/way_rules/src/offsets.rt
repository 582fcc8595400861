//! FrameSendOffsets: V4 and V5.

ghost use Rattle.std.specs.Prelude.{◌<◌, ◌≤◌, ◌^◌, ◌↔◌, IsTrue, length};
ghost use Rattle.irt_base.specs.Valid.{IsEntry};
ghost use Rattle.plan_rules.specs.Frames.{HasNoIdleOffset, ForwardsLateEnough};
ghost use Rattle.plan_rules.specs.Places.{IsScan, place_of};
ghost use Rattle.way_rules.specs.Fits.{StartsLate};
ghost use Rattle.way_rules.specs.Placed.{IsWayPlan};
ghost use Rattle.std.proofs.Common.{sym, ◌∙◌, arith};
ghost use Rattle.std.proofs.lemmas.Option.{none-some};

use crate::entry_rule::EntryRule;
use crate::scan::first_break;
use crate::starts::{is_absolute, is_own_start};
use irt_base::blocks::{Bundle, Entry};
use irt_base::cycles::guard;
use irt_base::limits::MAX_WINDOW;
use irt_base::list::Items;
use irt_base::numbers::{DevId, PortNo};
use irt_base::plants::Plant;
use irt_window::ports::leaves;
use plan_rules::place::Place;
use plan_rules::way::Way;
use plan_rules::ways::ways_are_one;

/// V4: the least place, by device and frame, at which an entry has a FrameSendOffset of no use.
pub fn offset_break(plant: &Plant, bundles: &[Bundle], ways: &[Items<Way>]) -> Option<Place>
    requires { IsWayPlan plant.now bundles.now ways.now }
    ensures { IsScan (HasNoIdleOffset plant.now bundles.now) result }
{
    first_break(&IdleOffset, plant, bundles, ways)
}

/// V5: the least place, by device and frame, at which an absolute forwarder may not have the frame yet when
/// it is to send it.
pub fn forward_break(plant: &Plant, bundles: &[Bundle], ways: &[Items<Way>]) -> Option<Place>
    requires { IsWayPlan plant.now bundles.now ways.now }
    ensures { IsScan (ForwardsLateEnough plant.now bundles.now) result }
{
    first_break(&LateOffset, plant, bundles, ways)
}

/// V4.
struct IdleOffset;

impl EntryRule for IdleOffset {
    ghost PORTS = { 1 };

    const PORTS: u8 = 1;

    ghost Holds = { λ plant bundles device port frame. HasNoIdleOffset plant bundles (place_of device port frame) };

    ghost IsFor = { λ _ _. Unit {0} };

    fn holds(
        &self,
        plant: &Plant,
        _bundles: &[Bundle],
        device: DevId,
        _port: PortNo,
        entry: Entry,
        _way: Way,
    ) -> bool {
        entry.send_offset == 0 || is_own_start(plant, device, entry)
    }

    fn holds_later() {}

    ghost some_port = { Prim.omega arith };

    ghost absent = { λ plant bundles device port frame none e is idle. absurd (none-some e (sym none ∙ is)) };
}

/// V5.
struct LateOffset;

impl EntryRule for LateOffset {
    ghost PORTS = { 1 };

    const PORTS: u8 = 1;

    ghost Holds = { λ plant bundles device port frame. ForwardsLateEnough plant bundles (place_of device port frame) };

    ghost IsFor = { λ _ _. Unit {0} };

    fn holds(
        &self,
        plant: &Plant,
        _bundles: &[Bundle],
        device: DevId,
        _port: PortNo,
        entry: Entry,
        way: Way,
    ) -> bool {
        ways_are_one();
        if entry.rx_port == 0 || !is_absolute(plant, device) || !leaves(entry) {
            return true;
        }
        starts_late(plant, device, entry, way)
    }

    fn holds_later() {}

    ghost some_port = { Prim.omega arith };

    ghost absent = { λ plant bundles device port frame none e hop window d comes own leaves is. absurd (none-some e (sym none ∙ comes.stands)) };
}

/// Whether the offset comes when the frame is surely there.
fn starts_late(plant: &Plant, device: DevId, entry: Entry, way: Way) -> bool
    requires window { plant.now.window ≤ MAX_WINDOW }
    requires there { device.0 < length plant.now.devices }
    requires small { way.latest < 2 ^ 39 }
    ensures { IsTrue result ↔ StartsLate plant.now device.0 entry way }
{
    let bridge = u64::from(plant.devices.as_slice()[usize::from(device.0)].bmax);
    way.latest + bridge + u64::from(guard(plant.window)) <= u64::from(entry.send_offset)
}
