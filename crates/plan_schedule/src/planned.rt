//! By when the last receiver of a frame has it.

ghost use Rattle.std.specs.Prelude.{◌≡◌, ◌+◌, ◌<◌, ◌^◌};
ghost use Rattle.irt_base.specs.Cycle.{wire_time};
ghost use Rattle.irt_base.specs.Valid.{IsEntry};
ghost use Rattle.irt_base.specs.declared.blocks.Entry.{Entry};
ghost use Rattle.fit_rules.specs.Blocks.{IsGreatest};
ghost use Rattle.fit_rules.specs.Printed.{IsPlannedSomewhere};
ghost use Rattle.irt_window.specs.Plans.{IsNet, Stands, setup_in};
ghost use Rattle.plan_rules.specs.Arrival.{IsPlanned};
ghost use Rattle.plan_rules.specs.Ways.{AreWays, IsWay};

use irt_base::blocks::Entry;
use irt_base::cycles::wire;
use irt_base::list::Items;
use irt_base::numbers::{DevId, FrameId};
use irt_window::net::{Net, entry_at, entry_of};
use plan_rules::way::Way;
use plan_rules::ways::ways_are_one;

/// By when the last receiver of a frame has it, in ns of a cycle, or 0 where nobody receives it.
pub fn last_planned(net: &Net<'_>, ways: &[Items<Way>], frame: FrameId) -> u64
    requires net { IsNet net.now }
    requires ways { AreWays net.now.plant.now net.now.bundles.now ways.now }
    ensures { IsGreatest (IsPlannedSomewhere (setup_in net.now) frame.0) result }
{
    let mut last = 0;
    for device in 0..net.bundles.len() {
        last = last.max(planned_at(net, ways, DevId(device as u8), frame));
    }
    last
}

/// By when a device has a frame, or 0 where it receives none.
fn planned_at(net: &Net<'_>, ways: &[Items<Way>], device: DevId, frame: FrameId) -> u64
    requires net { IsNet net.now }
    requires ways { AreWays net.now.plant.now net.now.bundles.now ways.now }
    ensures { IsGreatest (IsPlanned (setup_in net.now) device.0 frame.0) result }
{
    ways_are_one();
    let Some(place) = entry_at(net, device, frame) else {
        return 0;
    };
    let entry = entry_of(net, device, place);
    if entry.rx_port == 0 {
        return 0;
    }
    planned_by(net, entry, way_of(net, ways, device, place))
}

/// By when a device has a frame that comes on this way.
fn planned_by(net: &Net<'_>, entry: Entry, way: Way) -> u64
    requires entry { IsEntry entry }
    requires small { way.latest < 2 ^ 39 }
    ensures { result ≡ way.latest + wire_time entry.data_length + net.now.plant.now.window }
{
    let window: u32 = net.plant.window;
    way.latest + u64::from(wire(entry.data_length)) + u64::from(window)
}

/// The way of the entry at a place.
fn way_of(net: &Net<'_>, ways: &[Items<Way>], device: DevId, place: usize) -> Way
    requires ways { AreWays net.now.plant.now net.now.bundles.now ways.now }
    requires there { (e : Entry) × Stands net.now.bundles.now device.0 place e }
    ensures { (e : Entry) → Stands net.now.bundles.now device.0 place e → IsWay (setup_in net.now) device.0 e result }
{
    ways[usize::from(device.0)].as_slice()[place]
}
