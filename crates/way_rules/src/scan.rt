//! The scan of an entry's rule over all places.

ghost use Rattle.std.specs.Prelude.{◌≡◌, ◌<◌, length};
ghost use Rattle.plan_rules.specs.Places.{IsScan, IsScanOf, IsOf, IsAt};
ghost use Rattle.way_rules.specs.Placed.{IsWayPlan, IsRow};
ghost use Rattle.way_rules.specs.Scan.{AtFrame};

use crate::entry_rule::EntryRule;
use irt_base::blocks::{Bundle, Entry};
use irt_base::list::Items;
use irt_base::numbers::{DevId, PortNo};
use irt_base::plants::Plant;
use plan_rules::place::Place;
use plan_rules::way::Way;

/// The least place at which a rule fails.
pub(crate) fn first_break<R: EntryRule>(
    rule: &R,
    plant: &Plant,
    bundles: &[Bundle],
    ways: &[Items<Way>],
) -> Option<Place>
    requires tables { R.IsFor rule.now plant.now }
    requires plan { IsWayPlan plant.now bundles.now ways.now }
    ensures { IsScan (AtFrame (R.Holds plant.now bundles.now)) result }
{
    for device in 0..bundles.len() {
        let found = device_break(rule, plant, bundles, ways, DevId(device as u8));
        if found.is_some() {
            return found;
        }
    }
    None
}

/// The least place of a device.
fn device_break<R: EntryRule>(
    rule: &R,
    plant: &Plant,
    bundles: &[Bundle],
    ways: &[Items<Way>],
    device: DevId,
) -> Option<Place>
    requires tables { R.IsFor rule.now plant.now }
    requires plan { IsWayPlan plant.now bundles.now ways.now }
    requires there { device.0 < length bundles.now }
    ensures { IsScanOf (IsOf device.0) (AtFrame (R.Holds plant.now bundles.now)) result }
{
    R::holds_later();
    for port in 0..R::PORTS {
        let found = port_break(rule, plant, bundles, ways, device, PortNo(port));
        if found.is_some() {
            return found;
        }
    }
    None
}

/// The least place of a port.
fn port_break<R: EntryRule>(
    rule: &R,
    plant: &Plant,
    bundles: &[Bundle],
    ways: &[Items<Way>],
    device: DevId,
    port: PortNo,
) -> Option<Place>
    requires tables { R.IsFor rule.now plant.now }
    requires plan { IsWayPlan plant.now bundles.now ways.now }
    requires there { device.0 < length bundles.now }
    ensures { IsScanOf (IsAt device.0 port.0) (AtFrame (R.Holds plant.now bundles.now)) result }
{
    let (entries, own_ways) = row_of(bundles, ways, device);
    for index in 0..entries.len() {
        let entry = entries[index];
        if !rule.holds(plant, bundles, device, port, entry, own_ways[index]) {
            return Some(Place::new(device, port.0, entry.frame.0));
        }
    }
    None
}

/// The entries of a device, and their ways.
pub(crate) fn row_of<'a>(
    bundles: &'a [Bundle],
    ways: &'a [Items<Way>],
    device: DevId,
) -> (&'a [Entry], &'a [Way])
    requires count { length ways.now ≡ length bundles.now }
    requires there { device.0 < length bundles.now }
    ensures { IsRow bundles.now ways.now device.0 result.0.now result.1.now }
{
    let entries = bundles[usize::from(device.0)].frames.entries.as_slice();
    let own_ways = ways[usize::from(device.0)].as_slice();
    (entries, own_ways)
}
