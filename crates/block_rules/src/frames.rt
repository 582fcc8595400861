//! The rule of a device's frames.

ghost use Rattle.std.specs.Prelude.{◌≡◌, ◌<◌, ◌↔◌, length, IsTrue};
ghost use Rattle.irt_base.specs.Valid.{IsWithin};
ghost use Rattle.plan_rules.specs.Places.{IsOf, IsScanOf};
ghost use Rattle.plan_rules.specs.Plan.{IsPlan};
ghost use Rattle.plan_rules.specs.Periods.{IsRedFrame};
ghost use Rattle.block_rules.specs.FrameScan.{IsFrameScan};

use crate::device::bundle_at;
use irt_base::blocks::{Bundle, Entry, PeriodBlock};
use irt_base::numbers::DevId;
use irt_base::plants::Plant;
use plan_rules::place::Place;

/// The least frame of a device that is out of the device's range of red FrameIDs.
pub fn frame_break(plant: &Plant, bundles: &[Bundle], device: usize) -> Option<Place>
    requires plan { IsPlan plant.now bundles.now }
    requires there { device < length bundles.now }
    ensures { IsScanOf (IsOf device) (IsRedFrame plant.now bundles.now) result }
{
    let own = bundle_at(bundles, device);
    match first_out(own.frames.entries.as_slice(), &own.periods) {
        None => None,
        Some(frame) => Some(Place::new(DevId(device as u8), 0, frame)),
    }
}

/// The first FrameID of the entries that is out of the range.
fn first_out(entries: &[Entry], periods: &PeriodBlock) -> Option<u16>
    ensures { IsFrameScan periods.now.first periods.now.last entries.now result }
{
    for entry in entries {
        if !is_red(entry.frame.0, periods.first, periods.last) {
            return Some(entry.frame.0);
        }
    }
    None
}

fn is_red(frame: u16, first: u16, last: u16) -> bool
    ensures { IsTrue result ↔ IsWithin first last frame }
{
    first <= frame && frame <= last
}
