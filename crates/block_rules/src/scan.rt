//! The scan of a rule over all devices.

ghost use Rattle.std.specs.Prelude.{◌≡◌, ◌<◌, length};
ghost use Rattle.plan_rules.specs.Plan.{IsPlan};
ghost use Rattle.plan_rules.specs.Places.{IsOf, IsScan, IsScanOf};
ghost use Rattle.plan_rules.specs.Headers.{RepeatsPlant, SharesRange};
ghost use Rattle.plan_rules.specs.Periods.{KeepsRedLimit, IsRedFrame, HasOrange, KeepsOrder};
ghost use Rattle.block_rules.specs.Scanning.{Holds};

use crate::device::device_break;
use crate::frames::frame_break;
use crate::ports::port_break;
use crate::rules::{BlockRule, DeviceRule, PeriodRule};
use irt_base::blocks::Bundle;
use irt_base::plants::Plant;
use plan_rules::place::Place;

/// V1: the least device whose blocks don't repeat the plant's numbers.
pub fn header_break(plant: &Plant, bundles: &[Bundle]) -> Option<Place>
    requires { IsPlan plant.now bundles.now }
    ensures { IsScan (RepeatsPlant plant.now bundles.now) result }
{
    first_break(BlockRule::Device(DeviceRule::Header), plant, bundles)
}

/// V10: the least device and port with a red period past the plant's red limit.
pub fn red_limit_break(plant: &Plant, bundles: &[Bundle]) -> Option<Place>
    requires { IsPlan plant.now bundles.now }
    ensures { IsScan (KeepsRedLimit plant.now bundles.now) result }
{
    first_break(BlockRule::Periods(PeriodRule::RedLimit), plant, bundles)
}

/// V11: the least device and frame out of the device's range of red FrameIDs.
pub fn red_frame_break(plant: &Plant, bundles: &[Bundle]) -> Option<Place>
    requires { IsPlan plant.now bundles.now }
    ensures { IsScan (IsRedFrame plant.now bundles.now) result }
{
    first_break(BlockRule::RedFrame, plant, bundles)
}

/// V12: the least device whose range of red FrameIDs isn't the first device's.
pub fn range_break(plant: &Plant, bundles: &[Bundle]) -> Option<Place>
    requires { IsPlan plant.now bundles.now }
    ensures { IsScan (SharesRange plant.now bundles.now) result }
{
    first_break(BlockRule::Device(DeviceRule::Range), plant, bundles)
}

/// V13: the least device and port with an orange period that hasn't the plant's length.
pub fn orange_break(plant: &Plant, bundles: &[Bundle]) -> Option<Place>
    requires { IsPlan plant.now bundles.now }
    ensures { IsScan (HasOrange plant.now bundles.now) result }
{
    first_break(BlockRule::Periods(PeriodRule::Orange), plant, bundles)
}

/// V14: the least device and port whose periods aren't in order, or end too late.
pub fn order_break(plant: &Plant, bundles: &[Bundle]) -> Option<Place>
    requires { IsPlan plant.now bundles.now }
    ensures { IsScan (KeepsOrder plant.now bundles.now) result }
{
    first_break(BlockRule::Periods(PeriodRule::Order), plant, bundles)
}

fn first_break(rule: BlockRule, plant: &Plant, bundles: &[Bundle]) -> Option<Place>
    requires { IsPlan plant.now bundles.now }
    ensures { IsScan (Holds rule plant.now bundles.now) result }
{
    for device in 0..bundles.len() {
        if let Some(at) = break_of(rule, plant, bundles, device) {
            return Some(at);
        }
    }
    None
}

fn break_of(rule: BlockRule, plant: &Plant, bundles: &[Bundle], device: usize) -> Option<Place>
    requires plan { IsPlan plant.now bundles.now }
    requires there { device < length bundles.now }
    ensures { IsScanOf (IsOf device) (Holds rule plant.now bundles.now) result }
{
    match rule {
        BlockRule::Device(rule) => device_break(rule, plant, bundles, device),
        BlockRule::RedFrame => frame_break(plant, bundles, device),
        BlockRule::Periods(rule) => port_break(rule, plant, bundles, device),
    }
}
