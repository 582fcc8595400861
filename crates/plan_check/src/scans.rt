//! The scans of the rules that come after the trees (V3 to V15).

ghost use Rattle.std.specs.Prelude.{◌≡◌, ◌≤◌, IfOk};
ghost use Rattle.irt_window.specs.Plans.{IsNet};
ghost use Rattle.plan_rules.specs.Places.{IsScan, KeepsBelow};
ghost use Rattle.plan_rules.specs.Rules.{KeepsRule};
ghost use Rattle.plan_rules.specs.Ways.{AreWays};

use crate::clocks::clock_break;
use block_rules::{orange_break, order_break, range_break, red_frame_break, red_limit_break};
use irt_base::list::Items;
use irt_base::memory::NoMemory;
use irt_window::net::Net;
use plan_rules::place::Place;
use plan_rules::way::Way;
use std::alloc::Global;
use way_rules::clash::clash_break;
use way_rules::demands::demand_break;
use way_rules::ends::cycle_break;
use way_rules::offsets::{forward_break, offset_break};
use way_rules::red::{received_break, sent_break};

/// The number of the last rule.
pub const LAST: u8 = 15;

/// The least place at which the rule of a number fails, in a plan whose entries have these ways. Any call may answer
/// that memory ran out.
pub fn rule_break(
    number: u8,
    alloc: Global,
    net: &Net<'_>,
    ways: &[Items<Way>],
) -> Result<Option<Place>, NoMemory>
    requires after_trees { 3 ≤ number }
    requires to_last { number ≤ LAST }
    requires net { IsNet net.now }
    requires ways { AreWays net.now.plant.now net.now.bundles.now ways.now }
    requires before { KeepsBelow net.now.plant.now net.now.bundles.now 3 }
    ensures { IfOk result (IsScan (KeepsRule net.now.plant.now net.now.bundles.now number)) }
{
    let plant = net.plant;
    let bundles = net.bundles;
    match number {
        3 => Ok(demand_break(net.numbers, plant, bundles, ways)),
        4 => Ok(offset_break(plant, bundles, ways)),
        5 => Ok(forward_break(plant, bundles, ways)),
        6 => clash_break(alloc, plant, bundles, ways),
        7 => Ok(sent_break(plant, bundles, ways)),
        8 => Ok(received_break(plant, bundles, ways)),
        9 => Ok(cycle_break(net.links, plant, bundles, ways)),
        10 => Ok(red_limit_break(plant, bundles)),
        11 => Ok(red_frame_break(plant, bundles)),
        12 => Ok(range_break(plant, bundles)),
        13 => Ok(orange_break(plant, bundles)),
        14 => Ok(order_break(plant, bundles)),
        _ => clock_break(alloc, net.links, plant, bundles),
    }
}
