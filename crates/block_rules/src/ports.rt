//! The rules of a device's ports.

ghost use Rattle.std.specs.Prelude.{◌≡◌, ◌<◌, ◌≤◌, ◌↔◌, length, IsTrue};
ghost use Rattle.irt_base.specs.Valid.{IsPeriodBlock};
ghost use Rattle.plant_rules.specs.Meets.{MeetsRules};
ghost use Rattle.plan_rules.specs.Periods.{IsOrdered, AreOrdered};
ghost use Rattle.plan_rules.specs.Places.{IsOf, IsScanOf};
ghost use Rattle.plan_rules.specs.Plan.{IsPlan};
ghost use Rattle.block_rules.specs.Scanning.{Holds, KeepsPeriods, KeepsPort};
ghost use Rattle.block_rules.specs.PortScan.{IsPortScan};
ghost use Rattle.block_rules.specs.declared.rules.BlockRule.TheVariants as blocks;

use crate::device::bundle_at;
use crate::rules::PeriodRule;
use irt_base::blocks::{Bundle, Period, PeriodBlock, Side};
use irt_base::cycles::{cycle_length, guard, period};
use irt_base::limits::PHASES;
use irt_base::numbers::{DevId, PortNo};
use irt_base::plants::Plant;
use plan_rules::place::Place;

/// The least port of a device that breaks the rule in some phase.
pub fn port_break(
    rule: PeriodRule,
    plant: &Plant,
    bundles: &[Bundle],
    device: usize,
) -> Option<Place>
    requires plan { IsPlan plant.now bundles.now }
    requires there { device < length bundles.now }
    ensures { IsScanOf (IsOf device) (Holds (blocks.Periods rule) plant.now bundles.now) result }
{
    let own = bundle_at(bundles, device);
    match first_port(rule, plant, &own.periods) {
        None => None,
        Some(port) => Some(Place::new(DevId(device as u8), port, 0)),
    }
}

fn first_port(rule: PeriodRule, plant: &Plant, block: &PeriodBlock) -> Option<u8>
    requires plant { MeetsRules plant.now }
    requires block { IsPeriodBlock block.now }
    ensures { IsPortScan (KeepsPort rule plant.now block.now) (length block.now.ports) result }
{
    for index in 0..block.ports.len() {
        let port = index as u8 + 1;
        if !keeps_port(rule, plant, block, PortNo(port)) {
            return Some(port);
        }
    }
    None
}

fn keeps_port(rule: PeriodRule, plant: &Plant, block: &PeriodBlock, port: PortNo) -> bool
    requires plant { MeetsRules plant.now }
    requires block { IsPeriodBlock block.now }
    requires from_one { 1 ≤ port.0 }
    requires there { port.0 ≤ length block.now.ports }
    ensures { IsTrue result ↔ KeepsPort rule plant.now block.now port.0 }
{
    for phase in 0..u32::from(PHASES) {
        let tx = period(block, port, phase, Side::Tx);
        let rx = period(block, port, phase, Side::Rx);
        if !keeps_periods(rule, plant, tx, rx) {
            return false;
        }
    }
    true
}

fn keeps_periods(rule: PeriodRule, plant: &Plant, tx: Period, rx: Period) -> bool
    requires { MeetsRules plant.now }
    ensures { IsTrue result ↔ KeepsPeriods rule plant.now tx rx }
{
    match rule {
        PeriodRule::RedLimit => tx.orange <= plant.red_max,
        PeriodRule::Orange => u64::from(tx.green) == u64::from(tx.orange) + u64::from(plant.orange),
        PeriodRule::Order => are_ordered(plant, tx, rx),
    }
}

fn are_ordered(plant: &Plant, tx: Period, rx: Period) -> bool
    requires { MeetsRules plant.now }
    ensures { IsTrue result ↔ AreOrdered plant.now tx rx }
{
    let cycle = cycle_length(plant.factor);
    is_ordered(tx)
        && u64::from(tx.green) + u64::from(guard(plant.window)) <= u64::from(cycle)
        && is_ordered(rx)
        && rx.green <= cycle
}

fn is_ordered(p: Period) -> bool
    ensures { IsTrue result ↔ IsOrdered p }
{
    p.red <= p.orange && p.orange <= p.green
}
