//! The rules in their order.

ghost use Rattle.std.specs.Prelude.{IfOk};
ghost use Rattle.irt_window.specs.Plans.{IsNet};
ghost use Rattle.plan_check.specs.Outcomes.{IsOutcome};
ghost use Rattle.plan_check.specs.Verdicts.{IsJudged};
ghost use Rattle.plan_rules.specs.Places.{KeepsBelow};
ghost use Rattle.plan_rules.specs.Plan.{IsPlan};
ghost use Rattle.plan_rules.specs.Ways.{AreWays};

use crate::scans::{LAST, rule_break};
use block_rules::header_break;
use irt_base::blocks::Bundle;
use irt_base::list::Items;
use irt_base::memory::NoMemory;
use irt_base::plants::Plant;
use irt_window::demands::demand_numbers;
use irt_window::net::Net;
use irt_window::trees::trees;
use irt_window::windows::{Trees, Windows};
use link_index::index::LinkIndex;
use plan_rules::law::verdicts_are_one;
use plan_rules::place::Reject;
use plan_rules::way::Way;
use std::alloc::Global;

/// What the rules give.
#[derive(Drop)]
pub enum Outcome {
    /// All hold everywhere, and these are the windows of the frames.
    Holds(Windows),
    /// The first that fails, and its least place.
    Fails(Reject),
}

/// Tries the rules V1..V15 in this order.
pub fn try_rules(alloc: Global, plant: &Plant, bundles: &[Bundle]) -> Result<Outcome, NoMemory>
    requires { IsPlan plant.now bundles.now }
    ensures { IfOk result (IsOutcome plant.now bundles.now) }
{
    verdicts_are_one();
    if let Some(place) = header_break(plant, bundles) {
        return Ok(Outcome::Fails(Reject { rule: 1, place }));
    }
    let links = LinkIndex::new(alloc, plant)?;
    let numbers = demand_numbers(alloc, plant)?;
    try_frames(alloc, &Net::new(plant, bundles, &links, &numbers))
}

/// Tries the rules from V2 on.
fn try_frames(alloc: Global, net: &Net<'_>) -> Result<Outcome, NoMemory>
    requires net { IsNet net.now }
    requires before { KeepsBelow net.now.plant.now net.now.bundles.now 2 }
    ensures { IfOk result (IsOutcome net.now.plant.now net.now.bundles.now) }
{
    verdicts_are_one();
    match trees(alloc, net)? {
        Trees::Broken(place) => Ok(Outcome::Fails(Reject { rule: 2, place })),
        Trees::Whole(windows) => match later_reject(alloc, net, windows.ways())? {
            Some(reject) => Ok(Outcome::Fails(reject)),
            None => Ok(Outcome::Holds(windows)),
        },
    }
}

/// The first rule from V3 on that fails, and its least place.
fn later_reject(
    alloc: Global,
    net: &Net<'_>,
    ways: &[Items<Way>],
) -> Result<Option<Reject>, NoMemory>
    requires net { IsNet net.now }
    requires ways { AreWays net.now.plant.now net.now.bundles.now ways.now }
    requires before { KeepsBelow net.now.plant.now net.now.bundles.now 3 }
    ensures { IfOk result (IsJudged net.now.plant.now net.now.bundles.now) }
{
    verdicts_are_one();
    for rule in 3..LAST + 1 {
        if let Some(place) = rule_break(rule, alloc, net, ways)? {
            return Ok(Some(Reject { rule, place }));
        }
    }
    Ok(None)
}
