//! Whether a period block is valid.

ghost use Rattle.std.specs.Prelude.{◌≡◌, ◌↔◌, IsTrue, length};
ghost use Rattle.std.specs.List.{AllByRecursion};
ghost use Rattle.irt_base.specs.Valid.{IsWithin, IsPeriod, IsAssignment, IsPhasePair, IsPortPeriods, IsPeriodBlock};

use crate::whole::is_count;
use irt_base::blocks::{Assignment, PeriodBlock, PhasePair, PortPeriods};
use irt_base::limits::{MAX_ASSIGNMENTS, MAX_RED_FRAME, MIN_FRAME, PHASES};

pub fn is_period_block(b: &PeriodBlock) -> bool
    ensures { IsTrue result ↔ IsPeriodBlock b.now }
{
    is_range(b.first, b.last) && is_count(b.ports.len()) && are_ports(b.ports.as_slice())
}

fn is_range(first: u16, last: u16) -> bool
    ensures { IsTrue result ↔ IsWithin MIN_FRAME MAX_RED_FRAME first × IsWithin first MAX_RED_FRAME last }
{
    MIN_FRAME <= first && first <= MAX_RED_FRAME && first <= last && last <= MAX_RED_FRAME
}

fn are_ports(ports: &[PortPeriods]) -> bool
    ensures { IsTrue result ↔ AllByRecursion IsPortPeriods ports.now }
{
    for port in ports {
        if !is_port(port) {
            return false;
        }
    }
    true
}

fn is_port(p: &PortPeriods) -> bool
    ensures { IsTrue result ↔ IsPortPeriods p.now }
{
    are_assignments(p.assignments.as_slice());
    is_number(p.assignments.len())
        && p.phases.len() == usize::from(PHASES)
        && are_pairs(p.assignments.len(), p.phases.as_slice())
}

fn is_number(assignments: usize) -> bool
    ensures { IsTrue result ↔ IsWithin 1 MAX_ASSIGNMENTS assignments }
{
    1 <= assignments && assignments <= MAX_ASSIGNMENTS
}

/// The begins of periods take all values of their types.
fn are_assignments(assignments: &[Assignment])
    ensures { AllByRecursion IsAssignment assignments.now }
{
    for assignment in assignments {
        fits(*assignment);
    }
}

fn fits(assignment: Assignment)
    ensures { IsAssignment assignment }
{
    let _periods = (assignment.tx, assignment.rx);
}

fn are_pairs(assignments: usize, pairs: &[PhasePair]) -> bool
    ensures { IsTrue result ↔ AllByRecursion (IsPhasePair assignments) pairs.now }
{
    pairs.iter().all(|pair| is_pair(assignments, *pair))
}

fn is_pair(assignments: usize, pair: PhasePair) -> bool
    ensures { IsTrue result ↔ IsPhasePair assignments pair }
{
    usize::from(pair.tx) < assignments && usize::from(pair.rx) < assignments
}
