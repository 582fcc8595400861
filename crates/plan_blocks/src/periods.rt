//! The periods of a port.

ghost use Rattle.std.specs.Prelude.{◌≡◌, ◌+◌, ◌*◌, ◌^◌, ◌<◌, ◌≤◌, ℕ, Some, IfOk, OnOk, IfErr, length, slice_get};
ghost use Rattle.irt_base.specs.declared.limits.TheConstants.{PHASES};
ghost use Rattle.placement.specs.Tables.{IsPlace};
ghost use Rattle.plan_blocks.specs.Ends.{end_at};
ghost use Rattle.plan_blocks.specs.Periods.{assignment_of, ArePhasesBelow, IsNumber};

use crate::ends::LastEnds;
use irt_base::blocks::{Assignment, Period, PhasePair, PortPeriods};
use irt_base::limits::PHASES;
use irt_base::list::Items;
use irt_base::memory::NoMemory;
use irt_base::numbers::{DevId, PortNo};
use std::alloc::Global;

/// The periods of a port, with assignments numbered by the phases that first use them.
pub fn port_periods(
    alloc: Global,
    tx: &LastEnds,
    rx: &LastEnds,
    orange: u32,
    device: DevId,
    port: PortNo,
) -> Result<PortPeriods, NoMemory>
    requires there { IsPlace device.0 port.0 0 }
    requires small { (k : ℕ) → k < PHASES → end_at tx.now device.0 port.0 k + orange < 2 ^ 32 }
    ensures { IfOk result (ArePhasesBelow orange tx.now rx.now device.0 port.0 PHASES) }
{
    let mut assignments = Items::new(alloc);
    let mut phases = Items::new(alloc);
    for k in 0..PHASES {
        let assignment = assignment_of(orange, tx.at(device, port, k), rx.at(device, port, k));
        let number = number_of(&mut assignments, assignment)?;
        phases.push(PhasePair {
            tx: number,
            rx: number,
        })?;
    }
    Ok(PortPeriods {
        assignments,
        phases,
    })
}

fn assignment_of(orange: u32, tx: u32, rx: u32) -> Assignment
    requires { tx + orange < 2 ^ 32 }
    ensures { result ≡ assignment_of orange tx rx }
{
    Assignment {
        tx: Period {
            red: 0,
            orange: tx,
            green: tx + orange,
        },
        rx: Period {
            red: 0,
            orange: rx,
            green: rx,
        },
    }
}

/// The number of an assignment, which is added where it is new.
fn number_of(assignments: &mut Items<Assignment>, assignment: Assignment) -> Result<u16, NoMemory>
    requires { length assignments.old < 2 ^ 16 }
    ensures { IfOk result (IsNumber assignments.old assignment assignments.new) }
{
    let number = place_of(assignments.as_slice(), assignment);
    if number == assignments.len() {
        assignments.push(assignment)?;
    }
    Ok(number as u16)
}

// The place of an assignment, or the end where it is not there.
fn place_of(assignments: &[Assignment], assignment: Assignment) -> usize
    ensures inside { result ≤ length assignments.now }
    ensures found { result < length assignments.now → slice_get assignments.now result ≡ Some assignment }
    ensures new { result ≡ length assignments.now → (i : ℕ) → slice_get assignments.now i ≡ Some assignment → ⊥ }
{
    for (place, other) in assignments.iter().enumerate() {
        if *other == assignment {
            return place;
        }
    }
    assignments.len()
}
