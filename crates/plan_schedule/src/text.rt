//! The text of a plan.

ghost use Rattle.std.specs.Prelude.{◌≡◌, IfOk};
ghost use Rattle.plan_rules.specs.Plan.{IsPlan, setup_of};
ghost use Rattle.plan_rules.specs.Tree.{AreTrees};
ghost use Rattle.plan_schedule.specs.Text.{schedule_line, red_line, plan_text, IsPlanText};

use crate::frames::{Schedule, schedules};
use crate::red::red_end;
use irt_base::blocks::Bundle;
use irt_base::memory::NoMemory;
use irt_base::plants::Plant;
use irt_base::texts::print_frame;
use std::alloc::Global;

/// What is printed of a plan: each demand's frame, by ascending FrameID, with its ratio, its phase and by when its
/// last receiver has it; and the end of the red periods. Times are ns of a cycle.
pub fn print_plan(alloc: Global, plant: &Plant, bundles: &[Bundle]) -> Result<Vec<u8>, NoMemory>
    requires plan { IsPlan plant.now bundles.now }
    requires trees { AreTrees (setup_of plant.now bundles.now) }
    ensures { IfOk result (λ v. IsPlanText plant.now bundles.now v.items) }
{
    let rows = schedules(alloc, plant, bundles)?;
    plan_text(alloc, rows.as_slice(), red_end(bundles))
}

/// The lines of schedules, and that of the end of the red periods.
pub fn plan_text(alloc: Global, schedules: &[Schedule], red: u32) -> Result<Vec<u8>, NoMemory>
    ensures { IfOk result (λ v. v.items ≡ plan_text schedules.now red) }
{
    let mut text = Vec::new(alloc);
    for schedule in schedules {
        text.extend_from_slice(&schedule_line(alloc, *schedule)?)?;
    }
    text.extend_from_slice(&red_line(alloc, red)?)?;
    Ok(text)
}

fn schedule_line(alloc: Global, schedule: Schedule) -> Result<Vec<u8>, NoMemory>
    ensures { IfOk result (λ v. v.items ≡ schedule_line schedule) }
{
    let Schedule {
        frame,
        ratio,
        phase,
        planned,
    } = schedule;
    let mut name = [0; 6];
    print_frame(&mut name, frame);
    let mut line = Vec::from_slice(alloc, &name)?;
    line.extend_from_slice(format!(in alloc; " {ratio} {phase} {planned}\n")?.as_bytes())?;
    Ok(line)
}

fn red_line(alloc: Global, red: u32) -> Result<Vec<u8>, NoMemory>
    ensures { IfOk result (λ v. v.items ≡ red_line red) }
{
    let line = format!(in alloc; "red {red}\n")?;
    Ok(line.into_bytes())
}
