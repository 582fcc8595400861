//! The entries of a device.

ghost use Rattle.std.specs.Prelude.{◌≡◌, IfOk};
ghost use Rattle.fit_rules.specs.Shape.{entry_of};
ghost use Rattle.plan_blocks.specs.Entries.{entries_at};

use fit_rules::frame_plan::FramePlan;
use irt_base::blocks::Entry;
use irt_base::list::Items;
use irt_base::memory::NoMemory;
use irt_base::numbers::DevId;
use std::alloc::Global;

/// A device's entries of placed frames, in their order.
pub fn entries_at(
    alloc: Global,
    plans: &[FramePlan],
    device: DevId,
) -> Result<Items<Entry>, NoMemory>
    ensures { IfOk result (λ entries. entries ≡ entries_at plans.now device.0) }
{
    let mut entries = Items::new(alloc);
    for plan in plans {
        match entry_of(plan, device) {
            None => {}
            Some(entry) => entries.push(entry)?,
        }
    }
    Ok(entries)
}

fn entry_of(plan: &FramePlan, device: DevId) -> Option<Entry>
    ensures { result ≡ entry_of plan.now device.0 }
{
    match plan.entries.get(usize::from(device.0)) {
        None => None,
        Some(entry) => *entry,
    }
}
