//! Whether what a record has of each app is legal, but for the images.

ghost use Rattle.std.specs.Prelude.{◌≡◌, ◌↔◌, IfOk, IsTrue, length};
ghost use Rattle.plan_rules.specs.Plan.{setup_of};
ghost use Rattle.run_judge.specs.Kept.{AreLegalButImages};
ghost use Rattle.run_replay.specs.Replayed.{HasShape};

use crate::devices::device_of;
use crate::kept::is_kept;
use irt_base::list::Items;
use irt_base::memory::NoMemory;
use iso_app::IsoApp;
use plan_check::accepted::Accepted;
use record_text::record::AppRecord;
use std::alloc::Global;

/// Whether the logs of all apps are legal but for their images. The apps are in their first states, in the plant's
/// order.
/// # Errors
/// `NoMemory` where memory runs out.
pub fn are_kept<A: IsoApp>(
    alloc: Global,
    accepted: &Accepted,
    cycles: usize,
    apps: Items<A>,
    logs: &[AppRecord],
) -> Result<bool, NoMemory>
    requires apps { length apps ≡ length accepted.now.plant.apps }
    requires logs { length logs.now ≡ length accepted.now.plant.apps }
    ensures exact { IfOk result (λ b. IsTrue b ↔ AreLegalButImages A.reply A.next_state
        (setup_of accepted.now.plant accepted.now.bundles) cycles apps logs.now) }
    ensures shape { IfOk result (λ b. IsTrue b →
        HasShape (setup_of accepted.now.plant accepted.now.bundles) cycles logs.now) }
{
    let mut number = 0;
    for app in apps.into_vec() {
        let device = device_of(accepted, number);
        if !is_kept(alloc, accepted, device, cycles, app, &logs[number])? {
            return Ok(false);
        }
        number += 1;
    }
    Ok(true)
}
