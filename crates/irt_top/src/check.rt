//! The command `check`: a plant and its devices' files, and the verdict on them.

ghost use Rattle.std.specs.Prelude.{◌≡◌, ◌+◌, ◌≤◌, IfOk, IfErr, All, length, drop};
ghost use Rattle.std.specs.List.{AllByRecursion};
ghost use Rattle.irt_base.specs.Valid.{IsBundle};
ghost use Rattle.irt_io.specs.Fault.{IsLater};
ghost use Rattle.plant_rules.specs.Meets.{MeetsRules, IsDevice};
ghost use Rattle.plan_rules.specs.Plan.{IsPlan};
ghost use Rattle.irt_steps.specs.Follow.{Follows, Decides, HasCause, IsEnding, IsNoFault};
ghost use Rattle.irt_top.specs.Check.{check_steps, blocks_steps, verdict_steps, rejected};
ghost use Rattle.irt_top.specs.DeviceFiles.{bundles_steps, device_steps};
ghost use Rattle.plan_check.specs.Verdicts.{IsJudged};

use crate::files::{device_file, load_bundle, load_plant};
use crate::line::{accept_line, reject_line};
use irt_base::blocks::Bundle;
use irt_base::list::Items;
use irt_base::plants::{Device, Plant};
use irt_io::shelf::Shelf;
use irt_steps::line::line_stop;
use irt_steps::stop::{Cause, Stop};
use plan_check::check::judge_plan;
use plan_rules::place::Reject;
use std::alloc::Global;

/// Checks the blocks of a plant's devices.
pub fn check<S: Shelf>(alloc: Global, shelf: &mut S, name: &str) -> Result<Vec<u8>, Stop>
    ensures step { Follows (λ v. v.items) (check_steps name.now) (S.files shelf.old) (S.files shelf.new) result }
    ensures kept { S.files shelf.new ≡ S.files shelf.old }
    ensures cause { HasCause (S.faults shelf.old) (S.faults shelf.new) result }
    ensures later { IsLater (S.faults shelf.old) (S.faults shelf.new) }
{
    let plant = load_plant(alloc, shelf, name)?;
    check_blocks(alloc, shelf, &plant)
}

/// Checks the blocks of a plant's devices.
fn check_blocks<S: Shelf>(alloc: Global, shelf: &mut S, plant: &Plant) -> Result<Vec<u8>, Stop>
    requires { MeetsRules plant.now }
    ensures step { Follows (λ v. v.items) (blocks_steps plant.now) (S.files shelf.old) (S.files shelf.new) result }
    ensures kept { S.files shelf.new ≡ S.files shelf.old }
    ensures cause { HasCause (S.faults shelf.old) (S.faults shelf.new) result }
    ensures later { IsLater (S.faults shelf.old) (S.faults shelf.new) }
{
    let bundles = load_bundles(alloc, shelf, plant.devices.as_slice(), Items::new(alloc))?;
    verdict(alloc, plant, bundles.as_slice())
}

/// The bundles of devices, in their order, behind those of the first devices that are there.
pub fn load_bundles<S: Shelf>(
    alloc: Global,
    shelf: &mut S,
    devices: &[Device],
    front: Items<Bundle>,
) -> Result<Items<Bundle>, Stop>
    requires devices { AllByRecursion IsDevice devices.now }
    requires valid { All IsBundle front }
    requires within { length front ≤ length devices.now }
    ensures step { Follows (λ bs. bs) (bundles_steps (drop (length front) devices.now) front)
        (S.files shelf.old) (S.files shelf.new) result }
    ensures valid { IfOk result (All IsBundle) }
    ensures count { IfOk result (λ bs. length bs ≡ length devices.now) }
    ensures kept { S.files shelf.new ≡ S.files shelf.old }
    ensures cause { HasCause (S.faults shelf.old) (S.faults shelf.new) result }
    ensures later { IsLater (S.faults shelf.old) (S.faults shelf.new) }
{
    let Some(device) = devices.get(front.len()) else {
        return Ok(front);
    };
    let front = load_device(alloc, shelf, device, front)?;
    load_bundles(alloc, shelf, devices, front)
}

/// The bundle of a device's file, behind those that are there.
fn load_device<S: Shelf>(
    alloc: Global,
    shelf: &mut S,
    device: &Device,
    front: Items<Bundle>,
) -> Result<Items<Bundle>, Stop>
    requires device { IsDevice device.now }
    requires valid { All IsBundle front }
    ensures step { Follows (λ bs. bs) (device_steps device.now front) (S.files shelf.old) (S.files shelf.new) result }
    ensures valid { IfOk result (All IsBundle) }
    ensures count { IfOk result (λ bs. length bs ≡ length front + 1) }
    ensures kept { S.files shelf.new ≡ S.files shelf.old }
    ensures cause { HasCause (S.faults shelf.old) (S.faults shelf.new) result }
    ensures later { IsLater (S.faults shelf.old) (S.faults shelf.new) }
{
    let file = device_file(alloc, device.name.as_slice())?;
    let bundle = load_bundle(alloc, shelf, file.as_str())?;
    let mut bundles = front;
    bundles.push(bundle)?;
    Ok(bundles)
}

/// What the rules say of a plan.
fn verdict(alloc: Global, plant: &Plant, bundles: &[Bundle]) -> Result<Vec<u8>, Stop>
    requires { IsPlan plant.now bundles.now }
    ensures step { Decides (λ v. v.items) (verdict_steps plant.now bundles.now) result }
    ensures calm { IfErr result IsNoFault }
{
    match judge_plan(alloc, plant, bundles)? {
        None => Ok(accept_line(alloc)?),
        Some(reject) => Err(rejected(alloc, plant, reject)),
    }
}

/// What a rule that fails ends the command with.
pub fn rejected(alloc: Global, plant: &Plant, reject: Reject) -> Stop
    ensures calm { IsNoFault result }
    ensures ending { IsEnding result 8 (rejected plant.now reject).text }
{
    let device = match plant.devices.get(usize::from(reject.place.device.0)) {
        Some(device) => device.name.as_slice(),
        None => &[],
    };
    line_stop(Cause::Reject, reject_line(alloc, device, reject))
}
