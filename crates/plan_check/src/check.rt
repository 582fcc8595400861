//! The check of a plan.

ghost use Rattle.std.specs.Prelude.{◌≡◌, None, Some, IfOk};
ghost use Rattle.plan_check.specs.Verdicts.{IsJudged, reject_of, KeepsPlan};
ghost use Rattle.plan_rules.specs.Expected.{IsSafe};
ghost use Rattle.plan_rules.specs.Places.{IsAccepted, IsReject};
ghost use Rattle.plan_rules.specs.Plan.{IsPlan};
ghost use Rattle.plan_rules.specs.declared.place.Reject.{Reject as Rejected};

use crate::accepted::Accepted;
use crate::order::{Outcome, try_rules};
use irt_base::blocks::Bundle;
use irt_base::memory::NoMemory;
use irt_base::plants::Plant;
use plan_rules::law::{accepted_plans_are_safe, verdicts_are_one};
use plan_rules::place::Reject;
use std::alloc::Global;

/// Whether a plan is accepted.
#[derive(Drop)]
pub enum Verdict {
    /// The rules V1..V15 hold everywhere.
    Accept(Accepted),
    /// The first rule that fails, and its least place.
    Reject(Reject),
}

/// Decides the rules V1..V15 on the blocks of a plant's devices, in this order, and keeps nothing of them: none where
/// all hold, else the first that fails, with its least place. Any call may answer that memory ran out.
pub fn judge_plan(
    alloc: Global,
    plant: &Plant,
    bundles: &[Bundle],
) -> Result<Option<Reject>, NoMemory>
    requires { IsPlan plant.now bundles.now }
    ensures judged { IfOk result (IsJudged plant.now bundles.now) }
    // Where all rules hold, then over every table of clock errors, cut links and bridge delays in their ranges no
    // frames collide, none comes late, and no device in step drops one.
    ensures safe { IfOk result (λ found. found ≡ None → IsSafe plant.now bundles.now) }
    ensures only { IsAccepted plant.now bundles.now → IfOk result (λ found. found ≡ None) }
    ensures exact { (r : Rejected) → IsReject plant.now bundles.now r → IfOk result (λ found. found ≡ Some r) }
{
    accepted_plans_are_safe();
    verdicts_are_one();
    first_failure(alloc, plant, bundles)
}

/// Decides the same, and where a plan is accepted keeps copies of it, with the windows of its frames. Any call may
/// answer that memory ran out.
pub fn check(alloc: Global, plant: &Plant, bundles: &[Bundle]) -> Result<Verdict, NoMemory>
    requires { IsPlan plant.now bundles.now }
    ensures judged { IfOk result (λ v. IsJudged plant.now bundles.now (reject_of v)) }
    ensures kept { IfOk result (KeepsPlan plant.now bundles.now) }
    ensures safe { IfOk result (λ v. reject_of v ≡ None → IsSafe plant.now bundles.now) }
    ensures only { IsAccepted plant.now bundles.now → IfOk result (λ v. reject_of v ≡ None) }
    ensures exact { (r : Rejected) → IsReject plant.now bundles.now r → IfOk result (λ v. reject_of v ≡ Some r) }
{
    accepted_plans_are_safe();
    verdicts_are_one();
    kept_verdict(alloc, plant, bundles)
}

/// The first rule that fails, with its least place.
fn first_failure(
    alloc: Global,
    plant: &Plant,
    bundles: &[Bundle],
) -> Result<Option<Reject>, NoMemory>
    requires { IsPlan plant.now bundles.now }
    ensures { IfOk result (IsJudged plant.now bundles.now) }
{
    match try_rules(alloc, plant, bundles)? {
        Outcome::Holds(_) => Ok(None),
        Outcome::Fails(reject) => Ok(Some(reject)),
    }
}

fn kept_verdict(alloc: Global, plant: &Plant, bundles: &[Bundle]) -> Result<Verdict, NoMemory>
    requires { IsPlan plant.now bundles.now }
    ensures judged { IfOk result (λ v. IsJudged plant.now bundles.now (reject_of v)) }
    ensures kept { IfOk result (KeepsPlan plant.now bundles.now) }
{
    match try_rules(alloc, plant, bundles)? {
        Outcome::Fails(reject) => Ok(Verdict::Reject(reject)),
        Outcome::Holds(windows) => {
            let accepted = Accepted::new(alloc, plant, bundles, windows)?;
            Ok(Verdict::Accept(accepted))
        }
    }
}
