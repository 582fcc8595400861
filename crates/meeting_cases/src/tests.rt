//! That applications turn side by side, in lockstep and freely.

use crate::apps::Flag;
use crate::plans::plan_of_two;
use crate::runs::{Pace, run_pair};
use std::test::Fail;

#[test]
fn two_turns_meet(rt: HostRuntime) -> Result<(), Fail> {
    let (first, second) = (Flag::new(), Flag::new());
    let accepted = plan_of_two(rt.alloc())?;
    let cycles = run_pair(
        &rt,
        rt.alloc(),
        Pace::InLockstep,
        &accepted,
        &first,
        &second,
    )?;
    assert_eq!(rt; cycles, 1);
    assert!(rt; first.has_met() && second.has_met());
    Ok(())
}

#[test]
fn two_apps_meet(rt: HostRuntime) -> Result<(), Fail> {
    let (first, second) = (Flag::new(), Flag::new());
    let accepted = plan_of_two(rt.alloc())?;
    let cycles = run_pair(&rt, rt.alloc(), Pace::Freely, &accepted, &first, &second)?;
    assert_eq!(rt; cycles, 1);
    assert!(rt; first.has_met() && second.has_met());
    Ok(())
}
