//! Runs of the exchange as a machine.

use std::alloc::Global;
use std::process::Abort;
use std::test::Fail;
use swap_core::runs::run_steps;
use swap_core::slots::Core;
use swap_core::steps::{Seen, Step};

// Makes the steps, and compares what they see.
fn sees(
    rt: &impl Abort,
    alloc: Global,
    words: u16,
    steps: &[Step],
    seen: &[Seen],
) -> Result<(), Fail> {
    assert!(rt; steps.len() < 100);
    let (_core, found) = run_steps(alloc, words, steps)?;
    assert!(rt; found.as_slice() == seen, "{found:?}");
    Ok(())
}

#[test]
fn refuses_places_and_takes_that_no_probe_announced(rt: HostRuntime) -> Result<(), Fail> {
    sees(
        &rt,
        rt.alloc(),
        1,
        &[
            Step::Take,
            Step::Store { place: 1, word: 5 },
            Step::Store { place: 0, word: 7 },
            Step::Publish,
            Step::Take,
            Step::Probe,
            Step::Take,
            Step::Load { place: 0 },
        ],
        &[
            Seen::Nothing,
            Seen::Nothing,
            Seen::Stored,
            Seen::Published { number: 1 },
            Seen::Nothing,
            Seen::Probed { fresh: true },
            Seen::Took { number: 1 },
            Seen::Word { word: 7 },
        ],
    )
}

#[test]
fn a_take_after_a_race_has_the_newest(rt: HostRuntime) -> Result<(), Fail> {
    sees(
        &rt,
        rt.alloc(),
        1,
        &[
            Step::Probe,
            Step::Load { place: 0 },
            Step::Store { place: 0, word: 11 },
            Step::Publish,
            Step::Probe,
            Step::Store { place: 0, word: 22 },
            Step::Publish,
            Step::Take,
            Step::Load { place: 0 },
            Step::Probe,
        ],
        &[
            Seen::Probed { fresh: false },
            Seen::Word { word: 0 },
            Seen::Stored,
            Seen::Published { number: 1 },
            Seen::Probed { fresh: true },
            Seen::Stored,
            Seen::Published { number: 2 },
            Seen::Took { number: 2 },
            Seen::Word { word: 22 },
            Seen::Probed { fresh: false },
        ],
    )
}

#[test]
fn a_publication_during_a_take_leaves_its_words(rt: HostRuntime) -> Result<(), Fail> {
    sees(
        &rt,
        rt.alloc(),
        2,
        &[
            Step::Store { place: 0, word: 1 },
            Step::Store { place: 1, word: 2 },
            Step::Publish,
            Step::Probe,
            Step::Take,
            Step::Load { place: 0 },
            Step::Store { place: 0, word: 3 },
            Step::Store { place: 1, word: 4 },
            Step::Publish,
            Step::Load { place: 1 },
            Step::Probe,
        ],
        &[
            Seen::Stored,
            Seen::Stored,
            Seen::Published { number: 1 },
            Seen::Probed { fresh: true },
            Seen::Took { number: 1 },
            Seen::Word { word: 1 },
            Seen::Stored,
            Seen::Stored,
            Seen::Published { number: 2 },
            Seen::Word { word: 2 },
            Seen::Probed { fresh: true },
        ],
    )
}

#[test]
fn steps_one_by_one(rt: HostRuntime) -> Result<(), Fail> {
    let mut core = Core::new(rt.alloc(), 1)?;
    assert!(rt; core.published() == 0);
    assert!(rt; core.step(Step::Publish) == Seen::Published { number: 1 });
    assert!(rt; core.published() == 1);
    Ok(())
}
