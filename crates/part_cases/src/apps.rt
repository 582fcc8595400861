//! Turns of applications, and the seal of frames.

use irt_base::numbers::DevId;
use irt_base::plants::{App, AppName};
use iso_app::apps::IsoApp;
use iso_app::kinds::AppKind;
use iso_app::seal::seal;

/// Input words, and the output words of a turn, of which there are three, each holding 9 before it.
type Turn = (&'static [u64], [u64; 3]);

/// A kind of application with its number, and turns one after another.
const TURNS: [(AppName, u32, &[Turn]); 4] = [
    (
        AppName::Copy,
        0,
        &[(&[4, 5], [4, 5, 0]), (&[1, 2, 3, 4], [1, 2, 3])],
    ),
    (
        AppName::Counter,
        0,
        &[(&[], [1, 0, 0]), (&[], [2, 0, 0]), (&[], [3, 0, 0])],
    ),
    // The last one is back towards 0.
    (
        AppName::Follow,
        3,
        &[
            (&[7], [3, 0, 0]),
            (&[7], [6, 0, 0]),
            (&[7], [7, 0, 0]),
            (&[7], [7, 0, 0]),
            (&[], [4, 0, 0]),
        ],
    ),
    (
        AppName::Limit,
        5,
        &[(&[9, 0], [5, 0, 0]), (&[4], [4, 0, 0])],
    ),
];

/// The output words of a turn.
fn turned(app: &mut AppKind, input: &[u64]) -> [u64; 3] {
    let mut output = [9; 3];
    app.turn(input, &mut output);
    output
}

fn made(kind: AppName, param: u32) -> AppKind {
    AppKind::of(&App {
        device: DevId(0),
        kind,
        param,
    })
}

/// How many of the first turns give their output words.
fn right_turns(mut app: AppKind, turns: &[Turn]) -> usize {
    for (at, (input, output)) in turns.iter().enumerate() {
        if turned(&mut app, input) != *output {
            return at;
        }
    }
    turns.len()
}

#[test]
fn kinds_turn_as_the_plant_names_them(rt: HostRuntime) {
    for (kind, param, turns) in &TURNS {
        let right = right_turns(made(*kind, *param), turns);
        assert!(rt; right == turns.len(), "turn {right} of {param}");
    }
}

#[test]
fn ends_of_the_range(rt: HostRuntime) {
    let mut counter = AppKind::Counter { count: u64::MAX };
    assert!(rt; turned(&mut counter, &[]) == [0, 0, 0], "wraps");
    let mut follow = AppKind::Follow {
        value: u64::MAX - 1,
        step: 3,
    };
    assert!(rt; turned(&mut follow, &[u64::MAX]) == [u64::MAX, 0, 0]);
    let mut none: [u64; 0] = [];
    counter.turn(&[1], &mut none);
    assert!(rt; counter == AppKind::Counter { count: 1 });
}

#[test]
fn a_seal_sets_the_last_byte_of_each_frame(rt: HostRuntime) {
    let mut words = [0xFF, 0, 0x1234, 0xFFFF, 7];
    seal(&mut words, &[2, 1, 2]);
    assert!(rt; words == [0xFF, 0x80, 0x1280, 0xFFFF, 0x80]);
}
