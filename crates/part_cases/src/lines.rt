//! Delays of a link, as its responses tell them.

use line_delay::line::{LineDelay, LineFault};

/// The last stamp of a response, whose others are 1000, 5000 and 15000, and its answer.
const RESPONSES: [(u64, Result<u32, LineFault>); 4] = [
    (12000, Ok(500)),
    (12003, Ok(500)),
    (10999, Err(LineFault::TimesOutOfOrder)),
    (12003, Ok(501)),
];

/// The halves of rounds, and the median with each.
const HALVES: [(u64, u32); 9] = [
    (1000, 1000),
    (1, 1),
    (2, 2),
    (3, 2),
    (4, 3),
    (5, 3),
    (6, 4),
    (7, 4),
    (8, 4),
];

/// The stamps of a first response, and its answer.
const STAMPS: [([u64; 4], Result<u32, LineFault>); 5] = [
    ([0, 0, 0, 2000001], Ok(1000000)),
    ([0, 0, 0, 2000002], Err(LineFault::TooLong)),
    ([5, 0, 0, 4], Err(LineFault::TimesOutOfOrder)),
    ([0, 5, 4, 100], Err(LineFault::TimesOutOfOrder)),
    ([7, u64::MAX, u64::MAX, 7], Ok(0)),
];

#[test]
fn half_rounds_and_their_median(rt: HostRuntime) {
    let mut line = LineDelay::new();
    assert!(rt; line.median() == None);
    for (t4, answer) in &RESPONSES {
        assert!(rt; line.response(1000, 5000, 15000, *t4) == *answer, "at {t4}");
    }
    assert!(rt; line.median() == Some(501));
}

#[test]
fn the_ninth_response_pushes_the_first_out(rt: HostRuntime) {
    let mut line = LineDelay::new();
    for (half, median) in &HALVES {
        assert!(rt; *half <= 1000);
        assert!(rt;
            line.response(0, 0, 0, 2 * *half) == Ok(*median),
            "at {half}"
        );
    }
}

/// The answer to a first response, and the median after it.
fn first_response(stamps: [u64; 4]) -> (Result<u32, LineFault>, Option<u32>) {
    let mut line = LineDelay::new();
    let [t1, t2, t3, t4] = stamps;
    let answer = line.response(t1, t2, t3, t4);
    (answer, line.median())
}

#[test]
fn stamps_that_are_refused(rt: HostRuntime) {
    for (stamps, wanted) in &STAMPS {
        let (answer, median) = first_response(*stamps);
        assert!(rt; answer == *wanted && median == wanted.ok(), "{answer:?}");
    }
}
