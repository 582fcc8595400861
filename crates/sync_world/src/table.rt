//! What sync messages meet, looked up by device and message.

ghost use Rattle.std.specs.Prelude.{◌≡◌, ◌≤◌, ◌<◌, ◌*◌, ◌^◌, pos, length, drop};
ghost use Rattle.plan_rules.specs.World.{IsWithinWindow};
ghost use Rattle.sync_world.specs.Clocks.{is_lost_on, line_error, total, travel_error};
ghost use Rattle.sync_world.specs.Table.{passage_in};

use crate::lines::{LinePassages, Passage};
use irt_base::numbers::DevId;

/// What a message meets where nothing is known.
pub const NO_PASSAGE: Passage = Passage {
    known: 0,
    delay: 0,
    stay: 0,
    lost: false,
};

/// What a sync message meets at a device.
fn passage_in(table: &[LinePassages], device: DevId, sync: u32) -> Passage
    ensures { result ≡ passage_in table.now sync device }
{
    match table.get(usize::from(device.0)) {
        None => NO_PASSAGE,
        Some(line) => match line.passages.get(sync as usize) {
            None => NO_PASSAGE,
            Some(passage) => *passage,
        },
    }
}

/// Whether a link of the walk loses the message.
pub fn is_lost_on(table: &[LinePassages], walk: &[DevId], sync: u32) -> bool
    ensures { result ≡ is_lost_on (passage_in table.now sync) walk.now }
{
    for device in walk {
        if passage_in(table, *device, sync).lost {
            return true;
        }
    }
    false
}

/// By how many ns the message's correction is wrong at the end of the walk.
pub fn travel_error(table: &[LinePassages], walk: &[DevId], sync: u32) -> i64
    requires { length walk.now < 256 }
    ensures value { result ≡ travel_error (passage_in table.now sync) walk.now }
    ensures small { IsWithinWindow result (pos (2 ^ 41)) }
{
    line_total(table, walk, sync) + stay_total(table, later_of(walk), sync)
}

/// All but the first.
fn later_of(walk: &[DevId]) -> &[DevId]
    ensures { result.now ≡ drop 1 walk.now }
{
    if walk.is_empty() { walk } else { &walk[1..] }
}

fn line_total(table: &[LinePassages], walk: &[DevId], sync: u32) -> i64
    requires { length walk.now < 256 }
    ensures value { result ≡ total (λ v. line_error (passage_in table.now sync v)) walk.now }
    ensures small { IsWithinWindow result (pos (2 ^ 40)) }
{
    let mut sum = 0;
    for device in walk {
        sum += line_error(passage_in(table, *device, sync));
    }
    sum
}

/// How much too long a link's delay is taken, in ns.
fn line_error(passage: Passage) -> i64
    ensures value { result ≡ line_error passage }
    ensures small { IsWithinWindow result (pos (2 ^ 32)) }
{
    i64::from(passage.known) - i64::from(passage.delay)
}

fn stay_total(table: &[LinePassages], walk: &[DevId], sync: u32) -> i64
    requires { length walk.now < 256 }
    ensures value { result ≡ total (λ v. (passage_in table.now sync v).stay) walk.now }
    ensures small { IsWithinWindow result (pos (2 ^ 40)) }
{
    let mut sum = 0;
    for device in walk {
        sum += i64::from(passage_in(table, *device, sync).stay);
    }
    sum
}
