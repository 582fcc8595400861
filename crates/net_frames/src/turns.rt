//! The turns of a cycle.

ghost use Rattle.std.specs.Prelude.{◌≡◌, ◌+◌, ◌≤◌, ◌++◌, length, IsPermutation};
ghost use Rattle.cycle_events.specs.Events.{causes, rows_of};
ghost use Rattle.cycle_events.specs.Run.{IsNearEvent};
ghost use Rattle.net_frames.specs.Frames.{IsReadyFor, most_frames};
ghost use Rattle.net_frames.specs.Playing.{HasGiven, IsPlaying, IsStarted, play_by};
ghost use Rattle.net_site.specs.Site.{bundles_of};

use crate::answers::answer_to;
use cycle_events::events::{Event, What};
use cycle_events::law::{runs_go_on, turns_fit};
use event_queue::queue::Queue;
use irt_switch::Switch;
use irt_world::rows::Row;
use net_site::site::Site;
use net_turns::law::events_are_demanded;
use net_turns::turns::{arrival_turn, start_turn};
use rtc3_frame::frames::Frames;
use run_journal::journal::Journal;

/// Takes out what waits, and what that causes, one event after the other until none waits. The journal gets the rows as
/// they come. It takes no memory.
pub fn run_queue(
    site: &Site,
    row: &Row,
    k: u32,
    switches: &[Switch],
    frames: &Frames,
    queue: &mut Queue,
    journal: &mut Journal,
)
    requires playing { IsPlaying site.now row.now k switches.now frames.now }
    requires started { IsStarted (play_by site.now.plant switches.now row.now k) queue.old.events }
    requires queue { most_frames site.now.plant (bundles_of switches.now) ≤ queue.old.room + length queue.old.events }
    requires room { most_frames site.now.plant (bundles_of switches.now) ≤ journal.old.room }
    ensures rows { HasGiven (play_by site.now.plant switches.now row.now k) journal.old journal.new }
    ensures queue { IsReadyFor (most_frames site.now.plant (bundles_of switches.now)) queue.new }
{
    events_are_demanded();
    runs_go_on();
    turns_fit();
    while let Some(event) = queue.pop() {
        turn(site, row, k, event, switches, frames, queue, journal);
    }
}

/// The turn of an event: its row is written down, and what it causes is put into the queue.
fn turn(
    site: &Site,
    row: &Row,
    k: u32,
    event: Event,
    switches: &[Switch],
    frames: &Frames,
    queue: &mut Queue,
    journal: &mut Journal,
)
    requires playing { IsPlaying site.now row.now k switches.now frames.now }
    requires near { IsNearEvent (play_by site.now.plant switches.now row.now k) event }
    requires one { 1 ≤ queue.old.room }
    requires room { length (causes (play_by site.now.plant switches.now row.now k) event) ≤ queue.old.room }
    requires space { 1 ≤ journal.old.room }
    ensures rows { journal.new.rows ≡
        journal.old.rows ++ rows_of (play_by site.now.plant switches.now row.now k) event }
    ensures space { journal.new.room + length (rows_of (play_by site.now.plant switches.now row.now k) event) ≡
        journal.old.room }
    ensures caused { IsPermutation
        (causes (play_by site.now.plant switches.now row.now k) event ++ queue.old.events) queue.new.events }
    ensures room { queue.old.room ≤
        queue.new.room + length (causes (play_by site.now.plant switches.now row.now k) event) }
{
    events_are_demanded();
    match event.what {
        What::Start => start_turn(site, row, k, event, queue, journal),
        What::Arrive => {
            let action = answer_to(site, row, k, event, switches, frames);
            arrival_turn(site, row, k, event, action, queue, journal);
        }
    }
}
