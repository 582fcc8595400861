//! A cycle of frames.

ghost use Rattle.std.specs.Prelude.{◌≡◌, ◌+◌, ◌≤◌, ◌<◌, length, map};
ghost use Rattle.irt_base.specs.declared.limits.TheConstants.{MAX_CYCLES};
ghost use Rattle.plan_rules.specs.Plan.{setup_of};
ghost use Rattle.net_begin.specs.Begun.{released};
ghost use Rattle.net_frames.specs.Begun.{AllHaveBegun};
ghost use Rattle.cycle_frames.specs.Bytes.{AreFramesOf};
ghost use Rattle.net_frames.specs.Frames.{GrowsByFrames, IsReadyFor, most_frames};
ghost use Rattle.net_frames.specs.Playing.{IsStarted, play_by};
ghost use Rattle.net_site.specs.Site.{IsPlayedAt, bundles_of};

use crate::turns::run_queue;
use cycle_events::law::{runs_give_segments, runs_go_on};
use event_queue::queue::Queue;
use irt_switch::Switch;
use irt_world::law::fitting_worlds_are_in_range;
use irt_world::rows::Row;
use net_begin::switches::release_all;
use net_site::site::Site;
use rtc3_frame::frames::Frames;
use run_journal::journal::Journal;
use switch_events::law::releases_are_first;

/// Plays the frames of cycle `k`, which the switches have begun: what the devices release is sent, what arrives is taken by
/// the device's own switch, and goes on from there, until nothing waits. `frames` has the bytes of each due frame, by its demand.
/// It takes no memory.
pub fn play_frames(
    site: &Site,
    row: &Row,
    k: u32,
    switches: &mut [Switch],
    frames: &Frames,
    queue: &mut Queue,
    journal: &mut Journal,
)
    requires plan { IsPlayedAt site.now (bundles_of switches.old) row.now }
    requires run { k < MAX_CYCLES }
    requires begun { AllHaveBegun site.now.plant row.now k switches.old }
    requires frames { AreFramesOf (setup_of site.now.plant (bundles_of switches.old)) k frames.now }
    requires queue { IsReadyFor (most_frames site.now.plant (bundles_of switches.old)) queue.old }
    requires room { most_frames site.now.plant (bundles_of switches.old) ≤ journal.old.room }
    ensures rows { GrowsByFrames site.now.plant (bundles_of switches.old) row.now k journal.old journal.new }
    ensures queue { IsReadyFor (most_frames site.now.plant (bundles_of switches.old)) queue.new }
    ensures switches { switches.new ≡ map released switches.old }
{
    fitting_worlds_are_in_range();
    runs_give_segments();
    let before = journal.len();
    start_all(site, row, k, switches, queue);
    run_queue(site, row, k, switches, frames, queue, journal);
    journal.sort_from(before);
}

/// Puts what the devices release into the queue, in which nothing waits.
fn start_all(site: &Site, row: &Row, k: u32, switches: &mut [Switch], queue: &mut Queue)
    requires plan { IsPlayedAt site.now (bundles_of switches.old) row.now }
    requires begun { AllHaveBegun site.now.plant row.now k switches.old }
    requires queue { IsReadyFor (most_frames site.now.plant (bundles_of switches.old)) queue.old }
    ensures started { IsStarted (play_by site.now.plant switches.old row.now k) queue.new.events }
    ensures room { most_frames site.now.plant (bundles_of switches.old) ≤ queue.new.room + length queue.new.events }
    ensures switches { switches.new ≡ map released switches.old }
{
    fitting_worlds_are_in_range();
    releases_are_first();
    runs_go_on();
    release_all(queue, switches, site.plant(), row, k);
}
