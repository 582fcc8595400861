//! The frames of a cycle, from its begin at all devices to what came of them.

ghost use Rattle.std.specs.Prelude.{◌≡◌, ◌<◌, ◌≤◌, List, All, vec_capacity};
ghost use Rattle.cycle_events.specs.Run.{IsPlayIn};
ghost use Rattle.cycle_frames.specs.Bytes.{AreFramesOf};
ghost use Rattle.cycle_frames.specs.Came.{HaveCome};
ghost use Rattle.irt_base.specs.declared.limits.TheConstants.{MAX_CYCLES};
ghost use Rattle.irt_net.specs.Whole.{IsGated};
ghost use Rattle.net_frames.specs.Frames.{GrowsByFrames, IsReadyFor, most_frames};
ghost use Rattle.net_parcels.specs.Loads.{HoldGates};
ghost use Rattle.net_parcels.specs.Parcels.{AllHaveOpened};
ghost use Rattle.net_site.specs.Site.{IsPlayedAt, bundles_of, play_in};
ghost use Rattle.parcel_rules.specs.Loads.{Gates};
ghost use Rattle.plan_rules.specs.Plan.{setup_of};
ghost use Rattle.plan_rules.specs.World.{WorldRow};

use crate::came::note_came;
use cycle_frames::came::Came;
use event_queue::queue::Queue;
use irt_switch::Switch;
use irt_world::rows::Row;
use net_begin::switches::begin_all;
use net_frames::frames::play_frames;
use net_site::site::Site;
use plan_rules::law::accepted_plans_are_safe;
use rtc3_frame::frames::Frames;
use run_journal::journal::Journal;

/// Begins cycle `k` at all switches, plays its frames, and notes which came. It takes no memory.
pub fn frames_cycle(
    site: &Site,
    row: &Row,
    k: u32,
    switches: &mut [Switch],
    frames: &Frames,
    queue: &mut Queue,
    came: &mut Vec<Came>,
    journal: &mut Journal,
)
    requires plan { IsPlayedAt site.now (bundles_of switches.old) row.now }
    requires run { k < MAX_CYCLES }
    requires gated { All IsGated switches.old }
    requires frames { AreFramesOf (setup_of site.now.plant (bundles_of switches.old)) k frames.now }
    requires queue { IsReadyFor (most_frames site.now.plant (bundles_of switches.old)) queue.old }
    requires noted { most_frames site.now.plant (bundles_of switches.old) ≤ vec_capacity came.old }
    requires room { most_frames site.now.plant (bundles_of switches.old) ≤ journal.old.room }
    ensures rows { GrowsByFrames site.now.plant (bundles_of switches.old) row.now k journal.old journal.new }
    ensures came { (world : List WorldRow) → IsPlayIn (play_in site.now.plant (bundles_of switches.old) row.now k) world →
        HaveCome (setup_of site.now.plant (bundles_of switches.old)) world k came.new.items }
    ensures queue { IsReadyFor (most_frames site.now.plant (bundles_of switches.old)) queue.new }
    ensures capacity { vec_capacity came.new ≡ vec_capacity came.old }
    ensures blocks { bundles_of switches.new ≡ bundles_of switches.old }
    ensures gated { All IsGated switches.new }
    ensures opened { AllHaveOpened site.now.plant row.now k switches.new }
    ensures gates { (gates : Gates) → HoldGates site.now.plant switches.old gates →
        HoldGates site.now.plant switches.new gates }
{
    accepted_plans_are_safe();
    begin_all(switches, site.plant(), row, k);
    let before = journal.len();
    play_frames(site, row, k, switches, frames, queue, journal);
    note_came(came, site, journal, before);
}
