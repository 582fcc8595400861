//! A cycle of the network and its stations.

ghost use Rattle.std.specs.Prelude.{◌<◌, ℕ, List};
ghost use Rattle.irt_base.specs.declared.limits.TheConstants.{MAX_CYCLES};
ghost use Rattle.iso_plant.specs.Played.{CanPlay, GoesOn, HasPlayed, IsCycleOf};
ghost use Rattle.parcel_rules.specs.Loads.{Loads};
ghost use Rattle.plan_rules.specs.World.{WorldRow};

use irt_base::list::Items;
use irt_net::net::Net;
use irt_world::rows::Row;
use plant_stations::Stations;
use plant_stations::law::loaded_frames_are_demanded;
use run_journal::journal::Journal;

/// Plays cycle `k` with what the devices send: it fills the frames, runs the network, and writes the image of each app.
/// It takes no memory.
pub(crate) fn play_cycle(
    net: &mut Net,
    stations: &mut Stations,
    journal: &mut Journal,
    k: u32,
    row: &Row,
    outputs: &[Items<u64>],
    images: &mut [Items<u64>],
)
    requires run { k < MAX_CYCLES }
    requires ready { CanPlay k row.now outputs.now images.old net.old stations.old journal.old.room }
    ensures played { (world : List WorldRow) (taken : ℕ → ℕ → List ℕ) (loads : Loads) →
        IsCycleOf world taken loads k row.now outputs.now net.old stations.old →
        HasPlayed world taken loads k net.old net.new stations.new journal.old journal.new images.new }
    ensures goes_on { GoesOn k net.old net.new stations.new journal.old journal.new images.new }
{
    loaded_frames_are_demanded();
    stations.load(k, outputs);
    net.cycle(k, row, stations.frames(), journal);
    stations.end_cycle(k, net.came(), images);
}
