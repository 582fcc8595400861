//! A step of a plant, over its parts.

ghost use Rattle.std.specs.Prelude.{◌+◌};
ghost use Rattle.iso_plant.specs.Cycle.{CanStep, IsNext, parts_of};
ghost use Rattle.iso_plant.specs.Step.{ends_of};

use crate::cycle::play_cycle;
use crate::exchange::{publish_all, take_all};
use crate::history::AppHistory;
use io_buffers::ends::Ends;
use irt_base::list::Items;
use irt_base::plants::App;
use irt_net::net::Net;
use irt_world::law::fitting_worlds_are_in_range;
use irt_world::rows::World;
use iso_rules::law::images_rest_on_recent_cycles;
use plant_stations::Stations;
use plant_stations::law::stations_rest_on_done_cycles;
use run_journal::journal::Journal;

/// Plays the cycle after those that are done: takes once from each app, runs the network, and publishes once to each
/// app. It takes no memory.
pub(crate) fn play_step<E: Ends>(
    net: &mut Net,
    stations: &mut Stations,
    journal: &mut Journal,
    world: &World,
    done: u32,
    apps: &Items<App>,
    histories: &mut Vec<AppHistory>,
    outputs: &mut Vec<Items<u64>>,
    images: &mut Vec<Items<u64>>,
    ends: &mut E,
)
    requires { CanStep
        (parts_of net.old stations.old world.now journal.old done apps.now
        histories.old.items outputs.old.items images.old.items)
        (ends_of E.apps E.output_words E.input_words E.offers E.takes E.published ends.old) }
    ensures { IsNext
        (parts_of net.old stations.old world.now journal.old done apps.now
        histories.old.items outputs.old.items images.old.items)
        (parts_of net.new stations.new world.now journal.new (done + 1) apps.now
        histories.new.items outputs.new.items images.new.items)
        (ends_of E.apps E.output_words E.input_words E.offers E.takes E.published ends.old)
        (ends_of E.apps E.output_words E.input_words E.offers E.takes E.published ends.new) }
{
    fitting_worlds_are_in_range();
    images_rest_on_recent_cycles();
    stations_rest_on_done_cycles();
    take_all(
        apps.as_slice(),
        histories.as_mut_slice(),
        outputs.as_mut_slice(),
        ends,
    );
    play_cycle(
        net,
        stations,
        journal,
        done,
        &world.rows[done as usize],
        outputs.as_slice(),
        images.as_mut_slice(),
    );
    publish_all(histories.as_mut_slice(), images.as_slice(), ends);
}
