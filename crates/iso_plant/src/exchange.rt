//! What a cycle takes from all apps, and publishes to all of them.

ghost use Rattle.iso_plant.specs.Exchanged.{CanPublish, CanTake, PublishesAll, TakesAll};
ghost use Rattle.iso_plant.specs.Step.{ends_of};

use crate::history::AppHistory;
use io_buffers::ends::Ends;
use irt_base::list::Items;
use irt_base::plants::App;

/// Takes once from each app, and writes the words taken over the output of its device. It takes no memory.
pub(crate) fn take_all<E: Ends>(
    apps: &[App],
    histories: &mut [AppHistory],
    outputs: &mut [Items<u64>],
    ends: &mut E,
)
    requires { CanTake apps.now histories.old outputs.old
        (ends_of E.apps E.output_words E.input_words E.offers E.takes E.published ends.old) }
    ensures { TakesAll apps.now histories.old histories.new outputs.old outputs.new
        (ends_of E.apps E.output_words E.input_words E.offers E.takes E.published ends.old)
        (ends_of E.apps E.output_words E.input_words E.offers E.takes E.published ends.new) }
{
    for index in 0..apps.len() {
        let device = usize::from(apps[index].device.0);
        histories[index].take(index, ends, &mut outputs[device]);
    }
}

/// Publishes its image to each app. It takes no memory.
pub(crate) fn publish_all<E: Ends>(
    histories: &mut [AppHistory],
    images: &[Items<u64>],
    ends: &mut E,
)
    requires { CanPublish histories.old images.now
        (ends_of E.apps E.output_words E.input_words E.offers E.takes E.published ends.old) }
    ensures { PublishesAll histories.old histories.new images.now
        (ends_of E.apps E.output_words E.input_words E.offers E.takes E.published ends.old)
        (ends_of E.apps E.output_words E.input_words E.offers E.takes E.published ends.new) }
{
    for index in 0..images.len() {
        histories[index].publish(index, ends, images[index].as_slice());
    }
}
