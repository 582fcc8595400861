//! Turns.

ghost use Rattle.std.specs.Prelude.{◌≡◌, ◌+◌, ◌≤◌, ◌++◌, ◌∷◌, [], ℕ, List, length, pos, ◌+ℤ◌};
ghost use Rattle.std.specs.Prelude.{option_to_list, All, IsPermutation};
ghost use Rattle.irt_base.specs.Cycle.{wire_time};
ghost use Rattle.irt_base.specs.declared.blocks.Bundle.{Bundle};
ghost use Rattle.irt_base.specs.declared.limits.TheConstants.{MAX_DATA};
ghost use Rattle.cycle_events.specs.Events.{caused_by_start};
ghost use Rattle.cycle_rows.specs.declared.rows.JournalRow.TheVariants.{Occupy};
ghost use Rattle.irt_world.specs.Rows.{IsError};
ghost use Rattle.switch_events.specs.Answered.{written_by};
ghost use Rattle.net_answers.specs.Answer.{IsSmallAnswer, answer_starts};
ghost use Rattle.net_begin.specs.Clocks.{begin_of};
ghost use Rattle.net_site.specs.Site.{play_in};
ghost use Rattle.net_starts.specs.Released.{IsSmallTime};
ghost use Rattle.net_turns.specs.Bytes.{bytes_of};

use cycle_events::events::Event;
use cycle_rows::rows::JournalRow;
use event_queue::queue::Queue;
use irt_base::numbers::FrameId;
use irt_switch::Action;
use irt_world::rows::Row;
use net_answers::answers::push_answer;
use net_answers::rows::{answer_row, start_row};
use net_begin::clocks::begin_event;
use net_site::site::Site;
use run_journal::journal::Journal;

/// The turn of a start, in a cycle with this row: the occupation is written down, and the arrival that it leads to is
/// put into the queue. It takes no memory.
pub fn start_turn(
    site: &Site,
    row: &Row,
    k: u32,
    start: Event,
    queue: &mut Queue,
    journal: &mut Journal,
)
    requires time { IsSmallTime 60 start.at }
    requires bytes { bytes_of site.now.plant start.frame.0 ≤ MAX_DATA }
    requires room { 1 ≤ queue.old.room }
    requires space { 1 ≤ journal.old.room }
    ensures rows { journal.new.rows ≡ journal.old.rows ++ Occupy k start.device start.port start.frame start.at
        (start.at +ℤ pos (wire_time (bytes_of site.now.plant start.frame.0))) ∷ [] }
    ensures space { journal.new.room + 1 ≡ journal.old.room }
    ensures caused { (bundles : List Bundle) → IsPermutation (caused_by_start (play_in site.now.plant bundles row.now k)
        start.at start.device.0 start.port.0 start.frame.0 ++ queue.old.events) queue.new.events }
    ensures room { (bundles : List Bundle) → queue.old.room ≤ queue.new.room + length (caused_by_start
        (play_in site.now.plant bundles row.now k) start.at start.device.0 start.port.0 start.frame.0) }
{
    journal.push(start_row(start, k, demanded_bytes(site, start.frame)));
    push_event(queue, site.arrival(row, start));
}

/// The turn of an arrival, in a cycle with this row, by what the device answers: the answer's row is written down, and
/// the starts that it brings about are put into the queue. It takes no memory.
pub fn arrival_turn(
    site: &Site,
    row: &Row,
    k: u32,
    arrival: Event,
    action: Action,
    queue: &mut Queue,
    journal: &mut Journal,
)
    requires errors { All IsError row.now.errors }
    requires time { IsSmallTime 60 arrival.at }
    requires answer { IsSmallAnswer action }
    requires bytes { bytes_of site.now.plant arrival.frame.0 ≤ MAX_DATA }
    requires room { length (answer_starts (begin_of site.now.plant row.now k arrival.device.0) arrival.device.0
        arrival.frame.0 action) ≤ queue.old.room }
    requires space { 1 ≤ journal.old.room }
    ensures rows { (bundles : List Bundle) → journal.new.rows ≡ journal.old.rows ++ written_by
        (play_in site.now.plant bundles row.now k) arrival (bytes_of site.now.plant arrival.frame.0) action }
    ensures space { (bundles : List Bundle) → journal.new.room + length (written_by
        (play_in site.now.plant bundles row.now k) arrival (bytes_of site.now.plant arrival.frame.0) action) ≡ journal.old.room }
    ensures caused { IsPermutation (answer_starts (begin_of site.now.plant row.now k arrival.device.0) arrival.device.0
        arrival.frame.0 action ++ queue.old.events) queue.new.events }
    ensures room { queue.old.room ≤ queue.new.room + length (answer_starts
        (begin_of site.now.plant row.now k arrival.device.0) arrival.device.0 arrival.frame.0 action) }
{
    push_row(
        journal,
        answer_row(arrival, k, demanded_bytes(site, arrival.frame), action),
    );
    push_answer(
        queue,
        begin_event(site.plant(), row, k, arrival.device),
        arrival.frame,
        action,
    );
}

/// The bytes of data that are demanded of a frame, 0 where it is not demanded.
pub fn demanded_bytes(site: &Site, frame: FrameId) -> u16
    ensures { result ≡ bytes_of site.now.plant frame.0 }
{
    match site.plant().demands.get(site.demand_number(frame)) {
        None => 0,
        Some(demand) => demand.length,
    }
}

/// Puts an event, where there is one, into a queue. It takes no memory.
pub fn push_event(queue: &mut Queue, event: Option<Event>)
    requires { 1 ≤ queue.old.room }
    ensures put { IsPermutation (option_to_list event ++ queue.old.events) queue.new.events }
    ensures room { queue.old.room ≤ queue.new.room + length (option_to_list event) }
{
    if let Some(event) = event {
        queue.push(event);
    }
}

/// Appends a row, where there is one, to a journal. It takes no memory.
pub fn push_row(journal: &mut Journal, row: Option<JournalRow>)
    requires { length (option_to_list row) ≤ journal.old.room }
    ensures rows { journal.new.rows ≡ journal.old.rows ++ option_to_list row }
    ensures room { journal.new.room + length (option_to_list row) ≡ journal.old.room }
{
    if let Some(row) = row {
        journal.push(row);
    }
}
