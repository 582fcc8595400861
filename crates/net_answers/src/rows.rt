//! The rows of a start and of an answer.

ghost use Rattle.std.specs.Prelude.{◌≡◌, ◌≤◌, ◌+ℤ◌, ◌∷◌, [], if◌then◌else◌, pos, option_to_list};
ghost use Rattle.irt_base.specs.Cycle.{wire_time};
ghost use Rattle.irt_base.specs.declared.limits.TheConstants.{MAX_DATA};
ghost use Rattle.cycle_events.specs.Events.{Play};
ghost use Rattle.cycle_rows.specs.declared.rows.JournalRow.TheVariants.{Occupy, Deliver};
ghost use Rattle.net_starts.specs.Released.{IsSmallTime};
ghost use Rattle.switch_events.specs.Answered.{written_by};

use cycle_events::events::Event;
use cycle_rows::rows::JournalRow;
use irt_base::cycles::wire;
use irt_base::numbers::Ns;
use irt_switch::Action;

/// The row of a start in a cycle, of a frame with so many bytes of data.
pub fn start_row(start: Event, cycle: u32, bytes: u16) -> JournalRow
    requires time { IsSmallTime 60 start.at }
    requires bytes { bytes ≤ MAX_DATA }
    ensures { result ≡ Occupy cycle start.device start.port start.frame start.at (start.at +ℤ pos (wire_time bytes)) }
{
    JournalRow::Occupy {
        cycle,
        device: start.device,
        port: start.port,
        frame: start.frame,
        start: start.at,
        end: whole_at(start, bytes),
    }
}

/// The row that an answer to an arrival gives in a cycle, for a frame with so many bytes of data. `None` comes exactly
/// where the device sends the frame on and does not keep it.
pub fn answer_row(arrival: Event, cycle: u32, bytes: u16, action: Action) -> Option<JournalRow>
    requires time { IsSmallTime 60 arrival.at }
    requires bytes { bytes ≤ MAX_DATA }
    ensures { (play : Play) → play.cycle ≡ cycle → option_to_list result ≡ written_by play arrival bytes action }
{
    match action {
        Action::Forward { here, .. } => kept_row(arrival, cycle, bytes, here),
        Action::Dropped { .. } => Some(JournalRow::Missed {
            cycle,
            device: arrival.device,
            frame: arrival.frame,
        }),
    }
}

fn kept_row(arrival: Event, cycle: u32, bytes: u16, here: bool) -> Option<JournalRow>
    requires time { IsSmallTime 60 arrival.at }
    requires bytes { bytes ≤ MAX_DATA }
    ensures { option_to_list result ≡
        (if here then Deliver cycle arrival.device arrival.frame (arrival.at +ℤ pos (wire_time bytes)) ∷ [] else []) }
{
    if !here {
        return None;
    }
    Some(JournalRow::Deliver {
        cycle,
        device: arrival.device,
        frame: arrival.frame,
        end: whole_at(arrival, bytes),
    })
}

/// When a frame that starts or begins to arrive then is off the wire.
fn whole_at(event: Event, bytes: u16) -> Ns
    requires time { IsSmallTime 60 event.at }
    requires bytes { bytes ≤ MAX_DATA }
    ensures { result ≡ (event.at +ℤ pos (wire_time bytes)) }
{
    event.at + i64::from(wire(bytes))
}
