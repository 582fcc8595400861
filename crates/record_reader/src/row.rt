//! Rows of the journal, after their letter.

ghost use Rattle.std.specs.Prelude.{◌≡◌, ◌≤◌, ◌<◌, ◌^◌, IfOk, length};
ghost use Rattle.record_reader.specs.Reading.{GivesForm, begin_read, came_read, deliver_read, lost_read, missed_read, occupy_read, parcel_read, queue_read, refused_read, row_read, row_rest_read, sent_read, times_read};

use crate::fault::Form;
use crate::field::{
    after_byte, after_step, read_device, read_frame, read_number, read_port, read_time,
};
use cycle_rows::rows::JournalRow;
use irt_base::numbers::{DevId, Ns, PortNo};
use irt_base::plants::Plant;

/// The cycle and the device of a line.
#[tactic(auto, unfolding(crate::specs::Reading::begin_read))]
pub(crate) fn read_begin<'a>(plant: &Plant, bytes: &'a [u8]) -> Result<(u32, DevId, &'a [u8]), Form>
    requires { length plant.now.devices ≤ 256 }
    ensures { GivesForm (λ x. ((x.0, x.1), x.2.now)) result (begin_read plant.now bytes.now) }
{
    let (cycle, rest) = read_number(bytes, 4294967295)?;
    let (device, rest) = read_device(plant, rest)?;
    Ok((cycle as u32, device, rest))
}

/// A row of this letter.
#[tactic(auto, unfolding(crate::specs::Reading::row_read))]
pub(crate) fn read_row<'a>(
    plant: &Plant,
    letter: u8,
    bytes: &'a [u8],
) -> Result<(JournalRow, &'a [u8]), Form>
    requires { length plant.now.devices ≤ 256 }
    ensures { GivesForm (λ x. (x.0, x.1.now)) result (row_read plant.now letter bytes.now) }
{
    let (cycle, device, rest) = read_begin(plant, bytes)?;
    read_rest(letter, cycle, device, rest)
}

fn read_rest(
    letter: u8,
    cycle: u32,
    device: DevId,
    bytes: &[u8],
) -> Result<(JournalRow, &[u8]), Form>
    ensures { GivesForm (λ x. (x.0, x.1.now)) result (row_rest_read letter cycle device bytes.now) }
{
    match letter {
        b'o' => read_occupy(cycle, device, bytes),
        b'd' => read_deliver(cycle, device, bytes),
        b'x' => read_missed(cycle, device, bytes),
        b't' => read_sent(cycle, device, bytes),
        b'q' => read_refused(cycle, device, bytes),
        b'l' => read_lost(cycle, device, bytes),
        b'a' => read_came(cycle, device, bytes),
        _ => Err(Form),
    }
}

/// A traffic entry, and which of its parcels.
#[tactic(auto, unfolding(crate::specs::Reading::parcel_read))]
fn read_parcel(bytes: &[u8]) -> Result<(u16, u32, &[u8]), Form>
    ensures { GivesForm (λ x. ((x.0, x.1), x.2.now)) result (parcel_read bytes.now) }
{
    let (traffic, rest) = read_number(bytes, 65535)?;
    let (serial, rest) = read_number(rest, 4294967295)?;
    Ok((traffic as u16, serial as u32, rest))
}

/// Two times in ns, and the line's end.
#[tactic(auto, unfolding(crate::specs::Reading::times_read))]
fn read_times(bytes: &[u8]) -> Result<(Ns, Ns, &[u8]), Form>
    ensures { GivesForm (λ x. ((x.0, x.1), x.2.now)) result (times_read bytes.now) }
{
    let (start, rest) = read_time(bytes)?;
    let (end, rest) = read_time(rest)?;
    let rest = after_byte(rest, b'\n')?;
    Ok((start, end, rest))
}

/// A port, a parcel and the line's end.
#[tactic(auto, unfolding(crate::specs::Reading::queue_read))]
fn read_queue(bytes: &[u8]) -> Result<(PortNo, u16, u32, &[u8]), Form>
    ensures { GivesForm (λ x. ((x.0, x.1, x.2), x.3.now)) result (queue_read bytes.now) }
{
    let (port, rest) = read_port(bytes)?;
    let (traffic, serial, rest) = read_parcel(rest)?;
    let rest = after_byte(rest, b'\n')?;
    Ok((port, traffic, serial, rest))
}

#[tactic(auto, unfolding(crate::specs::Reading::occupy_read))]
fn read_occupy(cycle: u32, device: DevId, bytes: &[u8]) -> Result<(JournalRow, &[u8]), Form>
    ensures { GivesForm (λ x. (x.0, x.1.now)) result (occupy_read cycle device bytes.now) }
{
    let (port, rest) = read_port(bytes)?;
    let (frame, rest) = read_frame(rest)?;
    let (start, end, rest) = read_times(rest)?;
    Ok((
        JournalRow::Occupy {
            cycle,
            device,
            port,
            frame,
            start,
            end,
        },
        rest,
    ))
}

#[tactic(auto, unfolding(crate::specs::Reading::deliver_read))]
fn read_deliver(cycle: u32, device: DevId, bytes: &[u8]) -> Result<(JournalRow, &[u8]), Form>
    ensures { GivesForm (λ x. (x.0, x.1.now)) result (deliver_read cycle device bytes.now) }
{
    let (frame, rest) = read_frame(bytes)?;
    let (end, rest) = read_time(rest)?;
    let rest = after_byte(rest, b'\n')?;
    Ok((
        JournalRow::Deliver {
            cycle,
            device,
            frame,
            end,
        },
        rest,
    ))
}

#[tactic(auto, unfolding(crate::specs::Reading::missed_read))]
fn read_missed(cycle: u32, device: DevId, bytes: &[u8]) -> Result<(JournalRow, &[u8]), Form>
    ensures { GivesForm (λ x. (x.0, x.1.now)) result (missed_read cycle device bytes.now) }
{
    let (frame, rest) = read_frame(bytes)?;
    let rest = after_step(rest)?;
    Ok((
        JournalRow::Missed {
            cycle,
            device,
            frame,
        },
        rest,
    ))
}

#[tactic(auto, unfolding(crate::specs::Reading::sent_read))]
fn read_sent(cycle: u32, device: DevId, bytes: &[u8]) -> Result<(JournalRow, &[u8]), Form>
    ensures { GivesForm (λ x. (x.0, x.1.now)) result (sent_read cycle device bytes.now) }
{
    let (port, rest) = read_port(bytes)?;
    let (traffic, serial, rest) = read_parcel(rest)?;
    let (start, end, rest) = read_times(rest)?;
    Ok((
        JournalRow::Sent {
            cycle,
            device,
            port,
            traffic,
            serial,
            start,
            end,
        },
        rest,
    ))
}

fn read_refused(cycle: u32, device: DevId, bytes: &[u8]) -> Result<(JournalRow, &[u8]), Form>
    ensures { GivesForm (λ x. (x.0, x.1.now)) result (refused_read cycle device bytes.now) }
{
    let (port, traffic, serial, rest) = read_queue(bytes)?;
    Ok((
        JournalRow::Refused {
            cycle,
            device,
            port,
            traffic,
            serial,
        },
        rest,
    ))
}

fn read_lost(cycle: u32, device: DevId, bytes: &[u8]) -> Result<(JournalRow, &[u8]), Form>
    ensures { GivesForm (λ x. (x.0, x.1.now)) result (lost_read cycle device bytes.now) }
{
    let (port, traffic, serial, rest) = read_queue(bytes)?;
    Ok((
        JournalRow::Lost {
            cycle,
            device,
            port,
            traffic,
            serial,
        },
        rest,
    ))
}

#[tactic(auto, unfolding(crate::specs::Reading::came_read))]
fn read_came(cycle: u32, device: DevId, bytes: &[u8]) -> Result<(JournalRow, &[u8]), Form>
    ensures { GivesForm (λ x. (x.0, x.1.now)) result (came_read cycle device bytes.now) }
{
    let (traffic, serial, rest) = read_parcel(bytes)?;
    let rest = after_byte(rest, b'\n')?;
    Ok((
        JournalRow::Came {
            cycle,
            device,
            traffic,
            serial,
        },
        rest,
    ))
}
