//! The lines of a journal.

ghost use Rattle.std.specs.Prelude.{◌≡◌, ◌++◌, codes, IfOk, OnOk};
ghost use Rattle.cycle_rows.specs.Rows.{cycle_of};
ghost use Rattle.irt_trace.specs.Journal.{device_of, end_of_line, field, frame_field, journal_text, letter_of, parcel_fields, queue_end, rest_of, row_line, time_field, times_end};

use crate::fields::{
    put_begin, put_bytes, put_frame, put_number, put_parcel, put_time, put_times_end,
};
use cycle_rows::rows::JournalRow;
use irt_base::memory::NoMemory;
use irt_base::numbers::{DevId, FrameId, Ns, PortNo};
use irt_base::plants::Plant;
use std::alloc::Global;

/// The text of a journal, a line for each row in the order in which they stand, each ended by a line feed. Times are
/// true ns, ports count from 1. A device that the plant does not have has no name.
///
/// # Errors
/// `NoMemory` where memory runs out.
pub fn print_journal(alloc: Global, plant: &Plant, rows: &[JournalRow]) -> Result<Vec<u8>, NoMemory>
    ensures { IfOk result (λ v. v.items ≡ journal_text plant.now rows.now) }
{
    let mut out = Vec::new(alloc);
    for row in rows {
        put_row(&mut out, plant, *row)?;
    }
    Ok(out)
}

fn put_row(out: &mut Vec<u8>, plant: &Plant, row: JournalRow) -> Result<(), NoMemory>
    ensures { OnOk result (out.new.items ≡ out.old.items ++ row_line plant.now row) }
{
    put_begin(out, plant, letter(row), cycle(row), device(row))?;
    put_rest(out, row)
}

fn letter(row: JournalRow) -> u8
    ensures { result ≡ letter_of row }
{
    match row {
        JournalRow::Occupy { .. } => b'o',
        JournalRow::Deliver { .. } => b'd',
        JournalRow::Missed { .. } => b'x',
        JournalRow::Sent { .. } => b't',
        JournalRow::Refused { .. } => b'q',
        JournalRow::Lost { .. } => b'l',
        JournalRow::Came { .. } => b'a',
    }
}

fn cycle(row: JournalRow) -> u32
    ensures { result ≡ cycle_of row }
{
    match row {
        JournalRow::Occupy { cycle, .. } => cycle,
        JournalRow::Deliver { cycle, .. } => cycle,
        JournalRow::Missed { cycle, .. } => cycle,
        JournalRow::Sent { cycle, .. } => cycle,
        JournalRow::Refused { cycle, .. } => cycle,
        JournalRow::Lost { cycle, .. } => cycle,
        JournalRow::Came { cycle, .. } => cycle,
    }
}

fn device(row: JournalRow) -> DevId
    ensures { result ≡ device_of row }
{
    match row {
        JournalRow::Occupy { device, .. } => device,
        JournalRow::Deliver { device, .. } => device,
        JournalRow::Missed { device, .. } => device,
        JournalRow::Sent { device, .. } => device,
        JournalRow::Refused { device, .. } => device,
        JournalRow::Lost { device, .. } => device,
        JournalRow::Came { device, .. } => device,
    }
}

/// What follows letter, cycle and device.
fn put_rest(out: &mut Vec<u8>, row: JournalRow) -> Result<(), NoMemory>
    ensures { OnOk result (out.new.items ≡ out.old.items ++ rest_of row) }
{
    match row {
        JournalRow::Occupy {
            port,
            frame,
            start,
            end,
            ..
        } => put_occupied(out, port, frame, start, end),
        JournalRow::Deliver { frame, end, .. } => put_delivered(out, frame, end),
        JournalRow::Missed { frame, .. } => put_missed(out, frame),
        JournalRow::Sent {
            port,
            traffic,
            serial,
            start,
            end,
            ..
        } => put_sent(out, port, traffic, serial, start, end),
        JournalRow::Refused {
            port,
            traffic,
            serial,
            ..
        } => put_queue_end(out, port, traffic, serial),
        JournalRow::Lost {
            port,
            traffic,
            serial,
            ..
        } => put_queue_end(out, port, traffic, serial),
        JournalRow::Came {
            traffic,
            serial,
            ..
        } => put_come(out, traffic, serial),
    }
}

fn put_occupied(
    out: &mut Vec<u8>,
    port: PortNo,
    frame: FrameId,
    start: Ns,
    end: Ns,
) -> Result<(), NoMemory>
    ensures { OnOk result (out.new.items ≡
        out.old.items ++ (field port.0 ++ frame_field frame.0 ++ times_end start end)) }
{
    put_number(out, u64::from(port.0))?;
    put_frame(out, frame)?;
    put_times_end(out, start, end)
}

fn put_delivered(out: &mut Vec<u8>, frame: FrameId, end: Ns) -> Result<(), NoMemory>
    ensures { OnOk result (out.new.items ≡ out.old.items ++ (frame_field frame.0 ++ time_field end ++ end_of_line)) }
{
    put_frame(out, frame)?;
    put_time(out, end)?;
    put_bytes(out, b"\n")
}

fn put_missed(out: &mut Vec<u8>, frame: FrameId) -> Result<(), NoMemory>
    ensures { OnOk result (out.new.items ≡ out.old.items ++ (frame_field frame.0 ++ codes " step\n")) }
{
    put_frame(out, frame)?;
    put_bytes(out, b" step\n")
}

fn put_sent(
    out: &mut Vec<u8>,
    port: PortNo,
    traffic: u16,
    serial: u32,
    start: Ns,
    end: Ns,
) -> Result<(), NoMemory>
    ensures { OnOk result (out.new.items ≡
        out.old.items ++ (field port.0 ++ parcel_fields traffic serial ++ times_end start end)) }
{
    put_number(out, u64::from(port.0))?;
    put_parcel(out, traffic, serial)?;
    put_times_end(out, start, end)
}

fn put_queue_end(out: &mut Vec<u8>, port: PortNo, traffic: u16, serial: u32) -> Result<(), NoMemory>
    ensures { OnOk result (out.new.items ≡ out.old.items ++ queue_end port.0 traffic serial) }
{
    put_number(out, u64::from(port.0))?;
    put_parcel(out, traffic, serial)?;
    put_bytes(out, b"\n")
}

fn put_come(out: &mut Vec<u8>, traffic: u16, serial: u32) -> Result<(), NoMemory>
    ensures { OnOk result (out.new.items ≡ out.old.items ++ (parcel_fields traffic serial ++ end_of_line)) }
{
    put_parcel(out, traffic, serial)?;
    put_bytes(out, b"\n")
}
