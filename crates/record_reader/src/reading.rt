//! Reading the text of a record.

ghost use Rattle.std.specs.Prelude.{◌≡◌, ◌+◌, ◌-◌, ◌<◌, ◌≤◌, ◌^◌, ℕ, IfOk, IfErr, MatchResult, length};
ghost use Rattle.cycle_rows.specs.declared.rows.JournalRow.{JournalRow};
ghost use Rattle.irt_base.specs.declared.limits.TheConstants.{MAX_DEMANDS};
ghost use Rattle.iso_rules.specs.Lockstep.{RunRecord};
ghost use Rattle.plant_rules.specs.Meets.{MeetsRules};
ghost use Rattle.record_reader.specs.Ends.{EndsAt, GivesAt, GivesPlace};
ghost use Rattle.record_reader.specs.Reading.{line_read};
ghost use Rattle.record_reader.specs.Steps.{next};
ghost use Rattle.record_reader.specs.Whole.{IsRecordText, IsRefusal};
ghost use Rattle.record_text.specs.Text.{run_of};

use crate::draft::{empty_logs, push_line};
use crate::fault::{LineFault, RecordFault};
use crate::lines;
use crate::place::{self, Place, start_of};
use cycle_rows::rows::JournalRow;
use irt_base::list::Items;
use irt_base::plants::Plant;
use record_laws::line::Line;
use record_text::record::{AppRecord, Record};
use std::alloc::Global;

/// Reads the text of a plant's record: of 1 to 10000 cycles, with the plant's apps and its counts of words, and rows of
/// these cycles that name its devices and stand in order. The time is linear in the text, but for the counts of words.
///
/// # Errors
/// The first line up to which the text begins no record's text. Where there is no such line and the text is still no
/// record's, it is what follows the last line feed. `NoMemory` where memory runs out.
pub fn read_record(alloc: Global, plant: &Plant, text: &[u8]) -> Result<Record, RecordFault>
    requires rules { MeetsRules plant.now }
    requires short { length text.now < 2 ^ 32 - 1 }
    // What is read is a record of which this is the text.
    ensures found { IfOk result (λ r. IsRecordText plant.now text.now r.cycles (run_of r)) }
    // The text of a record is read as that record, unless memory runs out.
    ensures only { (cycles : ℕ) (r : RunRecord JournalRow) → IsRecordText plant.now text.now cycles r →
        MatchResult result (λ found. (found.cycles ≡ cycles) × (run_of found ≡ r)) (λ e. e ≡ RecordFault.NoMemory) }
    // A refusal names the first line at fault.
    ensures refused { IfErr result (IsRefusal plant.now text.now) }
{
    read_lines(alloc, plant, text)
}

/// Reads line by line.
fn read_lines(alloc: Global, plant: &Plant, text: &[u8]) -> Result<Record, RecordFault>
    requires rules { MeetsRules plant.now }
    requires short { length text.now < 2 ^ 32 - 1 }
    ensures found { IfOk result (λ r. IsRecordText plant.now text.now r.cycles (run_of r)) }
    ensures refused { IfErr result (IsRefusal plant.now text.now) }
{
    let mut logs = empty_logs(alloc, plant)?;
    let mut journal = Items::new(alloc);
    let mut at = start_of(plant);
    let mut rest = text;
    let mut line: u32 = 1;
    while !rest.is_empty() {
        let (said, after) = read_line(alloc, plant, rest, line)?;
        at = next(plant, journal.as_slice(), at, &said, line)?;
        push_line(&mut logs, &mut journal, plant, said)?;
        rest = after;
        line += 1;
    }
    ended(at, logs, journal, line)
}

/// The line of this number, that the bytes begin with, and the bytes after it.
fn read_line<'a>(
    alloc: Global,
    plant: &Plant,
    bytes: &'a [u8],
    line: u32,
) -> Result<(Line, &'a [u8]), RecordFault>
    requires devices { length plant.now.devices ≤ 256 }
    requires demands { length plant.now.demands ≤ MAX_DEMANDS }
    ensures { GivesAt (λ x. (x.0, x.1.now)) line result (line_read plant.now bytes.now) }
{
    match lines::read_line(alloc, plant, bytes) {
        Ok(read) => Ok(read),
        Err(LineFault::NoMemory) => Err(RecordFault::NoMemory),
        Err(LineFault::Form) => Err(RecordFault::Line(line)),
    }
}

/// The place after the line of this number.
fn next(
    plant: &Plant,
    rows: &[JournalRow],
    at: Place,
    said: &Line,
    line: u32,
) -> Result<Place, RecordFault>
    ensures { GivesPlace line result (next plant.now rows.now at said.now) }
{
    match place::next(plant, rows, at, said) {
        Some(after) => Ok(after),
        None => Err(RecordFault::Line(line)),
    }
}

/// The record, where all of it is read before the line of this number.
fn ended(
    at: Place,
    logs: Vec<AppRecord>,
    journal: Items<JournalRow>,
    line: u32,
) -> Result<Record, RecordFault>
    ensures { EndsAt at logs.items journal line result }
{
    match at {
        Place::Done { cycles } => Ok(Record {
            cycles,
            apps: Items::from_vec(logs),
            journal,
        }),
        _ => Err(RecordFault::Line(line)),
    }
}
