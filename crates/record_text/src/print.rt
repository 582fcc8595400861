//! The text of a whole record.

ghost use Rattle.std.specs.Prelude.{◌≡◌, ◌≤◌, ◌++◌, IfOk, OnOk, length};
ghost use Rattle.irt_trace.specs.Journal.{journal_text, letter_of};
ghost use Rattle.record_text.specs.Text.{StandByCycle, cycle_text, cycles_text, end_text, lettered, record_text, run_of};

use crate::apps::put_apps;
use crate::cursor::end_of_cycle;
use crate::fields::{put_bytes, put_number};
use crate::part::Part;
use crate::record::{AppRecord, Record};
use cycle_rows::rows::JournalRow;
use irt_base::memory::NoMemory;
use irt_base::plants::Plant;
use irt_trace::print_journal;
use std::alloc::Global;

/// The text of a record of a plant, whose journal's rows stand by cycle: for each cycle what was taken of each app, the
/// journal's rows and what was published to each app; then all turns, app by app; last the numbers of cycles, of
/// occupations, of deliveries and of drops. Words are sixteen hexadecimal digits, times are true ns.
///
/// # Errors
/// `NoMemory` where memory runs out.
pub fn print_record(alloc: Global, plant: &Plant, log: &Record) -> Result<Vec<u8>, NoMemory>
    requires { StandByCycle log.now.journal }
    ensures { IfOk result (λ v. v.items ≡ record_text plant.now log.now.cycles (run_of log.now)) }
{
    let apps = log.apps.as_slice();
    let journal = log.journal.as_slice();
    let mut out = Vec::new(alloc);
    put_cycles(&mut out, alloc, plant, apps, journal, log.cycles)?;
    put_apps(&mut out, plant, Part::Turns, apps)?;
    put_end(&mut out, log.cycles, journal)?;
    Ok(out)
}

fn put_cycles(
    out: &mut Vec<u8>,
    alloc: Global,
    plant: &Plant,
    apps: &[AppRecord],
    journal: &[JournalRow],
    cycles: u32,
) -> Result<(), NoMemory>
    requires { StandByCycle journal.now }
    ensures { OnOk result (out.new.items ≡ out.old.items ++ cycles_text plant.now apps.now journal.now cycles) }
{
    let mut at = 0;
    for k in 0..cycles {
        let end = end_of_cycle(journal, at, k);
        put_cycle(out, alloc, plant, apps, k, &journal[at..end])?;
        at = end;
    }
    Ok(())
}

/// A cycle of which these are the journal's rows.
fn put_cycle(
    out: &mut Vec<u8>,
    alloc: Global,
    plant: &Plant,
    apps: &[AppRecord],
    k: u32,
    rows: &[JournalRow],
) -> Result<(), NoMemory>
    ensures { OnOk result (out.new.items ≡ out.old.items ++ cycle_text plant.now apps.now k rows.now) }
{
    put_apps(out, plant, Part::Takes(k), apps)?;
    put_rows(out, alloc, plant, rows)?;
    put_apps(out, plant, Part::Images(k), apps)
}

fn put_rows(
    out: &mut Vec<u8>,
    alloc: Global,
    plant: &Plant,
    rows: &[JournalRow],
) -> Result<(), NoMemory>
    ensures { OnOk result (out.new.items ≡ out.old.items ++ journal_text plant.now rows.now) }
{
    let text = print_journal(alloc, plant, rows)?;
    put_bytes(out, text.as_slice())
}

fn put_end(out: &mut Vec<u8>, cycles: u32, rows: &[JournalRow]) -> Result<(), NoMemory>
    ensures { OnOk result (out.new.items ≡ out.old.items ++ end_text cycles rows.now) }
{
    put_bytes(out, b"end")?;
    put_number(out, u64::from(cycles))?;
    put_number(out, lettered(b'o', rows))?;
    put_number(out, lettered(b'd', rows))?;
    put_number(out, lettered(b'x', rows))?;
    put_bytes(out, b"\n")
}

/// How many rows have a letter.
pub fn lettered(letter: u8, rows: &[JournalRow]) -> u64
    ensures { result ≡ lettered letter rows.now }
{
    rows.iter().filter(|row| letter_of(**row) == letter).count() as u64
}

fn letter_of(row: JournalRow) -> u8
    ensures { result ≡ letter_of row }
{
    match row {
        JournalRow::Occupy { .. } => b'o',
        JournalRow::Deliver { .. } => b'd',
        JournalRow::Missed { .. } => b'x',
        JournalRow::Sent { .. } => b't',
        JournalRow::Refused { .. } => b'q',
        JournalRow::Lost { .. } => b'l',
        JournalRow::Came { .. } => b'a',
    }
}
