//! A record's numbers are of the types that hold them.
//!
//! A number behind a reference is known to be in its range where a body reads it. So these functions go over all numbers
//! of a record, and do nothing else.

ghost use Rattle.std.specs.Prelude.{◌^◌, ◌<◌, length};
ghost use Rattle.std.specs.List.{AllByRecursion};
ghost use Rattle.record_laws.specs.Fitting.{AreWords, HasRange, IsTake, IsTurn};
ghost use Rattle.record_numbers.specs.Numbers.{HasLogNumbers, HasNumbers};

use cycle_rows::rows::JournalRow;
use irt_base::list::Items;
use iso_rules::turn::Turn;
use record_text::record::{AppRecord, Record, Take};

/// The numbers of a record are of the types that hold them.
pub fn numbers_are_in_range(log: &Record)
    ensures { HasNumbers log.now }
{
    let _cycles = log.cycles;
    logs_are_in_range(log.apps.as_slice());
    rows_are_in_range(log.journal.as_slice());
}

// ---- apps

fn logs_are_in_range(logs: &[AppRecord])
    ensures { AllByRecursion HasLogNumbers logs.now }
{
    for log in logs {
        log_is_in_range(log);
    }
}

fn log_is_in_range(log: &AppRecord)
    ensures { HasLogNumbers log.now }
{
    takes_are_in_range(log.takes());
    images_are_in_range(log.images());
    turns_are_in_range(log.turns());
}

fn takes_are_in_range(takes: &[Take])
    ensures { AllByRecursion IsTake takes.now }
{
    for take in takes {
        take_is_in_range(take);
    }
}

fn take_is_in_range(take: &Take)
    ensures { IsTake take.now }
{
    let _number = take.taken().number;
    words_are_in_range(take.words());
}

fn images_are_in_range(images: &[Items<u64>])
    ensures { AllByRecursion AreWords images.now }
{
    for image in images {
        words_are_in_range(image.as_slice());
    }
}

fn turns_are_in_range(turns: &[Turn])
    ensures turn_count { length turns.now < 2 ^ 64 }
    ensures turns { AllByRecursion IsTurn turns.now }
{
    let _count = turns.len();
    for turn in turns {
        turn_is_in_range(turn);
    }
}

fn turn_is_in_range(turn: &Turn)
    ensures { IsTurn turn.now }
{
    let _found = turn.found;
    let _number = turn.taken.number;
    words_are_in_range(turn.input.as_slice());
    words_are_in_range(turn.output.as_slice());
}

fn words_are_in_range(words: &[u64])
    ensures { AreWords words.now }
{}

// ---- rows

fn rows_are_in_range(rows: &[JournalRow])
    ensures row_count { length rows.now < 2 ^ 64 }
    ensures rows { AllByRecursion HasRange rows.now }
{
    let _count = rows.len();
    for row in rows {
        row_is_in_range(*row);
    }
}

fn row_is_in_range(row: JournalRow)
    ensures { HasRange row }
{}
