//! Where the rows of a cycle end.

ghost use Rattle.std.specs.Prelude.{◌≡◌, ◌≤◌, ◌+◌};
ghost use Rattle.cycle_rows.specs.Rows.{cycle_of};
ghost use Rattle.record_text.specs.Cursor.{IsCursor, is_row_of};
ghost use Rattle.record_text.specs.Text.{StandByCycle};

use cycle_rows::rows::JournalRow;

/// The place behind the rows of cycle `k`, which begin at a place.
pub fn end_of_cycle(rows: &[JournalRow], from: usize, k: u32) -> usize
    requires order { StandByCycle rows.now }
    requires begin { IsCursor rows.now k from }
    ensures later { from ≤ result }
    ensures end { IsCursor rows.now (k + 1) result }
{
    let mut at = from;
    while is_row_of(rows, at, k) {
        at += 1;
    }
    at
}

fn is_row_of(rows: &[JournalRow], at: usize, k: u32) -> bool
    ensures { result ≡ is_row_of rows.now at k }
{
    match rows.get(at) {
        Some(row) => cycle_of(*row) == k,
        None => false,
    }
}

/// The cycle of a row.
pub fn cycle_of(row: JournalRow) -> u32
    ensures { result ≡ cycle_of row }
{
    match row {
        JournalRow::Occupy { cycle, .. } => cycle,
        JournalRow::Deliver { cycle, .. } => cycle,
        JournalRow::Missed { cycle, .. } => cycle,
        JournalRow::Sent { cycle, .. } => cycle,
        JournalRow::Refused { cycle, .. } => cycle,
        JournalRow::Lost { cycle, .. } => cycle,
        JournalRow::Came { cycle, .. } => cycle,
    }
}
