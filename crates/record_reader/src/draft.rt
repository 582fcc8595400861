//! A record as far as its text is read.

ghost use Rattle.std.specs.Prelude.{◌≡◌, ◌++◌, [], length, OnOk, IfOk};
ghost use Rattle.record_laws.specs.Lines.{rows_in};
ghost use Rattle.record_reader.specs.Grow.{logs_in, with_line, with_log};
ghost use Rattle.record_text.specs.Grown.{with_image, with_take, with_turn};

use crate::place::app_on;
use cycle_rows::rows::JournalRow;
use irt_base::list::Items;
use irt_base::memory::NoMemory;
use irt_base::numbers::DevId;
use irt_base::plants::Plant;
use iso_rules::turn::Turn;
use record_laws::line::Line;
use record_text::record::{AppRecord, Take};
use std::alloc::Global;

fn empty_log(alloc: Global) -> AppRecord
    ensures { result ≡ record { takes = []; images = []; turns = [] } }
{
    AppRecord::new(Items::new(alloc), Items::new(alloc), Items::new(alloc))
}

/// What a record without a line has of the plant's apps.
pub(crate) fn empty_logs(alloc: Global, plant: &Plant) -> Result<Vec<AppRecord>, NoMemory>
    ensures { IfOk result (λ logs. logs.items ≡ logs_in plant.now []) }
{
    let mut logs = Vec::new(alloc);
    for _ in plant.apps.as_slice() {
        logs.push(empty_log(alloc))?;
    }
    Ok(logs)
}

fn push_take(
    logs: &mut Vec<AppRecord>,
    plant: &Plant,
    device: DevId,
    take: Take,
) -> Result<(), NoMemory>
    requires { length logs.old.items ≡ length plant.now.apps }
    ensures { OnOk result (logs.new.items ≡
        with_log plant.now.apps device.0 (λ log. with_take log take) logs.old.items) }
{
    match app_on(plant, device) {
        Some(app) => logs[app].push_take(take),
        None => Ok(()),
    }
}

fn push_image(
    logs: &mut Vec<AppRecord>,
    plant: &Plant,
    device: DevId,
    words: Items<u64>,
) -> Result<(), NoMemory>
    requires { length logs.old.items ≡ length plant.now.apps }
    ensures { OnOk result (logs.new.items ≡
        with_log plant.now.apps device.0 (λ log. with_image log words) logs.old.items) }
{
    match app_on(plant, device) {
        Some(app) => logs[app].push_image(words),
        None => Ok(()),
    }
}

fn push_turn(
    logs: &mut Vec<AppRecord>,
    plant: &Plant,
    device: DevId,
    turn: Turn,
) -> Result<(), NoMemory>
    requires { length logs.old.items ≡ length plant.now.apps }
    ensures { OnOk result (logs.new.items ≡
        with_log plant.now.apps device.0 (λ log. with_turn log turn) logs.old.items) }
{
    match app_on(plant, device) {
        Some(app) => logs[app].push_turn(turn),
        None => Ok(()),
    }
}

/// One line more.
pub(crate) fn push_line(
    logs: &mut Vec<AppRecord>,
    journal: &mut Items<JournalRow>,
    plant: &Plant,
    line: Line,
) -> Result<(), NoMemory>
    requires { length logs.old.items ≡ length plant.now.apps }
    ensures logs { OnOk result (logs.new.items ≡ with_line plant.now logs.old.items line) }
    ensures rows { OnOk result (journal.new ≡ journal.old ++ rows_in line) }
{
    match line {
        Line::Take { device, take, .. } => push_take(logs, plant, device, take),
        Line::Row(row) => journal.push(row),
        Line::Image { device, words, .. } => push_image(logs, plant, device, words),
        Line::Turn { device, turn, .. } => push_turn(logs, plant, device, turn),
        Line::Last { .. } => Ok(()),
    }
}
