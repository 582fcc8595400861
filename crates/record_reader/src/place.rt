//! Which line may follow which.

ghost use Rattle.std.specs.Prelude.{◌≡◌, ◌-◌, ◌^◌, ◌<◌, ◌==◌, ◌&&◌, ◌||◌, nat_lt, int_le, true, length};
ghost use Rattle.irt_base.specs.declared.limits.TheConstants.{MAX_CYCLES};
ghost use Rattle.record_reader.specs.declared.place.Place.TheVariants.{Rows, Turns};
ghost use Rattle.iso_rules.specs.Image.{app_on};
ghost use Rattle.record_reader.specs.Order.{follows, is_key_up_to, place_of, stands_up_to};
ghost use Rattle.record_reader.specs.Steps.{after_images, after_takes, are_counts, image_at, is_app, is_row_at, is_turn_at, next, row_at, start_of, take_at, turn_at};

use cycle_rows::rows::{JournalRow, RowKey};
use irt_base::limits::MAX_CYCLES;
use irt_base::numbers::DevId;
use irt_base::plants::Plant;
use record_laws::line::Line;
use record_text::{cycle_of, lettered};

/// What has been read of a record.
#[derive(Clone, Copy, PartialEq, Eq)]
pub(crate) enum Place {
    /// In a cycle the takes of the apps before this one.
    Takes {
        cycle: u32,
        app: usize,
    },
    /// All takes of a cycle, and some rows.
    Rows {
        cycle: u32,
    },
    /// All rows of a cycle, and the images of the apps before this one.
    Images {
        cycle: u32,
        app: usize,
    },
    /// So many cycles, and so many turns of an app, after all turns of the apps before it.
    Turns {
        cycles: u32,
        app: usize,
        number: u64,
    },
    /// The whole record.
    Done {
        cycles: u32,
    },
}

/// The place before the first line.
pub(crate) fn start_of(plant: &Plant) -> Place
    ensures { result ≡ start_of plant.now }
{
    after_takes(plant.apps.len(), 0, 0)
}

fn after_takes(apps: usize, cycle: u32, app: usize) -> Place
    ensures { result ≡ after_takes apps cycle app }
{
    if app == apps {
        Place::Rows { cycle }
    } else {
        Place::Takes { cycle, app }
    }
}

fn after_images(apps: usize, cycle: u32, app: usize) -> Place
    requires { cycle < MAX_CYCLES }
    ensures { result ≡ after_images apps cycle app }
{
    if app == apps {
        Place::Turns {
            cycles: cycle + 1,
            app: 0,
            number: 0,
        }
    } else {
        Place::Images { cycle, app }
    }
}

/// The place after one more line, where these are the rows before it.
pub(crate) fn next(plant: &Plant, rows: &[JournalRow], place: Place, line: &Line) -> Option<Place>
    ensures { result ≡ next plant.now rows.now place line.now }
{
    match place {
        Place::Takes { cycle, app } => match line {
            Line::Take {
                cycle: at,
                device,
                ..
            } => take_at(plant, cycle, app, *at, *device),
            _ => None,
        },
        Place::Rows { cycle } => after_rows(plant, rows, cycle, line),
        Place::Images { cycle, app } => match line {
            Line::Image {
                cycle: at,
                device,
                ..
            } => image_at(plant, cycle, app, *at, *device),
            _ => None,
        },
        Place::Turns {
            cycles,
            app,
            number,
        } => after_turns(plant, rows, cycles, app, number, line),
        Place::Done { .. } => None,
    }
}

fn after_rows(plant: &Plant, rows: &[JournalRow], cycle: u32, line: &Line) -> Option<Place>
    ensures { result ≡ next plant.now rows.now (Rows cycle) line.now }
{
    match line {
        Line::Row(row) => row_at(plant, rows, cycle, *row),
        Line::Image {
            cycle: at,
            device,
            ..
        } => image_at(plant, cycle, 0, *at, *device),
        Line::Last {
            cycles,
            occupied,
            delivered,
            dropped,
        } => {
            let is_right = plant.apps.len() == 0
                && cycle < *cycles
                && *cycles <= MAX_CYCLES
                && are_counts(rows, *occupied, *delivered, *dropped);
            is_right.then_some(Place::Done { cycles: *cycles })
        }
        _ => None,
    }
}

fn after_turns(
    plant: &Plant,
    rows: &[JournalRow],
    cycles: u32,
    app: usize,
    number: u64,
    line: &Line,
) -> Option<Place>
    ensures { result ≡ next plant.now rows.now (Turns cycles app number) line.now }
{
    match line {
        Line::Take {
            cycle: at,
            device,
            ..
        } => {
            if app == 0 && number == 0 && cycles < MAX_CYCLES {
                take_at(plant, cycles, 0, *at, *device)
            } else {
                None
            }
        }
        Line::Turn {
            device,
            number: turn,
            ..
        } => turn_at(plant, cycles, app, number, *device, *turn),
        Line::Last {
            cycles: last,
            occupied,
            delivered,
            dropped,
        } => {
            let is_right = *last == cycles && are_counts(rows, *occupied, *delivered, *dropped);
            is_right.then_some(Place::Done { cycles: *last })
        }
        _ => None,
    }
}

/// The app of this number is that of a device.
fn is_app(plant: &Plant, app: usize, device: DevId) -> bool
    ensures value { result ≡ is_app plant.now app device }
    ensures within { result ≡ true → app < length plant.now.apps }
{
    match plant.apps.get(app) {
        Some(found) => found.device.0 == device.0,
        None => false,
    }
}

fn take_at(plant: &Plant, cycle: u32, app: usize, at: u32, device: DevId) -> Option<Place>
    ensures { result ≡ take_at plant.now cycle app at device }
{
    let apps = plant.apps.len();
    if at == cycle && is_app(plant, app, device) {
        Some(after_takes(apps, cycle, app + 1))
    } else {
        None
    }
}

fn image_at(plant: &Plant, cycle: u32, app: usize, at: u32, device: DevId) -> Option<Place>
    ensures { result ≡ image_at plant.now cycle app at device }
{
    let apps = plant.apps.len();
    if cycle < MAX_CYCLES && at == cycle && is_app(plant, app, device) {
        Some(after_images(apps, cycle, app + 1))
    } else {
        None
    }
}

fn row_at(plant: &Plant, rows: &[JournalRow], cycle: u32, row: JournalRow) -> Option<Place>
    ensures { result ≡ row_at plant.now rows.now cycle row }
{
    let at = cycle_of(row);
    if is_row_at(plant, cycle, at) && follows(rows, row) {
        Some(Place::Rows { cycle: at })
    } else {
        None
    }
}

fn is_row_at(plant: &Plant, cycle: u32, at: u32) -> bool
    ensures { result ≡ is_row_at plant.now cycle at }
{
    at < MAX_CYCLES && (plant.apps.len() == 0 || at == cycle)
}

fn turn_at(
    plant: &Plant,
    cycles: u32,
    app: usize,
    number: u64,
    device: DevId,
    turn: u64,
) -> Option<Place>
    ensures { result ≡ turn_at plant.now cycles app number device turn }
{
    let found = app_on(plant, device)?;
    if is_turn_at(app, number, found, turn) {
        Some(Place::Turns {
            cycles,
            app: found,
            number: turn + 1,
        })
    } else {
        None
    }
}

/// The number of the app on a device.
pub(crate) fn app_on(plant: &Plant, device: DevId) -> Option<usize>
    ensures { result ≡ app_on plant.now device.0 }
{
    plant
        .apps
        .as_slice()
        .iter()
        .position(|app| app.device.0 == device.0)
}

/// The next turn of the app, or the first one of a later app.
fn is_turn_at(app: usize, number: u64, found: usize, turn: u64) -> bool
    ensures value { result ≡ is_turn_at app number found turn }
    ensures more { result ≡ true → turn < 2 ^ 64 - 1 }
{
    turn < u64::MAX && ((found == app && turn == number) || (app < found && turn == 0))
}

fn are_counts(rows: &[JournalRow], occupied: u64, delivered: u64, dropped: u64) -> bool
    ensures { result ≡ are_counts rows.now occupied delivered dropped }
{
    lettered(b'o', rows) == occupied
        && lettered(b'd', rows) == delivered
        && lettered(b'x', rows) == dropped
}

/// Whether the last row stands up to another one.
fn follows(rows: &[JournalRow], row: JournalRow) -> bool
    ensures { result ≡ follows rows.now row }
{
    match rows.last() {
        Some(last) => stands_up_to(*last, row),
        None => true,
    }
}

fn stands_up_to(row: JournalRow, other: JournalRow) -> bool
    ensures { result ≡ stands_up_to row other }
{
    let cycle = cycle_of(row);
    let later = cycle_of(other);
    cycle < later || (cycle == later && is_key_up_to(place_of(row), place_of(other)))
}

/// Where a row stands in its cycle, as far as its text shows it.
fn place_of(row: JournalRow) -> RowKey
    ensures { result ≡ place_of row }
{
    match row {
        JournalRow::Lost { device, port, .. } => RowKey {
            kind: 5,
            device: device.0,
            port: port.0,
            at: 0,
        },
        _ => row.key(),
    }
}

fn is_key_up_to(a: RowKey, b: RowKey) -> bool
    ensures { result ≡ is_key_up_to a b }
{
    a.kind < b.kind || (a.kind == b.kind && is_device_up_to(a, b))
}

fn is_device_up_to(a: RowKey, b: RowKey) -> bool
    ensures { result ≡ (nat_lt a.device b.device || ((a.device == b.device)
        && (nat_lt a.port b.port || ((a.port == b.port) && int_le a.at b.at)))) }
{
    a.device < b.device
        || (a.device == b.device && (a.port < b.port || (a.port == b.port && a.at <= b.at)))
}
