//! The rows of a cycle's parcels.

ghost use Rattle.std.specs.Prelude.{◌≡◌, ◌+◌, ◌≤◌, ◌++◌, List, length, flat_map, map, All};
ghost use Rattle.irt_base.specs.declared.plants.Plant.{Plant};
ghost use Rattle.irt_world.specs.Rows.{IsError};
ghost use Rattle.irt_world.specs.declared.rows.Row.{Row};
ghost use Rattle.net_begin.specs.Clocks.{begin_of};
ghost use Rattle.net_starts.specs.Released.{IsSmallTime};
ghost use Rattle.parcel_rules.specs.Rows.{sent_row, lost_row};
ghost use Rattle.net_parcels.specs.Outlets.{parcel_world, sent_rows_of, lost_rows_of, all_rows_of};

use crate::notes::Notes;
use crate::outlets::Outlet;
use cycle_rows::rows::JournalRow;
use irt_base::numbers::{DevId, Ns, PortNo};
use irt_base::plants::Plant;
use irt_world::rows::Row;
use net_begin::clocks::begin_event;
use net_site::site::Site;
use parcel_loads::rows::{lost_row, sent_row};
use period_gate::parcels::Sent;
use run_journal::journal::Journal;

/// Appends the rows of cycle `k`: those of parcels sent, then of those refused, lost and come. It takes no memory.
pub fn append_rows(
    site: &Site,
    row: &Row,
    k: u32,
    outlets: &[Outlet],
    notes: &Notes,
    journal: &mut Journal,
)
    requires errors { All IsError row.now.errors }
    requires room { length (all_rows_of site.now.plant (parcel_world row.now) k
        outlets.now notes.now) ≤ journal.old.room }
    ensures rows { journal.new.rows ≡ journal.old.rows ++
        all_rows_of site.now.plant (parcel_world row.now) k outlets.now notes.now }
    ensures room { journal.new.room + length (all_rows_of site.now.plant
        (parcel_world row.now) k outlets.now notes.now) ≡ journal.old.room }
{
    append_sent(site.plant(), row, k, outlets, journal);
    append(notes.refused(), journal);
    append_lost(site, row, k, outlets, journal);
    append(notes.came(), journal);
}

/// Appends rows. It takes no memory.
fn append(rows: &[JournalRow], journal: &mut Journal)
    requires { length rows.now ≤ journal.old.room }
    ensures rows { journal.new.rows ≡ journal.old.rows ++ rows.now }
    ensures room { journal.new.room + length rows.now ≡ journal.old.room }
{
    for row in rows {
        journal.push(*row);
    }
}

/// Appends the rows of parcels sent, by port and start. It takes no memory.
fn append_sent(plant: &Plant, row: &Row, k: u32, outlets: &[Outlet], journal: &mut Journal)
    requires errors { All IsError row.now.errors }
    requires room { length (flat_map (sent_rows_of plant.now
        (parcel_world row.now) k) outlets.now) ≤ journal.old.room }
    ensures rows { journal.new.rows ≡ journal.old.rows ++
        flat_map (sent_rows_of plant.now (parcel_world row.now) k) outlets.now }
    ensures room { journal.new.room + length (flat_map (sent_rows_of plant.now
        (parcel_world row.now) k) outlets.now) ≡ journal.old.room }
{
    for outlet in outlets {
        append_sent_by(plant, row, k, outlet, journal);
    }
}

/// Appends the rows of what a port has sent, in its order. It takes no memory.
fn append_sent_by(plant: &Plant, row: &Row, k: u32, outlet: &Outlet, journal: &mut Journal)
    requires errors { All IsError row.now.errors }
    requires room { length outlet.now.sent ≤ journal.old.room }
    ensures rows { journal.new.rows ≡ journal.old.rows ++
        sent_rows_of plant.now (parcel_world row.now) k outlet.now }
    ensures room { journal.new.room + length outlet.now.sent ≡ journal.old.room }
{
    let begin = begin_event(plant, row, k, outlet.at.0).at;
    for one in outlet.sent.as_slice() {
        journal.push(row_of_sent(k, outlet.at, *one, begin));
    }
}

/// The row of a parcel that a port has sent in cycle `k`, by the begin of its device's cycle.
fn row_of_sent(k: u32, at: (DevId, PortNo), one: Sent, begin: Ns) -> JournalRow
    requires { IsSmallTime 60 begin }
    ensures { (plant : Plant) (row : Row) → begin ≡ begin_of plant row k at.0.0 →
        result ≡ sent_row plant (parcel_world row) k at one }
{
    sent_row(k, at, one, begin)
}

/// Appends the rows of parcels that were sent onto cut links, by port and start. It takes no memory.
fn append_lost(site: &Site, row: &Row, k: u32, outlets: &[Outlet], journal: &mut Journal)
    requires room { length (flat_map (lost_rows_of site.now.plant (parcel_world row.now) k) outlets.now)
        ≤ journal.old.room }
    ensures rows { journal.new.rows ≡ journal.old.rows ++
        flat_map (lost_rows_of site.now.plant (parcel_world row.now) k) outlets.now }
    ensures room { journal.new.room + length (flat_map (lost_rows_of site.now.plant (parcel_world row.now) k)
        outlets.now) ≡ journal.old.room }
{
    for outlet in outlets {
        append_lost_by(site, row, k, outlet, journal);
    }
}

/// Appends the rows of what a port has sent, where its link is cut. It takes no memory.
fn append_lost_by(site: &Site, row: &Row, k: u32, outlet: &Outlet, journal: &mut Journal)
    requires { length (lost_rows_of site.now.plant (parcel_world row.now) k outlet.now) ≤ journal.old.room }
    ensures rows { journal.new.rows ≡ journal.old.rows ++
        lost_rows_of site.now.plant (parcel_world row.now) k outlet.now }
    ensures room { journal.new.room + length (lost_rows_of site.now.plant (parcel_world row.now) k outlet.now)
        ≡ journal.old.room }
{
    if !site.is_uncut(row, outlet.at.0, outlet.at.1) {
        append_all_lost(k, outlet, journal);
    }
}

/// Appends the rows of what a port has sent, all of which is lost. It takes no memory.
fn append_all_lost(k: u32, outlet: &Outlet, journal: &mut Journal)
    requires { length outlet.now.sent ≤ journal.old.room }
    ensures rows { journal.new.rows ≡ journal.old.rows ++ map (lost_row k outlet.now.at) outlet.now.sent }
    ensures room { journal.new.room + length outlet.now.sent ≡ journal.old.room }
{
    for one in outlet.sent.as_slice() {
        journal.push(lost_row(k, outlet.at, *one));
    }
}
