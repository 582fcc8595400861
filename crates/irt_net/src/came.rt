//! The frames that came in a cycle.

ghost use Rattle.std.specs.Prelude.{◌≡◌, ◌≤◌, ◌<◌, ◌++◌, drop, length, vec_capacity, vec_len};
ghost use Rattle.std.specs.Prelude.{option_to_list};
ghost use Rattle.irt_base.specs.declared.limits.TheConstants.{MAX_DEMANDS};
ghost use Rattle.irt_net.specs.Came.{came_in, came_of};

use cycle_frames::came::Came;
use cycle_rows::rows::JournalRow;
use net_site::site::Site;
use run_journal::journal::Journal;

/// Notes which frames came, by the deliveries among the journal's rows from a place on. It takes no memory.
pub fn note_came(came: &mut Vec<Came>, site: &Site, journal: &Journal, from: usize)
    requires few { length site.now.plant.demands ≤ MAX_DEMANDS }
    requires place { from ≤ length journal.now.rows }
    requires room { length (drop from journal.now.rows) ≤ vec_capacity came.old }
    ensures noted { came.new.items ≡ came_in site.now.plant (drop from journal.now.rows) }
    ensures capacity { vec_capacity came.new ≡ vec_capacity came.old }
{
    note_rows(came, site, &journal.as_slice()[from..]);
}

fn note_rows(came: &mut Vec<Came>, site: &Site, rows: &[JournalRow])
    requires few { length site.now.plant.demands ≤ MAX_DEMANDS }
    requires room { length rows.now ≤ vec_capacity came.old }
    ensures noted { came.new.items ≡ came_in site.now.plant rows.now }
    ensures capacity { vec_capacity came.new ≡ vec_capacity came.old }
{
    came.clear();
    for row in rows {
        push_came(came, came_of(site, *row));
    }
}

fn push_came(came: &mut Vec<Came>, one: Option<Came>)
    requires { vec_len came.old < vec_capacity came.old }
    ensures noted { came.new.items ≡ came.old.items ++ option_to_list one }
    ensures capacity { vec_capacity came.new ≡ vec_capacity came.old }
{
    if let Some(one) = one {
        came.push_reserved(one);
    }
}

/// What a row tells.
fn came_of(site: &Site, row: JournalRow) -> Option<Came>
    requires { length site.now.plant.demands ≤ MAX_DEMANDS }
    ensures { option_to_list result ≡ came_of site.now.plant row }
{
    match row {
        JournalRow::Deliver { device, frame, .. } => match site.demand_place(frame) {
            None => None,
            Some(place) => Some(Came {
                device,
                demand: place as u16,
            }),
        },
        _ => None,
    }
}
