//! The walks of parcels, and how many parcels and rows there can be.

ghost use Rattle.std.specs.Prelude.{◌≡◌, ◌+◌, ◌≤◌, ◌*◌, length, IfOk, IfSome};
ghost use Rattle.irt_base.specs.declared.limits.TheConstants.{MAX_TRAFFIC};
ghost use Rattle.irt_route.specs.Routes.{IsRoutesOf};
ghost use Rattle.net_parcels.specs.Loads.{AreStepsOf};
ghost use Rattle.net_parcels.specs.Parcels.{made_at_most, rows_by_steps};

use irt_base::list::Items;
use irt_base::memory::NoMemory;
use irt_base::numbers::{DevId, PortNo};
use irt_base::plants::{Plant, Traffic};
use irt_route::tables::Routes;
use net_site::site::Site;
use parcel_loads::steps::steps;
use std::alloc::Global;

/// The steps of each traffic entry's walk.
///
/// # Errors
/// `NoMemory` where memory runs out.
pub fn walk_steps(
    alloc: Global,
    site: &Site,
    routes: &Routes,
) -> Result<Vec<Items<(DevId, PortNo)>>, NoMemory>
    requires { IsRoutesOf site.now.plant routes.now }
    ensures { IfOk result (λ steps. AreStepsOf site.now.plant routes.now.walks steps.items) }
{
    let entries = site.plant().traffic.as_slice();
    let mut all = Vec::with_capacity(alloc, entries.len())?;
    for number in 0..entries.len() {
        let walk = routes.walk(number as u16);
        all.push(steps(alloc, site.links(), entries[number].source, walk)?)?;
    }
    Ok(all)
}

/// The parcels that all entries together make in a cycle.
pub fn made_at_most(plant: &Plant) -> usize
    requires { length plant.now.traffic ≤ MAX_TRAFFIC }
    ensures value { result ≡ made_at_most plant.now }
    ensures small { result ≤ MAX_TRAFFIC * 255 }
{
    let mut most = 0;
    for t in plant.traffic.as_slice() {
        most += usize::from(t.count);
    }
    most
}

/// The most rows of a journal that what entries make in a cycle may ever get. `None` comes where they are too many for
/// any memory.
pub fn rows_by_steps(entries: &[Traffic], steps: &[Items<(DevId, PortNo)>]) -> Option<usize>
    requires { length steps.now ≡ length entries.now }
    ensures { IfSome result (λ rows. rows ≡ rows_by_steps entries.now steps.now) }
{
    let mut rows = 0usize;
    for number in 0..entries.len() {
        let (entry, walk) = (&entries[number], &steps[number]);
        rows = more_rows(rows, walk.len(), entry.count)?;
    }
    Some(rows)
}

/// So many rows, and those of so many parcels over a walk.
fn more_rows(rows: usize, links: usize, count: u8) -> Option<usize>
    ensures { IfSome result (λ more. more ≡ rows + count * (links + 1)) }
{
    let each = links.checked_add(1)?;
    usize::from(count).checked_mul(each)?.checked_add(rows)
}
