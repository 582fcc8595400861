//! Whether the entries of each frame form a tree, and the way of each entry where they do.

ghost use Rattle.std.specs.Prelude.{◌≡◌, ◌≢◌, ℕ, ◌<◌, Some, None, Err, IfOk, length, map, slice_index_or};
ghost use Rattle.plan_rules.specs.Plan.{IsPlan, setup_of};
ghost use Rattle.irt_window.specs.declared.windows.WindowFault.TheVariants.{NotATree};
ghost use Rattle.plan_rules.specs.Tree.{AreTrees};
ghost use Rattle.irt_window.specs.Plans.{IsNet, setup_in};
ghost use Rattle.irt_window.specs.Marks.{AreMarks, AreStuck};
ghost use Rattle.irt_window.specs.Trees.{IsTreeAnswer, AreWindows, AreFound, AreRowsOf};

use crate::demands::demand_numbers;
use crate::marking::mark_all;
use crate::marks::{Marks, no_marks};
use crate::net::Net;
use crate::rules::first_break;
use crate::windows::{Trees, WindowFault, Windows};
use irt_base::blocks::{Bundle, Entry};
use irt_base::list::Items;
use irt_base::memory::NoMemory;
use irt_base::plants::Plant;
use link_index::index::LinkIndex;
use plan_rules::way::Way;
use std::alloc::Global;

/// Decides rule V2 of a plan, and finds the ways of its entries where it holds.
pub fn trees(alloc: Global, net: &Net<'_>) -> Result<Trees, NoMemory>
    requires { IsNet net.now }
    ensures { IfOk result (λ answer. IsTreeAnswer net.now.plant.now net.now.bundles.now answer) }
{
    let mut marks = no_marks(alloc, net.bundles)?;
    mark_all(net, &mut marks);
    match first_break(net, &marks) {
        Some(place) => Ok(Trees::Broken(place)),
        None => Ok(Trees::Whole(windows_of(alloc, net, &marks)?)),
    }
}

/// The ways of a plan. `NotATree` comes exactly where rule V2 fails.
pub fn windows(alloc: Global, plant: &Plant, bundles: &[Bundle]) -> Result<Windows, WindowFault>
    requires { IsPlan plant.now bundles.now }
    ensures ok { IfOk result (λ windows. AreTrees (setup_of plant.now bundles.now) × AreWindows plant.now bundles.now windows) }
    ensures err { result ≡ Err NotATree → ¬ AreTrees (setup_of plant.now bundles.now) }
{
    let links = LinkIndex::new(alloc, plant)?;
    let numbers = demand_numbers(alloc, plant)?;
    match trees(alloc, &Net::new(plant, bundles, &links, &numbers))? {
        Trees::Whole(windows) => Ok(windows),
        Trees::Broken(_) => Err(WindowFault::NotATree),
    }
}

/// The ways of all entries, where they form trees.
fn windows_of(alloc: Global, net: &Net<'_>, marks: &Marks) -> Result<Windows, NoMemory>
    requires net { IsNet net.now }
    requires marks { AreMarks net.now marks.now }
    requires all { AreStuck net.now marks.now }
    requires trees { AreTrees (setup_in net.now) }
    ensures { IfOk result (λ windows. AreWindows net.now.plant.now net.now.bundles.now windows) }
{
    let entries = entries_of(alloc, net.bundles)?;
    let ways = all_ways(alloc, marks.rows.as_slice())?;
    Ok(Windows { entries, ways })
}

/// The entries of all devices.
fn entries_of(alloc: Global, bundles: &[Bundle]) -> Result<Items<Items<Entry>>, NoMemory>
    ensures { IfOk result (λ rows. rows ≡ map (λ b. b.frames.entries) bundles.now) }
{
    let mut rows = Items::new(alloc);
    for bundle in bundles {
        rows.push(bundle.frames.entries.try_copy(alloc)?)?;
    }
    Ok(rows)
}

/// All ways, where each entry has one.
fn all_ways(alloc: Global, rows: &[Items<Option<Way>>]) -> Result<Items<Items<Way>>, NoMemory>
    requires { AreFound rows.now }
    ensures { IfOk result (λ ways. AreRowsOf rows.now ways) }
{
    let mut ways = Items::new(alloc);
    for row in rows {
        ways.push(row_ways(alloc, row.as_slice())?)?;
    }
    Ok(ways)
}

/// The ways of a device, where each entry has one.
fn row_ways(alloc: Global, row: &[Option<Way>]) -> Result<Items<Way>, NoMemory>
    requires { (n : ℕ) → n < length row.now → slice_index_or row.now n None ≢ None }
    ensures { IfOk result (λ ways. map (λ way. Some way) ways ≡ row.now) }
{
    let mut ways = Items::new(alloc);
    for way in row {
        match way {
            None => unreachable!(),
            Some(way) => ways.push(*way)?,
        }
    }
    Ok(ways)
}
