//! Ways of entries, found one by one.

ghost use Rattle.std.specs.Prelude.{◌≡◌, ◌+◌, ◌<◌, ◌≤◌, Some, IfOk, [], None, length, replicate, slice_index_or, slice_set};
ghost use Rattle.irt_window.specs.Plans.{AreFew};
ghost use Rattle.irt_window.specs.Marks.{way_in, AreNoMarks};

use irt_base::blocks::Bundle;
use irt_base::list::Items;
use irt_base::memory::NoMemory;
use irt_base::numbers::DevId;
use plan_rules::way::Way;
use std::alloc::Global;

/// The ways of the entries that are found so far, by device and place in its block.
#[derive(Drop)]
pub struct Marks {
    pub rows: Vec<Items<Option<Way>>>,
    /// How many entries have none yet.
    pub left: usize,
}

/// The way of an entry, where it is found.
pub fn way_at(marks: &Marks, device: DevId, place: usize) -> Option<Way>
    ensures { result ≡ way_in marks.now.rows.items device.0 place }
{
    match marks.rows.get(usize::from(device.0)) {
        None => None,
        Some(row) => place_of(row, place),
    }
}

fn place_of(row: &Items<Option<Way>>, place: usize) -> Option<Way>
    ensures { result ≡ slice_index_or row.now place None }
{
    match row.get(place) {
        None => None,
        Some(way) => *way,
    }
}

/// Writes the way of an entry that had none.
pub fn set_way(marks: &mut Marks, device: DevId, place: usize, way: Way)
    requires there { device.0 < length marks.old.rows.items }
    requires placed { place < length (slice_index_or marks.old.rows.items device.0 []) }
    requires some_left { 1 ≤ marks.old.left }
    ensures rows { marks.new.rows.items ≡ slice_set marks.old.rows.items device.0
        (slice_set (slice_index_or marks.old.rows.items device.0 []) place (Some way)) }
    ensures left { marks.new.left + 1 ≡ marks.old.left }
{
    let row = &mut marks.rows[usize::from(device.0)];
    row.set(place, Some(way));
    marks.left -= 1;
}

/// The table of a plan, in which no entry has a way.
pub fn no_marks(alloc: Global, bundles: &[Bundle]) -> Result<Marks, NoMemory>
    requires { AreFew bundles.now }
    ensures { IfOk result (λ marks. AreNoMarks bundles.now marks) }
{
    let mut rows = Vec::new(alloc);
    let mut left = 0;
    for bundle in bundles {
        let count = bundle.frames.entries.len();
        rows.push(no_row(alloc, count)?)?;
        left += count;
    }
    Ok(Marks { rows, left })
}

/// A row in which no entry has a way.
fn no_row(alloc: Global, count: usize) -> Result<Items<Option<Way>>, NoMemory>
    ensures { IfOk result (λ row. row ≡ replicate count None) }
{
    Ok(Items::from_vec(vec![in alloc; None; count]?))
}
