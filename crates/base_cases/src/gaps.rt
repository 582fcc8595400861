ghost use Rattle.std.specs.Prelude.{◌≡◌, ◌<◌, ◌≤◌};
ghost use Rattle.gap_table.specs.Slots.{IsSlot};

use gap_table::slot::{MAX_END, Slot};
use gap_table::table::GapTable;
use irt_base::memory::NoMemory;
use irt_base::numbers::DevId;
use std::alloc::Global;
use std::test::Fail;

// Begin, end and anchor of a candidate, and when the direction is free behind what blocks it. The slots of frames of 40
// bytes, which take 6720 ns, stand at 20000 with anchor 2, and at 0 and 6720 with anchor 1.
const CANDIDATES: [(u32, u32, u8, Option<u32>); 10] = [
    // One anchor: slots may touch, and not by one ns more.
    (13440, 18000, 1, None),
    (13439, 18000, 1, Some(13440)),
    (13440, 18001, 1, Some(28720)),
    // Another anchor keeps the guard on both sides.
    (13440, 13500, 2, Some(15440)),
    (15440, 20000, 2, None),
    (15440, 20001, 2, Some(26720)),
    (28719, 30000, 3, Some(28720)),
    (28720, 30000, 3, None),
    // Inside a slot, and round one.
    (21000, 21001, 2, Some(26720)),
    (15440, 40000, 2, Some(26720)),
];

fn slot(lo: u32, end: u32, anchor: u8) -> Slot
    requires proper { lo < end }
    requires bounded { end ≤ MAX_END }
    ensures { IsSlot result }
{
    Slot {
        lo,
        end,
        anchor: DevId(anchor),
    }
}

fn put(table: &mut GapTable, slot: Slot) -> Result<(), NoMemory>
    requires { IsSlot slot }
{
    if let None = table.blocker(0, &slot) {
        table.insert(slot)?;
    }
    Ok(())
}

fn three_slots(alloc: Global) -> Result<GapTable, NoMemory> {
    let mut table = GapTable::new(alloc);
    put(&mut table, slot(20000, 26720, 2))?;
    put(&mut table, slot(0, 6720, 1))?;
    put(&mut table, slot(6720, 13440, 1))?;
    Ok(table)
}

// The guard is 2000 ns.
fn free_behind(table: &GapTable, lo: u32, end: u32, anchor: u8) -> Option<u32>
    requires proper { lo < end }
    requires bounded { end ≤ MAX_END }
{
    table.blocker(2000, &slot(lo, end, anchor))
}

#[test]
fn an_empty_table_blocks_nothing(rt: HostRuntime) {
    let table = GapTable::new(rt.alloc());
    assert!(rt; free_behind(&table, 0, 6720, 1) == None);
}

#[test]
fn candidates_and_what_blocks_them(rt: HostRuntime) -> Result<(), Fail> {
    let table = three_slots(rt.alloc())?;
    for (lo, end, anchor, free) in &CANDIDATES {
        assert!(rt; *lo < *end && *end <= MAX_END);
        let found = free_behind(&table, *lo, *end, *anchor);
        assert!(rt; found == *free, "{found:?} for {lo} to {end} of {anchor}");
    }
    Ok(())
}
