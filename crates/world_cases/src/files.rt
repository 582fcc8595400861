//! World files of two cycles, for five devices, two forwardings and five links.

ghost use Rattle.std.specs.Prelude.{◌≤◌};
ghost use Rattle.irt_base.specs.declared.limits.TheConstants.{MAX_CYCLES};
ghost use Rattle.plan_rules.specs.Plan.{IsPlan};

use irt_base::blocks::Bundle;
use irt_base::plants::Plant;
use irt_world::rows::{Row, World};
use plan_cases::plans::plan_of;
use plan_cases::samples::RING;
use std::alloc::{AllocError, Global};
use std::process::Abort;
use std::test::Fail;
use world_file::fault::WorldFault;
use world_file::reading::read_world;

/// A line in range.
const GOOD: &str = "E 0 0 0 0 0 B 1000 3000 C\n";

/// Two lines in range.
const ROWS: &str =
    "E -1000000 1000000 -1 1 10 B 1000 3000 C 0 1 2 3 4\nE 0 0 0 0 0 B 3000 1000 C 4\n";

/// Two parts of a file, and the first wrong line and place. A line has the errors at the places 1 to 5, the bridge
/// delays at 6 and 7, and the cut links from 8 on.
const REFUSED: [(&str, &str, (u32, u32)); 50] = [
    // a line is missing, or not ended
    ("", "", (1, 0)),
    (GOOD, "", (2, 0)),
    (GOOD, "E 0 0 0 0 0 B 1000 3000 C", (2, 0)),
    ("E 0 0 0 0 0 B 1000 3000 C", "", (1, 0)),
    ("E 0 0 0 0 0 B 1000 3000 C\r\n", GOOD, (1, 0)),
    ("\n", GOOD, (1, 0)),
    (GOOD, "\nE 0 0 0 0 0 B 1000 3000 C\n", (2, 0)),
    // bytes after the last line wanted
    (GOOD, "E 0 0 0 0 0 B 1000 3000 C\n\n", (3, 0)),
    (GOOD, "E 0 0 0 0 0 B 1000 3000 C\nx", (3, 0)),
    (
        GOOD,
        "E 0 0 0 0 0 B 1000 3000 C\nE 0 0 0 0 0 B 1000 3000 C\n",
        (3, 0),
    ),
    // another count of errors or bridge delays
    ("E 0 0 0 0 B 1000 3000 C\n", GOOD, (1, 0)),
    ("E 0 0 0 0 0 0 B 1000 3000 C\n", GOOD, (1, 0)),
    ("E 0 0 0 0 0 B 1000 C\n", GOOD, (1, 0)),
    ("E 0 0 0 0 0 B 1000 3000 1000 C\n", GOOD, (1, 0)),
    ("E 1000001 0 0 0 0 B 1000 C\n", GOOD, (1, 0)),
    // another form
    ("e 0 0 0 0 0 B 1000 3000 C\n", GOOD, (1, 0)),
    (" E 0 0 0 0 0 B 1000 3000 C\n", GOOD, (1, 0)),
    ("E 0 0 0 0 0 B 1000 3000\n", GOOD, (1, 0)),
    ("E0 0 0 0 0 B 1000 3000 C\n", GOOD, (1, 0)),
    ("E 0 0 0 0 0B 1000 3000 C\n", GOOD, (1, 0)),
    ("E  0 0 0 0 0 B 1000 3000 C\n", GOOD, (1, 0)),
    ("E 0 0 0 0 0 B 1000 3000 C \n", GOOD, (1, 0)),
    ("E 0 0 0 0 0 B 1000 3000 C -\n", GOOD, (1, 0)),
    ("E 0 0 0 0 0 B 1000 3000 C 1,2\n", GOOD, (1, 0)),
    ("E 0 0 0 0 -0 B 1000 3000 C\n", GOOD, (1, 0)),
    ("E 0 0 0 0 05 B 1000 3000 C\n", GOOD, (1, 0)),
    ("E 0 0 0 0 -05 B 1000 3000 C\n", GOOD, (1, 0)),
    ("E 0 0 0 0 +5 B 1000 3000 C\n", GOOD, (1, 0)),
    ("E 0 0 0 0 5x B 1000 3000 C\n", GOOD, (1, 0)),
    ("E 1000001 0 0 0 0 B 1000 3000 C x\n", GOOD, (1, 0)),
    // a value out of its range
    ("E 1000001 0 0 0 0 B 1000 3000 C\n", "", (1, 1)),
    ("E 0 0 -1000001 1000001 0 B 1000 3000 C\n", GOOD, (1, 3)),
    ("E 0 0 0 0 -1000001 B 999 3001 C 5\n", GOOD, (1, 5)),
    (
        "E 0 1111111111222222222233333333334444444444555555555566666666667777777777888888888899999999990000000000 ",
        "0 0 0 B 1000 3000 C\n",
        (1, 2),
    ),
    (
        "E 0 0 -1111111111222222222233333333334444444444555555555566666666667777777777888888888899999999990000000000 ",
        "0 0 B 1000 3000 C\n",
        (1, 3),
    ),
    ("E 0 0 0 0 0 B 999 3000 C\n", GOOD, (1, 6)),
    ("E 0 0 0 0 0 B 1000 3001 C\n", GOOD, (1, 7)),
    ("E 0 0 0 0 0 B -1000 3000 C\n", GOOD, (1, 6)),
    ("E 0 0 0 0 0 B 1000 4294968296 C\n", GOOD, (1, 7)),
    ("E 0 0 0 0 0 B 1000 18446744073709552616 C\n", GOOD, (1, 7)),
    (GOOD, "E 0 0 0 0 0 B 1000 0 C 5\n", (2, 7)),
    // a link that the plant lacks, or out of order
    ("E 0 0 0 0 0 B 1000 3000 C 5\n", GOOD, (1, 8)),
    ("E 0 0 0 0 0 B 1000 3000 C -1\n", GOOD, (1, 8)),
    ("E 0 0 0 0 0 B 1000 3000 C 0 65537\n", GOOD, (1, 9)),
    ("E 0 0 0 0 0 B 1000 3000 C 0 1 2 3 4 5\n", GOOD, (1, 13)),
    ("E 0 0 0 0 0 B 1000 3000 C 4 0\n", GOOD, (1, 9)),
    ("E 0 0 0 0 0 B 1000 3000 C 0 1 1 4\n", GOOD, (1, 10)),
    ("E 0 0 0 0 0 B 1000 3000 C 3 2 9\n", GOOD, (1, 9)),
    (GOOD, "E 0 0 0 0 0 B 1000 3000 C 2 2\n", (2, 9)),
    (GOOD, "E 1000001 0 0 0 0 B 1000 3000 C\nx", (2, 1)),
];

/// Why a text of two parts is no file of two cycles.
fn fault_of(
    alloc: Global,
    plant: &Plant,
    bundles: &[Bundle],
    first: &str,
    second: &str,
) -> Result<Option<WorldFault>, AllocError>
    requires { IsPlan plant.now bundles.now }
{
    let mut text = String::from_str(alloc, first)?;
    text.push_str(second)?;
    Ok(read_world(alloc, text.as_bytes(), plant, bundles, 2).err())
}

/// That each text is refused where it is wrong.
fn refuses(
    rt: &impl Abort,
    alloc: Global,
    plant: &Plant,
    bundles: &[Bundle],
) -> Result<(), AllocError>
    requires { IsPlan plant.now bundles.now }
{
    for (number, (first, second, (line, place))) in REFUSED.iter().enumerate() {
        let fault = fault_of(alloc, plant, bundles, first, second)?;
        let wanted = WorldFault::Refused {
            line: *line,
            place: *place,
        };
        assert!(rt; fault == Some(wanted), "file {number}");
    }
    Ok(())
}

#[test]
fn first_wrong_places(rt: HostRuntime) -> Result<(), Fail> {
    let (plant, bundles) = plan_of(rt.alloc(), &RING)?;
    Ok(refuses(&rt, rt.alloc(), &plant, bundles.as_slice())?)
}

/// The world of a text.
fn world_of(alloc: Global, text: &str, cycles: u32) -> Result<World, Fail>
    requires { cycles ≤ MAX_CYCLES }
{
    let (plant, bundles) = plan_of(alloc, &RING)?;
    Ok(read_world(alloc, text.as_bytes(), &plant, bundles.as_slice(), cycles)?)
}

/// Whether a row has these errors and bridge delays.
fn has(row: &Row, errors: &[i64], bridges: &[u32]) -> bool {
    row.errors.as_slice() == errors && row.bridges.as_slice() == bridges
}

fn is_first(row: &Row) -> bool {
    has(row, &[-1000000, 1000000, -1, 1, 10], &[1000, 3000])
        && row.cuts.as_slice() == [0, 1, 2, 3, 4].as_slice()
}

fn is_second(row: &Row) -> bool {
    has(row, &[0; 5], &[3000, 1000]) && row.is_cut(4) && row.is_uncut(3)
}

/// Whether there are these two rows.
fn are_both(rows: &[Row]) -> bool {
    rows.len() == 2 && is_first(&rows[0]) && is_second(&rows[1])
}

#[test]
fn rows_in_range(rt: HostRuntime) -> Result<(), Fail> {
    let world = world_of(rt.alloc(), ROWS, 2)?;
    assert!(rt; are_both(world.rows.as_slice()));
    Ok(())
}

#[test]
fn no_rows(rt: HostRuntime) -> Result<(), Fail> {
    let world = world_of(rt.alloc(), "", 0)?;
    assert!(rt; world.rows.is_empty());
    Ok(())
}
