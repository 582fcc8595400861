//! Rows of a seed. The numbers drawn were computed by another program.

ghost use Rattle.plan_rules.specs.Plan.{IsPlan};

use irt_base::blocks::Bundle;
use irt_base::memory::NoMemory;
use irt_base::numbers::{DevId, FrameId};
use irt_base::plants::Plant;
use irt_world::forwardings::Forwardings;
use irt_world::rows::Row;
use irt_world::seeded::seeded;
use plan_cases::plans::plan_of;
use plan_cases::samples::Sample;
use std::alloc::Global;
use std::process::Abort;
use std::test::Fail;

/// d1 sends on two frames of d0, by a port without a link.
const TWO: Sample<'static> = Sample {
    modes: &["absolute", "relative"],
    wires: &[(0, 1, 1, 1)],
    asked: &[(0x0100, 0, &[1]), (0x0101, 0, &[1])],
    rows: &[
        (0, 0x0100, 0, 0, 0b10),
        (0, 0x0101, 6720, 0, 0b10),
        (1, 0x0100, 0, 1, 0b101),
        (1, 0x0101, 0, 1, 0b100),
    ],
};

/// Errors and bridge delays of three cycles, within 1000 ns and 1000 to 3000 ns.
const ROWS: [([i64; 2], [u32; 2]); 3] = [
    ([-378, -922], [2127, 1393]),
    ([-18, -914], [2106, 1093]),
    ([844, -637], [1912, 1836]),
];

/// Whether a row has these errors and delays, and no link is cut.
fn is_row(row: &Row, errors: &[i64; 2], delays: &[u32; 2]) -> bool {
    row.errors.as_slice() == errors.as_slice()
        && row.bridges.as_slice() == delays.as_slice()
        && row.error(DevId(1)) == errors[1]
        && row.is_uncut(0)
}

/// That the rows of seed 7 are those, in each of which device 1 is in step.
fn shows_rows(
    rt: &impl Abort,
    alloc: Global,
    plant: &Plant,
    bundles: &[Bundle],
) -> Result<(), NoMemory>
    requires { IsPlan plant.now bundles.now }
{
    let world = seeded(alloc, 7, plant, bundles, 3)?;
    let rows = world.rows.as_slice();
    assert!(rt; rows.len() == 3);
    for (row, (errors, delays)) in rows.iter().zip(&ROWS) {
        assert!(rt; is_row(row, errors, delays), "{}", errors[0]);
        assert!(rt; row.is_in_step(plant, DevId(1)), "{}", errors[0]);
    }
    Ok(())
}

#[test]
fn rows_of_a_seed(rt: HostRuntime) -> Result<(), Fail> {
    let (plant, bundles) = plan_of(rt.alloc(), &TWO)?;
    Ok(shows_rows(&rt, rt.alloc(), &plant, bundles.as_slice())?)
}

/// Whether d1 forwards both frames, and no other device does.
fn forwards_two(alloc: Global, plant: &Plant, bundles: &[Bundle]) -> Result<bool, NoMemory>
    requires { IsPlan plant.now bundles.now }
{
    let forwardings = Forwardings::new(alloc, plant, bundles)?;
    Ok(
        forwardings.len() == 2
            && forwardings.number_of(DevId(1), FrameId(0x0101)) == Some(1)
            && forwardings.number_of(DevId(0), FrameId(0x0100)) == None,
    )
}

#[test]
fn forwardings_of_a_plan(rt: HostRuntime) -> Result<(), Fail> {
    let (plant, bundles) = plan_of(rt.alloc(), &TWO)?;
    assert!(rt; forwards_two(rt.alloc(), &plant, bundles.as_slice())?);
    Ok(())
}
