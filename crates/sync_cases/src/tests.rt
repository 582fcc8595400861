use crate::plants::line_text;
use irt_route::clocks::clock_tree;
use irt_topo::read::read_plant;
use std::alloc::Global;
use std::test::Fail;
use sync_world::report::{report_text, sync_report};

/// Names, the numbers of the domain, cycles, seed and report.
const REPORTS: [(&[&str], [u32; 5], u32, u64, &str); 4] = [
    (
        &["c", "d1", "d2", "d3", "d4", "d5", "d6", "d7", "d8"],
        [4, 6, 5, 8, 0],
        1000,
        7,
        "d1 1 500 496 169 1 25\nd2 2 500 498 202 1 42\nd3 3 500 497 235 1 46\nd4 4 500 498 268 1 57\n\
        d5 5 500 500 301 1 63\nd6 6 500 502 334 1 65\nd7 7 500 496 367 1 80\nd8 8 500 500 400 1 104\n",
    ),
    (&["a", "b"], [1, 3, 0, 0, 0], 5, 1, "b 1 500 500 1 1 0\n"),
    // b is muted in the cycles 0, 5 to 10, 14 to 21, 25 to 28 and 37 to 39
    (
        &["a", "s", "b"],
        [1, 3, 2, 8, 2],
        40,
        11,
        "s 1 500 499 55 7 16\nb 2 500 501 88 22 20\n",
    ),
    (&["a"], [1, 1, 0, 0, 0], 0, 0, ""),
];

fn report(
    alloc: Global,
    names: &[&str],
    sync: [u32; 5],
    cycles: u32,
    seed: u64,
) -> Result<Vec<u8>, Fail> {
    let text = line_text(alloc, names, sync)?;
    let plant = read_plant(alloc, text.as_bytes())?;
    let tree = clock_tree(alloc, &plant)?;
    if cycles > 10000 {
        return Ok(Vec::new(alloc));
    }
    let lines = sync_report(alloc, seed, &plant, &tree, cycles)?;
    Ok(report_text(alloc, &plant, lines.as_slice())?)
}

#[test]
fn reports(rt: HostRuntime) -> Result<(), Fail> {
    for (names, sync, cycles, seed, wanted) in REPORTS {
        let text = report(rt.alloc(), names, sync, cycles, seed)?;
        assert_eq!(rt; text.as_slice(), wanted.as_bytes());
    }
    Ok(())
}
