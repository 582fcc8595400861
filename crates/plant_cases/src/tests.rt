//! Plants read, printed and read back.

ghost use Rattle.std.specs.Prelude.{◌≤◌};
ghost use Rattle.irt_base.specs.Valid.{IsWithin};
ghost use Rattle.irt_base.specs.declared.limits.TheConstants.{MAX_DEMANDS, MAX_DEVICES};

use irt_base::memory::NoMemory;
use irt_topo::read::read_plant;
use plant_gen::gen_plant;
use plant_print::print::print_plant;
use std::alloc::Global;
use std::test::Fail;

const PAIR: &str = r#"factor = 32
window = 1000
red_max = 250000
orange = 0
clocks = "world"
device = [
    { name = "a", mode = "absolute", bmin = 1000, bmax = 3000, ports = [[100, 200]] },
    { name = "b", mode = "absolute", bmin = 1000, bmax = 3000, ports = [[100, 200]] },
]
link = [
    { from = "a", from_port = 1, to = "b", to_port = 1, delay = 500 },
]
demand = [
    { frame = 0x0100, from = "a", to = ["b"], length = 40, update = 1000000 },
]
"#;

const LINE: &str = r#"factor = 32
window = 1000
red_max = 250000
orange = 0
clocks = "world"
device = [
    { name = "a", mode = "absolute", bmin = 1000, bmax = 3000, ports = [[100, 200]] },
    { name = "s", mode = "absolute", bmin = 1000, bmax = 3000, ports = [[100, 200], [100, 200]] },
    { name = "b", mode = "absolute", bmin = 1000, bmax = 3000, ports = [[100, 200]] },
]
link = [
    { from = "a", from_port = 1, to = "s", to_port = 1, delay = 500 },
    { from = "s", from_port = 2, to = "b", to_port = 1, delay = 500 },
]
demand = [
    { frame = 0x0100, from = "a", to = ["b"], length = 40, update = 1000000 },
]
"#;

const DRIVES: &str = r#"factor = 32
window = 1000
red_max = 250000
orange = 0
clocks = "ptcp"
device = [
    { name = "c", mode = "absolute", bmin = 1000, bmax = 3000, ports = [[100, 200]] },
    { name = "d1", mode = "absolute", bmin = 1000, bmax = 3000, ports = [[100, 200], [100, 200]] },
    { name = "d2", mode = "absolute", bmin = 1000, bmax = 3000, ports = [[100, 200], [100, 200]] },
    { name = "d3", mode = "absolute", bmin = 1000, bmax = 3000, ports = [[100, 200], [100, 200]] },
    { name = "d4", mode = "absolute", bmin = 1000, bmax = 3000, ports = [[100, 200], [100, 200]] },
    { name = "d5", mode = "absolute", bmin = 1000, bmax = 3000, ports = [[100, 200], [100, 200]] },
    { name = "d6", mode = "absolute", bmin = 1000, bmax = 3000, ports = [[100, 200], [100, 200]] },
    { name = "d7", mode = "absolute", bmin = 1000, bmax = 3000, ports = [[100, 200], [100, 200]] },
    { name = "d8", mode = "absolute", bmin = 1000, bmax = 3000, ports = [[100, 200]] },
]
link = [
    { from = "c", from_port = 1, to = "d1", to_port = 1, delay = 500 },
    { from = "d1", from_port = 2, to = "d2", to_port = 1, delay = 500 },
    { from = "d2", from_port = 2, to = "d3", to_port = 1, delay = 500 },
    { from = "d3", from_port = 2, to = "d4", to_port = 1, delay = 500 },
    { from = "d4", from_port = 2, to = "d5", to_port = 1, delay = 500 },
    { from = "d5", from_port = 2, to = "d6", to_port = 1, delay = 500 },
    { from = "d6", from_port = 2, to = "d7", to_port = 1, delay = 500 },
    { from = "d7", from_port = 2, to = "d8", to_port = 1, delay = 500 },
]
demand = [
    { frame = 0x0100, from = "c", to = ["d1"], length = 40, update = 1000000 },
    { frame = 0x0101, from = "c", to = ["d2"], length = 40, update = 1000000 },
    { frame = 0x0102, from = "c", to = ["d3"], length = 40, update = 1000000 },
    { frame = 0x0103, from = "c", to = ["d4"], length = 40, update = 1000000 },
    { frame = 0x0104, from = "c", to = ["d5"], length = 40, update = 1000000 },
    { frame = 0x0105, from = "c", to = ["d6"], length = 40, update = 1000000 },
    { frame = 0x0106, from = "c", to = ["d7"], length = 40, update = 1000000 },
    { frame = 0x0107, from = "c", to = ["d8"], length = 40, update = 1000000 },
    { frame = 0x0108, from = "d1", to = ["c"], length = 40, update = 1000000 },
    { frame = 0x0109, from = "d2", to = ["c"], length = 40, update = 1000000 },
    { frame = 0x010a, from = "d3", to = ["c"], length = 40, update = 1000000 },
    { frame = 0x010b, from = "d4", to = ["c"], length = 40, update = 1000000 },
    { frame = 0x010c, from = "d5", to = ["c"], length = 40, update = 1000000 },
    { frame = 0x010d, from = "d6", to = ["c"], length = 40, update = 1000000 },
    { frame = 0x010e, from = "d7", to = ["c"], length = 40, update = 1000000 },
    { frame = 0x010f, from = "d8", to = ["c"], length = 40, update = 1000000 },
]
[sync]
send = 4
timeout = 6
drift = 5
stamp = 8
loss = 0
"#;

/// What is printed of the plant of a file, where there is one.
fn reprinted(alloc: Global, text: &[u8]) -> Option<Vec<u8>> {
    let plant = read_plant(alloc, text).ok()?;
    print_plant(alloc, &plant).ok()
}

/// Whether a text is a plant's file, and so is what is printed of the plant, which prints the same again.
fn comes_back(alloc: Global, text: &[u8]) -> bool {
    match reprinted(alloc, text) {
        None => false,
        Some(printed) => is_reprinted(alloc, printed.as_slice()),
    }
}

/// Whether a text is what is printed of its plant.
fn is_reprinted(alloc: Global, text: &[u8]) -> bool {
    match reprinted(alloc, text) {
        None => false,
        Some(printed) => printed.as_slice() == text,
    }
}

#[test]
fn worked_plants_come_back(rt: HostRuntime) {
    assert!(rt; comes_back(rt.alloc(), PAIR.as_bytes()));
    assert!(rt; comes_back(rt.alloc(), LINE.as_bytes()));
    assert!(rt; comes_back(rt.alloc(), DRIVES.as_bytes()));
}

/// What is printed of a generated plant.
fn generated(alloc: Global, seed: u64, devices: u16, frames: u16) -> Result<Vec<u8>, NoMemory>
    requires devices { IsWithin 2 MAX_DEVICES devices }
    requires frames { frames ≤ MAX_DEMANDS }
{
    let plant = gen_plant(alloc, seed, devices, frames)?;
    print_plant(alloc, &plant)
}

#[test]
fn generated_plants_come_back(rt: HostRuntime) -> Result<(), Fail> {
    for (seed, devices, frames) in [(0, 2, 0), (7, 2, 1), (u64::MAX, 5, 16), (7, 64, 512)] {
        let printed = generated(rt.alloc(), seed, devices, frames)?;
        assert!(rt;
            comes_back(rt.alloc(), printed.as_slice()),
            "{seed} {devices} {frames}"
        );
    }
    Ok(())
}
