use irt_base::numbers::{DevId, FrameId, PortNo};
use irt_base::plants::{Demand, Link, Mode, Plant};
use plant_gen::gen_plant;
use std::test::Fail;

const LAST: Link = Link {
    a: DevId(10),
    a_port: PortNo(4),
    b: DevId(63),
    b_port: PortNo(1),
    delay: 916,
};

/// How many devices are relative.
fn relative(plant: &Plant) -> usize {
    let devices = plant.devices.as_slice().iter();
    devices.filter(|d| d.mode == Mode::Relative).count()
}

/// Whether it is demand 255.
fn is_last(demand: &Demand) -> bool {
    demand.frame == FrameId(511)
        && demand.provider == DevId(26)
        && demand.consumers.as_slice() == [DevId(31)].as_slice()
        && demand.length == 40
        && demand.update == 16_000_000
}

/// Whether the last link and the last demand of 256 are those.
fn ends_so(plant: &Plant) -> bool {
    match plant.demands.get(255) {
        None => false,
        Some(demand) => is_last(demand) && plant.links.get(62).copied() == Some(LAST),
    }
}

/// The numbers were made by another program.
#[test]
fn a_plant_of_seed_seven(rt: HostRuntime) -> Result<(), Fail> {
    let plant = gen_plant(rt.alloc(), 7, 64, 256)?;
    assert!(rt; relative(&plant) == 15);
    assert!(rt; ends_so(&plant));
    Ok(())
}
