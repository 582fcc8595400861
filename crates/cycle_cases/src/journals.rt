//! Journals as text.

use cycle_rows::rows::JournalRow;
use irt_base::list::Items;
use irt_base::memory::NoMemory;
use irt_base::numbers::{DevId, FrameId, PortNo};
use irt_base::plants::{Clocks, Device, Mode, Plant, SyncPlan};
use irt_trace::print_journal;
use std::alloc::Global;
use std::test::Fail;

fn device(alloc: Global, name: &[u8]) -> Result<Device, NoMemory> {
    Ok(Device {
        name: Items::from_vec(Vec::from_slice(alloc, name)?),
        mode: Mode::Absolute,
        bmin: 0,
        bmax: 3000,
        ports: Items::new(alloc),
    })
}

/// The devices a and drive-1.
fn devices(alloc: Global) -> Result<Items<Device>, NoMemory> {
    let mut devices = Items::new(alloc);
    devices.push(device(alloc, b"a")?)?;
    devices.push(device(alloc, b"drive-1")?)?;
    Ok(devices)
}

/// A plant with these devices.
fn plant(alloc: Global, devices: Items<Device>) -> Plant {
    Plant {
        factor: 32,
        window: 1000,
        red_max: 250000,
        orange: 0,
        clocks: Clocks::World,
        sync: SyncPlan {
            send: 32,
            timeout: 6,
            drift: 0,
            stamp: 0,
            loss: 0,
        },
        devices,
        links: Items::new(alloc),
        demands: Items::new(alloc),
        traffic: Items::new(alloc),
        apps: Items::new(alloc),
    }
}

const A: DevId = DevId(0);

const DRIVE: DevId = DevId(1);

/// A row of each kind. Before the first cycle times are negative.
const ROWS: [JournalRow; 7] = [
    JournalRow::Occupy {
        cycle: 0,
        device: A,
        port: PortNo(2),
        frame: FrameId(0x01af),
        start: -1000,
        end: 5720,
    },
    JournalRow::Deliver {
        cycle: 0,
        device: DRIVE,
        frame: FrameId(0x0100),
        end: 14320,
    },
    JournalRow::Missed {
        cycle: 9999,
        device: DRIVE,
        frame: FrameId(0x0fff),
    },
    JournalRow::Sent {
        cycle: 1,
        device: A,
        port: PortNo(1),
        traffic: 3,
        serial: 40,
        start: 1006720,
        end: 1013440,
    },
    JournalRow::Refused {
        cycle: 1,
        device: A,
        port: PortNo(1),
        traffic: 0,
        serial: 32,
    },
    JournalRow::Lost {
        cycle: 1,
        device: A,
        port: PortNo(1),
        traffic: 0,
        serial: 0,
    },
    JournalRow::Came {
        cycle: 2,
        device: DRIVE,
        traffic: 0,
        serial: 1,
    },
];

const LINES: &str = "o 0 a 2 0x01af -1000 5720
d 0 drive-1 0x0100 14320
x 9999 drive-1 0x0fff step
t 1 a 1 3 40 1006720 1013440
q 1 a 1 0 32
l 1 a 1 0 0
a 2 drive-1 0 1
";

/// The journal of the rows.
fn journal(alloc: Global) -> Result<Vec<u8>, NoMemory> {
    let plant = plant(alloc, devices(alloc)?);
    print_journal(alloc, &plant, &ROWS)
}

#[test]
fn each_kind_of_row_has_its_line(rt: HostRuntime) -> Result<(), Fail> {
    let text = journal(rt.alloc())?;
    assert!(rt; text.as_slice() == LINES.as_bytes(), "{text:?}");
    Ok(())
}
