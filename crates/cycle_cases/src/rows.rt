//! The order of rows.

use cycle_rows::rows::{JournalRow, sort_rows};
use irt_base::numbers::{DevId, FrameId, PortNo};

fn occupy(device: u8, port: u8, start: i64) -> JournalRow {
    JournalRow::Occupy {
        cycle: 0,
        device: DevId(device),
        port: PortNo(port),
        frame: FrameId(0x0100),
        start,
        end: 0,
    }
}

fn deliver(device: u8, frame: u16) -> JournalRow {
    JournalRow::Deliver {
        cycle: 0,
        device: DevId(device),
        frame: FrameId(frame),
        end: 0,
    }
}

const MISSED: JournalRow = JournalRow::Missed {
    cycle: 0,
    device: DevId(0),
    frame: FrameId(0x0100),
};

/// Occupations by device, port and start, which may be negative; deliveries by device and FrameID; drops.
#[test]
fn rows_stand_by_kind_and_place(rt: HostRuntime) {
    let mut rows = [
        MISSED,
        deliver(1, 0x0100),
        deliver(0, 0x0101),
        occupy(1, 1, -1000),
        deliver(0, 0x0100),
        occupy(0, 2, 6720),
        occupy(0, 1, 8720),
        occupy(0, 2, -1000),
    ];
    sort_rows(&mut rows);
    let order = [
        occupy(0, 1, 8720),
        occupy(0, 2, -1000),
        occupy(0, 2, 6720),
        occupy(1, 1, -1000),
        deliver(0, 0x0100),
        deliver(0, 0x0101),
        deliver(1, 0x0100),
        MISSED,
    ];
    assert!(rt; rows == order);
}
