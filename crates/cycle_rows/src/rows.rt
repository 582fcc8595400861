//! Rows, and their order in a cycle.

ghost use Rattle.std.specs.Prelude.{◌≡◌, AllPairs, IsPermutation, pos};
ghost use Rattle.cycle_rows.specs.Order.{key_of, HasOtherKey, AreInOrder};

use irt_base::numbers::{DevId, FrameId, Ns, PortNo};

/// What happened in a send cycle. Times are true ns, and an end is when the link is free again, the gap included.
#[derive(Clone, Copy, Debug, PartialEq, Eq)]
pub enum JournalRow {
    /// A frame was on the wire behind a port.
    Occupy {
        cycle: u32,
        device: DevId,
        port: PortNo,
        frame: FrameId,
        start: Ns,
        end: Ns,
    },
    /// A frame has come whole to one of its consumers.
    Deliver {
        cycle: u32,
        device: DevId,
        frame: FrameId,
        end: Ns,
    },
    /// A device that was not in step dropped a frame.
    Missed {
        cycle: u32,
        device: DevId,
        frame: FrameId,
    },
    /// A parcel was on the wire behind a port: which one of which traffic entry, each from 0.
    Sent {
        cycle: u32,
        device: DevId,
        port: PortNo,
        traffic: u16,
        serial: u32,
        start: Ns,
        end: Ns,
    },
    /// A parcel was refused by a port whose queue was full.
    Refused {
        cycle: u32,
        device: DevId,
        port: PortNo,
        traffic: u16,
        serial: u32,
    },
    /// A parcel was sent by a port onto a cut link.
    Lost {
        cycle: u32,
        device: DevId,
        port: PortNo,
        traffic: u16,
        serial: u32,
    },
    /// A parcel has come to its target.
    Came {
        cycle: u32,
        device: DevId,
        traffic: u16,
        serial: u32,
    },
}

/// Where a row stands in its cycle: by kind, device and port, then by start in ns or by FrameID. What a kind does not
/// order by is 0.
#[derive(Clone, Copy, PartialEq, Eq, PartialOrd, Ord)]
pub struct RowKey {
    pub kind: u8,
    pub device: u8,
    pub port: u8,
    pub at: Ns,
}

impl JournalRow {
    /// Where the row stands in its cycle.
    pub fn key(&self) -> RowKey
        ensures { result ≡ key_of self.now }
    {
        match *self {
            JournalRow::Occupy {
                device,
                port,
                start,
                ..
            } => timed(0, device, port, start),
            JournalRow::Deliver { device, frame, .. } => named(1, device, frame),
            JournalRow::Missed { device, frame, .. } => named(2, device, frame),
            JournalRow::Sent {
                device,
                port,
                start,
                ..
            } => timed(3, device, port, start),
            JournalRow::Refused { .. } => kind_alone(4),
            JournalRow::Lost { .. } => kind_alone(5),
            JournalRow::Came { .. } => kind_alone(6),
        }
    }
}

fn timed(kind: u8, device: DevId, port: PortNo, start: Ns) -> RowKey
    ensures { result ≡ record { kind = kind; device = device.0; port = port.0; at = start } }
{
    RowKey {
        kind,
        device: device.0,
        port: port.0,
        at: start,
    }
}

fn named(kind: u8, device: DevId, frame: FrameId) -> RowKey
    ensures { result ≡ record { kind = kind; device = device.0; port = 0; at = pos frame.0 } }
{
    RowKey {
        kind,
        device: device.0,
        port: 0,
        at: i64::from(frame.0),
    }
}

fn kind_alone(kind: u8) -> RowKey
    ensures { result ≡ record { kind = kind; device = 0; port = 0; at = pos 0 } }
{
    RowKey {
        kind,
        device: 0,
        port: 0,
        at: 0,
    }
}

/// Sorts rows of a cycle by their keys. It takes no memory.
pub fn sort_rows(rows: &mut [JournalRow])
    ensures same { IsPermutation rows.old rows.new }
    ensures order { AllPairs HasOtherKey rows.old → AreInOrder rows.new }
{
    rows.sort_unstable_by_key(|row| row.key());
}
