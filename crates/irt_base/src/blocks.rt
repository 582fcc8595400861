//! The values of a device's blocks. `Valid` of `specs/` says which values are valid.

use crate::list::Items;
use crate::numbers::FrameId;

/// One frame at one device (an entry of PDIRFrameData).
#[derive(Clone, Copy, PartialEq, Eq)]
pub struct Entry {
    /// FrameSendOffset: the local time of the start in a due cycle, in ns.
    pub send_offset: u32,
    /// The bytes of data.
    pub data_length: u16,
    /// The frame is sent in every `ratio`-th send cycle.
    pub ratio: u16,
    /// In which of them, from 1.
    pub phase: u16,
    pub frame: FrameId,
    /// The port by which the frame comes, or 0 where the device provides it.
    pub rx_port: u8,
    /// Bit 0: the device consumes the frame. Bit i: it leaves by port i.
    pub tx: u8,
}

/// The frames at one device (PDIRFrameData), by ascending FrameID.
#[derive(Drop)]
pub struct FrameBlock {
    /// Whether the device forwards relative to the arrival.
    pub relative: bool,
    pub entries: Items<Entry>,
}

/// The begins of a port's periods in a cycle, in local ns.
#[derive(Clone, Copy, Debug, PartialEq, Eq)]
pub struct Period {
    pub red: u32,
    pub orange: u32,
    pub green: u32,
}

/// The periods of one side of a port each.
#[derive(Clone, Copy, PartialEq, Eq)]
pub struct Assignment {
    pub tx: Period,
    pub rx: Period,
}

/// Which assignments hold in a phase, by number from 0.
#[derive(Clone, Copy, PartialEq, Eq)]
pub struct PhasePair {
    pub tx: u16,
    pub rx: u16,
}

/// The periods of one port.
#[derive(Drop)]
pub struct PortPeriods {
    pub assignments: Items<Assignment>,
    pub phases: Items<PhasePair>,
}

/// The periods of one device (PDIRBeginEndData), and its range of red FrameIDs.
#[derive(Drop)]
pub struct PeriodBlock {
    pub first: u16,
    pub last: u16,
    pub ports: Items<PortPeriods>,
}

/// The delays of a port, in ns.
#[derive(Clone, Copy, PartialEq, Eq)]
pub struct PortDelay {
    pub tx: u32,
    pub rx: u32,
}

/// The delays of one device (PDIRGlobalData), in ns.
#[derive(Drop)]
pub struct GlobalBlock {
    pub uuid: [u8; 16],
    pub bridge: u32,
    pub ports: Items<PortDelay>,
}

/// How one device keeps its clock (PDSyncData).
#[derive(Drop)]
pub struct SyncBlock {
    pub subdomain: [u8; 16],
    /// PLLWindow: within how many ns the device is in step.
    pub window: u32,
    /// SyncSendFactor: cycles between two sync messages.
    pub send: u32,
    /// SendClockFactor, in units of 31.25 microseconds.
    pub factor: u16,
    pub timeout: u16,
    pub takeover: u16,
    pub startup: u16,
    pub properties: u16,
    pub priority1: u8,
    pub priority2: u8,
    pub name: Items<u8>,
}

/// All that a device file holds: PDSyncData, then PDIRData round the three others.
#[derive(Drop)]
pub struct Bundle {
    pub sync: SyncBlock,
    pub slot: u16,
    pub subslot: u16,
    pub global: GlobalBlock,
    pub frames: FrameBlock,
    pub periods: PeriodBlock,
}

/// A side of a port.
#[derive(Clone, Copy, PartialEq, Eq)]
pub enum Side {
    Tx,
    Rx,
}
