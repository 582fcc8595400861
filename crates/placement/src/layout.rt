//! A frame's way in plain numbers.

use irt_base::limits::MAX_DEVICES;
use irt_base::list::Items;
use irt_base::numbers::{DevId, PortNo};

/// Greatest time in a layout and in limits, in ns.
pub const MAX_TIME: u32 = 0x1000_0000;

/// A frame leaves a device by a port. All times are ns.
#[derive(Clone, Copy, PartialEq, Eq)]
pub struct Sending {
    /// The device by whose offset it starts.
    pub anchor: DevId,
    pub device: DevId,
    pub port: PortNo,
    /// The least and the greatest time from that offset to the start.
    pub least: u32,
    pub greatest: u32,
}

/// When an anchor may start: so many ns after the offset of another one.
#[derive(Clone, Copy, PartialEq, Eq)]
pub struct After {
    pub anchor: DevId,
    pub gap: u32,
}

/// A device that starts a frame by an offset of its own.
#[derive(Clone, Copy, PartialEq, Eq)]
pub struct Anchor {
    pub device: DevId,
    /// Nothing at the provider, which may start at 0.
    pub after: Option<After>,
}

/// The way of a frame.
#[derive(Drop)]
pub struct Layout {
    /// How long the frame occupies a link, in ns.
    pub wire: u32,
    /// Each after the one on which it depends.
    pub anchors: Items<Anchor>,
    pub sendings: Items<Sending>,
}

/// How often a frame is sent: in each `ratio`-th cycle, in one of `ratio` phases, from 1.
#[derive(Clone, Copy, PartialEq, Eq)]
pub struct Rate {
    pub ratio: u16,
    pub phase: u16,
}

/// The guard between two clocks, and the latest end of a sending, in ns.
#[derive(Clone, Copy, PartialEq, Eq)]
pub struct Limits {
    pub guard: u32,
    pub red_max: u32,
}

/// Of each device the offset of a frame, in ns. It says something at anchors alone.
pub type Offsets = [u32; MAX_DEVICES];
