//! Events.

use irt_base::numbers::{DevId, FrameId, Ns, PortNo};

/// What an event is.
#[derive(Clone, Copy, Debug, PartialEq, Eq, PartialOrd, Ord)]
pub enum What {
    /// The frame starts at the port.
    Start,
    /// The frame begins to arrive at the port.
    Arrive,
}

/// An event of a frame. They are ordered by time (true ns), device, port and frame.
#[derive(Clone, Copy, Debug, PartialEq, Eq, PartialOrd, Ord)]
pub struct Event {
    pub at: Ns,
    pub device: DevId,
    pub port: PortNo,
    pub frame: FrameId,
    pub what: What,
}
