//! How a frame comes to a device, and when the device sends it.

use irt_base::numbers::{DevId, PortNo};

/// The way of one entry. A device's anchor is the nearest device on the way, itself included, that starts the frame
/// by a FrameSendOffset. All times are ns in the local cycle of an anchor.
#[derive(Clone, Copy, PartialEq, Eq)]
pub struct Way {
    /// Who sends the frame here, and by which port. At the provider the port is 0.
    pub parent: DevId,
    pub port: PortNo,
    /// The earliest and the latest time at which the frame begins to arrive, by the parent's anchor. At the provider
    /// both are 0.
    pub earliest: u64,
    pub latest: u64,
    /// The earliest and the latest start of sending here, by the anchor that follows.
    pub lo: u64,
    pub hi: u64,
    pub anchor: DevId,
}
