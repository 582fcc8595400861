//! What the way of a demand's frame says.

use irt_base::blocks::Entry;
use irt_base::list::Items;
use irt_base::numbers::{DevId, FrameId, PortNo};
use placement::layout::Layout;

/// A frame comes to a device.
#[derive(Clone, Copy, PartialEq, Eq)]
pub struct Arrival {
    pub device: DevId,
    /// The port that receives it.
    pub port: PortNo,
    /// The device by whose offset the sender starts.
    pub anchor: DevId,
    /// The latest time from that offset to the begin of the arrival, in ns.
    pub latest: u32,
}

/// The way of a demand's frame, at all devices.
#[derive(Drop)]
pub struct FrameWay {
    pub frame: FrameId,
    /// By device, each in ratio 1, phase 1 and with offset 0.
    pub entries: Items<Option<Entry>>,
    /// The sendings, and the anchors on which they hang.
    pub layout: Layout,
    pub arrivals: Items<Arrival>,
    /// How many links the walk to the farthest consumer has.
    pub hops: u32,
}
